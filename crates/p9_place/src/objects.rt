// The objects of data of the modules that are linked, in the order in which they are placed.
ghost use Rattle.std.specs.Prelude.{◌≡◌, ◌≤◌, ◌<◌, ◌+◌, ◌++◌, ◌^◌, OnOk, IfOk, IfSome, All, List, length, map, filter, sum_by};
ghost use Rattle.p9_abs.specs.Validity.{IsValid, HasSizeInRange};
ghost use Rattle.p9_abs.specs.BuiltIn.{linked};
ghost use Rattle.p9_abs.specs.Programs.{numbered_from, records, is_data};
ghost use Rattle.p9_place.specs.Objects.{object_of, one_record, is_own, is_object};

use crate::sizes::{pieces_size, rounded};
use indexmap::IndexMap;
use p9_abs::{AModule, Body, Def, Symbol};
use p9_base::{Name, NoMemory};
use p9_names::builtin;
use std::alloc::Global;

/// An object: its definition, and the bytes that it takes.
#[derive(Clone, Copy, PartialEq, Eq, Debug)]
pub(crate) struct Object {
    pub(crate) def: Def,
    pub(crate) space: u32,
}

/// The objects with initial bytes, and the commons.
#[derive(Drop)]
pub(crate) struct Objects {
    pub(crate) inits: Vec<Object>,
    pub(crate) bss: Vec<Object>,
}

// Whether the definition is the one that its name stands for.
fn is_own(defs: &IndexMap<Name, Def>, def: Def, symbol: &Symbol) -> bool
    ensures { result ≡ is_own defs.now.entries def symbol.now }
{
    if symbol.local {
        return true;
    }
    match defs.get(&symbol.name) {
        None => false,
        Some(own) => own.module == def.module && own.symbol == def.symbol,
    }
}

// Adds the object that a symbol defines, if it defines one.
fn add_symbol(
    objects: &mut Objects,
    defs: &IndexMap<Name, Def>,
    def: Def,
    symbol: &Symbol,
) -> Result<(), NoMemory>
    requires { HasSizeInRange symbol.now.body }
    ensures inits { OnOk result (objects.new.inits.items ≡ objects.old.inits.items ++ map object_of (filter is_data (one_record def symbol.now))) }
    ensures bss { OnOk result (objects.new.bss.items ≡ objects.old.bss.items ++ map object_of (filter (is_object defs.now.entries) (one_record def symbol.now))) }
{
    match &symbol.body {
        Body::Data(pieces) => {
            let space = rounded(pieces_size(&pieces.list));
            objects.inits.push(Object { def, space })?;
        }
        Body::Common(size) => {
            if is_own(defs, def, symbol) {
                let space = rounded(*size);
                objects.bss.push(Object { def, space })?;
            }
        }
        _ => {}
    }
    Ok(())
}

// Adds the objects of a module.
fn add_module(
    objects: &mut Objects,
    defs: &IndexMap<Name, Def>,
    number: u32,
    symbols: &[Symbol],
) -> Result<(), NoMemory>
    requires sizes { All (λ s. HasSizeInRange s.body) symbols.now }
    requires count { length symbols.now < 2 ^ 32 }
    ensures inits { OnOk result (objects.new.inits.items ≡ objects.old.inits.items ++ map object_of (filter is_data (numbered_from number 0 symbols.now))) }
    ensures bss { OnOk result (objects.new.bss.items ≡ objects.old.bss.items ++ map object_of (filter (is_object defs.now.entries) (numbered_from number 0 symbols.now))) }
{
    let mut next = 0;
    let mut rest = symbols;
    while let [symbol, after @ ..] = rest {
        let def = Def {
            module: number,
            symbol: next,
        };
        add_symbol(objects, defs, def, symbol)?;
        next += 1;
        rest = after;
    }
    Ok(())
}

/// The objects of the modules and the built-in one.
pub(crate) fn collected(
    alloc: Global,
    modules: &[AModule],
    defs: &IndexMap<Name, Def>,
) -> Result<Objects, NoMemory>
    requires valid { All IsValid modules.now }
    requires count { length modules.now < 2 ^ 32 }
    requires small { All (λ m. length m.symbols < 2 ^ 32) modules.now }
    ensures inits { IfOk result (λ o. o.inits.items ≡ map object_of (filter is_data (records (linked modules.now)))) }
    ensures bss { IfOk result (λ o. o.bss.items ≡ map object_of (filter (is_object defs.now.entries) (records (linked modules.now)))) }
{
    let mut objects = Objects {
        inits: Vec::new(alloc),
        bss: Vec::new(alloc),
    };
    let mut number = 0;
    let mut rest = modules;
    while let [module, after @ ..] = rest {
        add_module(&mut objects, defs, number, &module.symbols.list)?;
        number += 1;
        rest = after;
    }
    let last = builtin(alloc)?;
    add_module(&mut objects, defs, number, &last.symbols.list)?;
    Ok(objects)
}

/// The bytes that objects take; none where these are 2^64 or more.
pub(crate) fn total(objects: &[Object]) -> Option<u64>
    ensures { IfSome result (λ n. n ≡ sum_by (λ o. o.space) objects.now) }
{
    let mut size: u64 = 0;
    let mut rest = objects;
    while let [object, after @ ..] = rest {
        size = size.checked_add(u64::from(object.space))?;
        rest = after;
    }
    Some(size)
}
