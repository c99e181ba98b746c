// Functions in the order of the text.
ghost use Rattle.std.specs.Prelude.{◌≡◌, ◌<◌, ◌+◌, ◌^◌, ◌++◌, OnOk, IfOk, All, length};
ghost use Rattle.p9_abs.specs.BuiltIn.{builtin_module};
ghost use Rattle.p9_text.specs.Places.{places_of};
ghost use Rattle.p9_abs.specs.Programs.{numbered_from, routine_of, routines_in, routines_of, records};

use p9_abs::{AModule, Abs, Body, Def, Symbol, TextDef};
use p9_base::NoMemory;
use std::alloc::Global;
use std::marker::Model;

/// A function, by the numbers of its module and its symbol.
#[derive(Drop)]
pub struct Routine<'a> {
    pub unit: u32,
    pub symbol: u32,
    pub def: &'a TextDef,
}

impl<'a> Model for Routine<'a> {
    ghost use Rattle.p9_abs.specs.Runs.{Routine};

    ghost Value = { Routine };

    ghost view = { λ r. record { unit = r.unit; symbol = r.symbol; def = r.def.now } };
}

impl<'a> Routine<'a> {
    /// Its instructions.
    pub fn code(&self) -> &'a [Abs]
        ensures { result.now ≡ self.now.def.code }
    {
        let def = self.def;
        &def.code.list
    }

    /// How many numbers it takes: one for its entry and one for each instruction. 2^32 and more are
    /// want of memory.
    pub fn size(&self) -> Result<u32, NoMemory>
        ensures { IfOk result (λ n. n ≡ places_of self.now) }
    {
        let count = u32::try_from(self.code().len()).map_err(|_| NoMemory)?;
        count.checked_add(1).ok_or(NoMemory)
    }
}

// Adds the function that a symbol defines, if it defines one.
fn add_symbol<'a>(
    routines: &mut Vec<Routine<'a>>,
    def: Def,
    symbol: &'a Symbol,
) -> Result<(), NoMemory>
    ensures { OnOk result (routines.new.items ≡ routines.old.items ++ routine_of def symbol.now.body) }
{
    match &symbol.body {
        Body::Text(text) => {
            routines.push(Routine {
                unit: def.module,
                symbol: def.symbol,
                def: text,
            })?;
        }
        _ => {}
    }
    Ok(())
}

// Adds the functions of a module's symbols from a number on.
fn add_symbols<'a>(
    routines: &mut Vec<Routine<'a>>,
    unit: u32,
    from: u32,
    symbols: &'a [Symbol],
) -> Result<(), NoMemory>
    requires { from + length symbols.now < 2 ^ 32 }
    ensures { OnOk result (routines.new.items ≡ routines.old.items ++ routines_in (numbered_from unit from symbols.now)) }
{
    let mut next = from;
    let mut rest = symbols;
    while let [symbol, after @ ..] = rest {
        let def = Def {
            module: unit,
            symbol: next,
        };
        add_symbol(routines, def, symbol)?;
        next += 1;
        rest = after;
    }
    Ok(())
}

// Adds the functions of modules.
fn add_modules<'a>(routines: &mut Vec<Routine<'a>>, modules: &'a [AModule]) -> Result<(), NoMemory>
    requires count { length modules.now < 2 ^ 32 }
    requires small { All (λ m. length m.symbols < 2 ^ 32) modules.now }
    ensures { OnOk result (routines.new.items ≡ routines.old.items ++ routines_in (records modules.now)) }
{
    let mut unit = 0;
    let mut rest = modules;
    while let [module, after @ ..] = rest {
        add_symbols(routines, unit, 0, &module.symbols.list)?;
        unit += 1;
        rest = after;
    }
    Ok(())
}

/// The functions of the modules and of the built-in one, which is the last, in the order of the
/// text: the start, those of the modules, and the rest of the built-in module's.
pub fn routines<'a>(
    alloc: Global,
    modules: &'a [AModule],
    last: &'a AModule,
) -> Result<Vec<Routine<'a>>, NoMemory>
    requires count { length modules.now < 2 ^ 32 }
    requires small { All (λ m. length m.symbols < 2 ^ 32) modules.now }
    requires builtin { last.now ≡ builtin_module }
    ensures { IfOk result (λ routines. routines.items ≡ routines_of modules.now) }
{
    let mut routines = Vec::new(alloc);
    let unit = modules.len() as u32;
    if let [start, others @ ..] = last.symbols.list.as_slice() {
        let def = Def {
            module: unit,
            symbol: 0,
        };
        add_symbol(&mut routines, def, start)?;
        add_modules(&mut routines, modules)?;
        add_symbols(&mut routines, unit, 1, others)?;
    }
    Ok(routines)
}
