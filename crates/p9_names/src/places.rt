// The modules that are linked, and the places of their symbols.
ghost use Rattle.std.specs.Prelude.{◌≡◌, ◌<◌, ◌≤◌, ◌+◌, ◌++◌, ◌∷◌, ◌^◌, [], ℕ, List, Some, IsSome, OnOk, IfOk, All, length, slice_get, drop};
ghost use Rattle.p9_abs.specs.declared.modules.AModule.{AModule};
ghost use Rattle.p9_abs.specs.Names.{symbol_at};
ghost use Rattle.p9_names.specs.Passes.{is_global, places_in, places_from, globals_of};

use p9_abs::{AModule, Def, Symbol};
use p9_base::NoMemory;
use std::alloc::Global;
use std::marker::Model;

/// The modules that are linked: those that are given, and one more as the last.
#[derive(Drop)]
pub(crate) struct Linked<'a> {
    modules: &'a [AModule],
    last: &'a AModule,
}

impl<'a> Model for Linked<'a> {
    ghost use Rattle.std.specs.Prelude.{List, ◌++◌, ◌∷◌, []};
    ghost use Rattle.p9_abs.specs.declared.modules.AModule.{AModule};

    ghost Value = { List AModule };

    ghost view = { λ l. l.modules.now ++ l.last.now ∷ [] };
}

impl<'a> Linked<'a> {
    pub(crate) fn new(modules: &'a [AModule], last: &'a AModule) -> Self
        ensures { result ≡ modules.now ++ last.now ∷ [] }
    {
        Linked { modules, last }
    }

    pub(crate) fn len(&self) -> usize
        ensures { result ≡ length self.now }
    {
        self.modules.len() + 1
    }

    pub(crate) fn module(&self, i: usize) -> &'a AModule
        requires { i < length self.now }
        ensures { slice_get self.now i ≡ Some result.now }
    {
        if i < self.modules.len() {
            &self.modules[i]
        } else {
            self.last
        }
    }

    pub(crate) fn symbol(&self, place: Def) -> &'a Symbol
        requires { IsSome (symbol_at self.now place) }
        ensures { symbol_at self.now place ≡ Some result.now }
    {
        let module = self.module(place.module as usize);
        &module.symbols.list[place.symbol as usize]
    }
}

// Adds the places of a module's global symbols.
fn add_globals(places: &mut Vec<Def>, number: u32, symbols: &[Symbol]) -> Result<(), NoMemory>
    requires { length symbols.now < 2 ^ 32 }
    ensures { OnOk result (places.new.items ≡ places.old.items ++ places_in (is_global symbols.now) number 0 symbols.now) }
{
    let mut next = 0;
    let mut rest = symbols;
    while let [symbol, after @ ..] = rest {
        if !symbol.local {
            places.push(Def {
                module: number,
                symbol: next,
            })?;
        }
        next += 1;
        rest = after;
    }
    Ok(())
}

/// The places of all global symbols, in order.
pub(crate) fn globals(alloc: Global, linked: &Linked) -> Result<Vec<Def>, NoMemory>
    requires count { length linked.now ≤ 2 ^ 32 }
    requires small { All (λ m. length m.symbols < 2 ^ 32) linked.now }
    ensures { IfOk result (λ places. places.items ≡ globals_of linked.now) }
{
    let mut places = Vec::new(alloc);
    for i in 0..linked.len() {
        let module = linked.module(i);
        add_globals(&mut places, i as u32, &module.symbols.list)?;
    }
    Ok(places)
}
