// The modules that are linked, and their symbols.
ghost use Rattle.std.specs.Prelude.{◌≡◌, ◌++◌, ◌∷◌, [], slice_get};
ghost use Rattle.std.specs.Option.{option_copied};
ghost use Rattle.p9_abs.specs.Names.{symbol_at};

use p9_abs::{AModule, Def, Symbol};
use std::marker::Model;

/// The modules that are linked: those that are given, and one more as the last.
#[derive(Drop)]
pub struct Program<'a> {
    modules: &'a [AModule],
    last: &'a AModule,
}

impl<'a> Model for Program<'a> {
    ghost use Rattle.std.specs.Prelude.{List, ◌++◌, ◌∷◌, []};
    ghost use Rattle.p9_abs.specs.declared.modules.AModule.{AModule};

    ghost Value = { List AModule };

    ghost view = { λ p. p.modules.now ++ p.last.now ∷ [] };
}

impl<'a> Program<'a> {
    pub fn new(modules: &'a [AModule], last: &'a AModule) -> Self
        ensures { result ≡ modules.now ++ last.now ∷ [] }
    {
        Program { modules, last }
    }

    fn module(&self, unit: usize) -> Option<&'a AModule>
        ensures { option_copied result ≡ slice_get self.now unit }
    {
        if unit < self.modules.len() {
            Some(&self.modules[unit])
        } else if unit == self.modules.len() {
            Some(self.last)
        } else {
            None
        }
    }

    /// The symbol's record, where there is one.
    pub fn symbol(&self, def: Def) -> Option<&'a Symbol>
        ensures { option_copied result ≡ symbol_at self.now def }
    {
        match self.module(def.module as usize) {
            None => None,
            Some(module) => module.symbols.list.get(def.symbol as usize),
        }
    }
}
