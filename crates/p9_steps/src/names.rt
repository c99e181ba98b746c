// Names of symbols to look up, those of local ones apart from those of global ones.
ghost use Rattle.std.specs.Prelude.{◌≡◌, [], IfOk, OnOk, not};
ghost use Rattle.p9_steps.specs.Names.{has_name, Notes};

use p9_abs::Symbol;
use p9_base::{Name, NoMemory};
use std::alloc::Global;
use std::collections::HashSet;

/// The names that were seen.
#[derive(Drop)]
pub struct Names {
    pub locals: HashSet<Name>,
    pub globals: HashSet<Name>,
}

impl Names {
    /// No names.
    pub fn new(alloc: Global) -> Names
        ensures locals { result.locals.keys ≡ [] }
        ensures globals { result.globals.keys ≡ [] }
    {
        Names {
            locals: HashSet::new(alloc),
            globals: HashSet::new(alloc),
        }
    }

    /// Whether the name is among those of this binding.
    pub fn has(&self, local: bool, name: &Name) -> bool
        ensures { result ≡ has_name self.now.locals.keys self.now.globals.keys local name.now }
    {
        if local {
            self.locals.contains(name)
        } else {
            self.globals.contains(name)
        }
    }

    /// Notes the symbol's name, and tells whether it is new.
    pub fn note(&mut self, alloc: Global, symbol: &Symbol) -> Result<bool, NoMemory>
        ensures new { IfOk result (λ is_new.
            is_new ≡ not (has_name self.old.locals.keys self.old.globals.keys symbol.now.local symbol.now.name)) }
        ensures noted { OnOk result (
            Notes self.old.locals.keys self.old.globals.keys symbol.now self.new.locals.keys self.new.globals.keys) }
    {
        let name = symbol.name.copied(alloc)?;
        if symbol.local {
            Ok(self.locals.insert(name)?)
        } else {
            Ok(self.globals.insert(name)?)
        }
    }
}
