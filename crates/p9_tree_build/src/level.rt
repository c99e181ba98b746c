// The names of one level, and of all levels that are open.
ghost use Rattle.std.specs.Prelude.{◌≡◌, ℕ, [], ◌∷◌, List, OnOk, IfOk, if◌then◌else◌, Some, bytes_eq, Bool, unwrap_or};
ghost use Rattle.p9_grammar.specs.Scopes.{is_type_in};
ghost use Rattle.p9_tree_build.specs.Names.{held};

use crate::Pile;
use indexmap::IndexMap;
use p9_grammar::ScopeName;
use p9_lang::Ident;
use std::alloc::{AllocError, Global};
use std::marker::Model;

fn note(kinds: &mut IndexMap<Vec<u8>, bool>, name: Vec<u8>, is_type: bool) -> Result<(), AllocError>
    ensures { OnOk result ((q : List ℕ) → held kinds.new.entries q ≡ (if bytes_eq q name.items then Some is_type else held kinds.old.entries q)) }
{
    kinds.insert(name, is_type)?;
    Ok(())
}

fn noted(kinds: &IndexMap<Vec<u8>, bool>, name: &[u8]) -> Option<bool>
    ensures { result ≡ held kinds.now.entries name.now }
{
    kinds.get(name).copied()
}

/// The names that one level declares, which contracts see as a list, the newest first.
#[derive(Drop)]
pub struct Level {
    names: Pile<ScopeName>,
    kinds: IndexMap<Vec<u8>, bool>,
}

impl Model for Level {
    ghost use Rattle.std.specs.Prelude.{List};
    ghost use Rattle.p9_grammar.specs.declared.scope.ScopeName.{ScopeName};
    ghost use Rattle.p9_tree_build.specs.Names.{Knows};

    ghost Value = { List ScopeName };

    ghost view = { λ l. l.names };

    ghost invariant = { λ l. Knows l.kinds.entries l.names };
}

impl Level {
    pub fn new(alloc: Global) -> Level
        ensures { result ≡ [] }
    {
        Level {
            names: Pile::new(alloc),
            kinds: IndexMap::new(alloc),
        }
    }

    /// Whether the name is a type, if the level declares it.
    pub fn kind(&self, name: &[u8]) -> Option<bool>
        ensures { (outside : Bool) → is_type_in self.now name.now outside ≡ unwrap_or result outside }
    {
        noted(&self.kinds, name)
    }

    pub fn declared(self, alloc: Global, name: Ident, is_type: bool) -> Result<Level, AllocError>
        ensures { IfOk result (λ level. level ≡ record { name = name; is_type = is_type } ∷ self) }
    {
        let Level {
            mut names,
            mut kinds,
        } = self;
        note(
            &mut kinds,
            Vec::from_slice(alloc, name.list.as_slice())?,
            is_type,
        )?;
        names.push(ScopeName { name, is_type })?;
        Ok(Level { names, kinds })
    }

    /// Another level with the same names.
    pub fn copied(&self, alloc: Global) -> Result<Level, AllocError>
        ensures { IfOk result (λ copy. copy ≡ self.now) }
    {
        let mut copy = Level::new(alloc);
        for declared in self.names.as_slice() {
            copy = copy.declared(alloc, declared.name.copied(alloc)?, declared.is_type)?;
        }
        Ok(copy)
    }
}
