// The names in scope.
ghost use Rattle.std.specs.Prelude.{◌≡◌, [], ◌∷◌, OnOk};
ghost use Rattle.p9_grammar.specs.Scopes.{is_type, declare, outer, innermost};

use crate::{Level, Pile};
use p9_lang::Ident;
use std::alloc::{AllocError, Global};

/// The levels of names that are open.
#[derive(Drop)]
pub struct Scope {
    pub levels: Pile<Level>,
}

impl Scope {
    pub fn is_type(&self, name: &[u8]) -> bool
        ensures { result ≡ is_type self.now.levels name.now }
    {
        let mut rest = self.levels.as_slice();
        while let Some((level, before)) = rest.split_last() {
            if let Some(is_type) = level.kind(name) {
                return is_type;
            }
            rest = before;
        }
        false
    }

    pub fn enter(&mut self, level: Level) -> Result<(), AllocError>
        ensures { OnOk result (self.new.levels ≡ level ∷ self.old.levels) }
    {
        self.levels.push(level)
    }

    /// Ends the innermost level, and gives its names.
    pub fn leave(&mut self, alloc: Global) -> Level
        ensures names { result ≡ innermost self.old.levels }
        ensures others { self.new.levels ≡ outer self.old.levels }
    {
        match self.levels.pop() {
            Some(level) => level,
            None => Level::new(alloc),
        }
    }

    pub fn declare(&mut self, alloc: Global, name: Ident, is_type: bool) -> Result<(), AllocError>
        ensures { OnOk result (self.new.levels ≡ declare self.old.levels name is_type) }
    {
        let level = match self.levels.pop() {
            Some(level) => level,
            None => Level::new(alloc),
        };
        self.levels.push(level.declared(alloc, name, is_type)?)
    }
}
