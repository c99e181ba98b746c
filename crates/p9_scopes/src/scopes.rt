// The levels of names.
ghost use Rattle.std.specs.Prelude.{◌≡◌, ◌∷◌, reverse, OnOk};
ghost use Rattle.std.specs.Option.{option_copied};
ghost use Rattle.p9_lang.specs.Types.{type_of};
ghost use Rattle.p9_lang.specs.Scopes.{innermost, around, is_file_level, in_level, in_levels, declare, open_level, close_level, open_block, close_block};
ghost use Rattle.p9_lang.specs.Declaring.{retyped, declared_before};
ghost use Rattle.p9_scopes.specs.Seen.{declared_of, declared_in, level_of, levels_of};
ghost use Rattle.p9_scopes.specs.State.{known_of};

use crate::declared::Declared;
use crate::known::Known;
use crate::level::NameLevel;
use crate::tag_level::TagLevel;
use p9_base::NoMemory;
use p9_lang::{CType, Ident};
use std::alloc::Global;

/// The newest declaration of a name at the innermost level that has one.
#[tactic(auto, using(crate::proofs::Searching::found_innermost, crate::proofs::Searching::found_around))]
fn find_in<'a>(levels: &'a [NameLevel], name: &Ident) -> Option<&'a Declared>
    ensures { declared_in (option_copied result) ≡ in_levels name.now (levels_of (reverse levels.now)) }
{
    let mut rest = levels;
    'levels: while let Some((level, before)) = rest.split_last() {
        if let Some(declared) = level.newest(name) {
            return Some(declared);
        }
        rest = before;
    }
    None
}

impl Known {
    /// Whether the file's level alone is open.
    pub fn is_file_level(&self) -> bool
        ensures { result ≡ is_file_level (known_of self.now).names }
    {
        self.names.as_slice().len() <= 1
    }

    /// What a name is declared as.
    pub fn find(&self, name: &Ident) -> Option<&Declared>
        ensures { declared_in (option_copied result) ≡ in_levels name.now (known_of self.now).names }
    {
        find_in(self.names.as_slice(), name)
    }

    /// What a name is declared as at the innermost level.
    pub fn find_innermost(&self, name: &Ident) -> Option<&Declared>
        ensures { declared_in (option_copied result) ≡ in_level name.now (innermost (known_of self.now).names) }
    {
        match self.names.as_slice().split_last() {
            Some((level, _)) => level.newest(name),
            None => None,
        }
    }

    /// The declaration of a name at the innermost level before the newest one.
    pub fn find_before(&self, name: &Ident) -> Option<&Declared>
        ensures { declared_in (option_copied result) ≡ declared_before name.now (innermost (known_of self.now).names) }
    {
        match self.names.as_slice().split_last() {
            Some((level, _)) => level.before_newest(name),
            None => None,
        }
    }

    fn take_level(&mut self, alloc: Global) -> NameLevel
        ensures level { level_of result ≡ innermost (known_of self.old).names }
        ensures rest { known_of self.new ≡ close_level (known_of self.old) }
    {
        match self.names.pop() {
            Some(level) => level,
            None => NameLevel::new(alloc),
        }
    }

    /// One name more at the innermost level.
    pub fn declare(&mut self, alloc: Global, more: Declared) -> Result<(), NoMemory>
        ensures { OnOk result (known_of self.new ≡ declare (declared_of more) (known_of self.old)) }
    {
        let level = self.take_level(alloc);
        self.names.push(level.declared(alloc, more)?)?;
        Ok(())
    }

    /// The newest declaration of a name at the innermost level has another type.
    pub fn retype(&mut self, alloc: Global, name: &Ident, ty: CType) -> Result<(), NoMemory>
        ensures { OnOk result (known_of self.new ≡ record (known_of self.old) {
          names = retyped name.now (type_of ty) (innermost (known_of self.old).names) ∷ around (known_of self.old).names;
        }) }
    {
        let level = self.take_level(alloc);
        self.names.push(level.retyped(name, ty))?;
        Ok(())
    }

    /// A level inside the others, with these names.
    pub fn open_level(&mut self, level: NameLevel) -> Result<(), NoMemory>
        ensures { OnOk result (known_of self.new ≡ open_level (level_of level) (known_of self.old)) }
    {
        self.names.push(level)?;
        Ok(())
    }

    /// The innermost level ends. The answer is what it had.
    pub fn close_level(&mut self, alloc: Global) -> NameLevel
        ensures level { level_of result ≡ innermost (known_of self.old).names }
        ensures rest { known_of self.new ≡ close_level (known_of self.old) }
    {
        self.take_level(alloc)
    }

    /// A level of names and one of tags.
    pub fn open_block(&mut self, alloc: Global) -> Result<(), NoMemory>
        ensures { OnOk result (known_of self.new ≡ open_block (known_of self.old)) }
    {
        self.names.push(NameLevel::new(alloc))?;
        self.tag_names.push(TagLevel::new(alloc))?;
        Ok(())
    }

    /// The innermost level of names ends, and that of tags.
    pub fn close_block(&mut self)
        ensures { known_of self.new ≡ close_block (known_of self.old) }
    {
        let _names = self.names.pop();
        let _tags = self.tag_names.pop();
    }
}
