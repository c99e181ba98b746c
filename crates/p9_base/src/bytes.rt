// Lists of bytes and of names, seen by contracts as lists.
ghost use Rattle.std.specs.Prelude.{◌≡◌, IfOk};

use std::alloc::{AllocError, AllocFailed, Global};
use std::hash::{Hash, Hasher};
use std::marker::Model;

/// A list of bytes.
#[derive(Debug, Drop)]
pub struct Bytes {
    pub list: Vec<u8>,
}

impl Model for Bytes {
    ghost use Rattle.std.specs.Prelude.{List, ℕ};

    ghost Value = { List ℕ };

    ghost view = { λ b. b.list.items };
}

impl PartialEq for Bytes {
    ghost use Rattle.std.specs.Str.{bytes_eq};
    ghost use Rattle.std.specs.Cmp.{partial_equiv_from_equiv};
    ghost use Rattle.std.specs.Cmp.Lexicographic.{nat_list_eq_equiv};

    ghost eq = { bytes_eq };

    ghost laws = { partial_equiv_from_equiv nat_list_eq_equiv };

    fn eq(&self, other: &Bytes) -> bool {
        self.list.as_slice() == other.list.as_slice()
    }
}

impl Eq for Bytes {
    ghost use Rattle.std.specs.Cmp.Lexicographic.{nat_list_eq_equiv};

    ghost laws = { nat_list_eq_equiv };
}

impl Hash for Bytes {
    ghost use Rattle.std.specs.Prelude.{[], ◌∷◌};
    ghost use Rattle.std.specs.Cmp.Lexicographic.{bytes_decides};
    ghost use Rattle.std.proofs.Common.{ap};

    ghost hash_input = { λ b. b ∷ [] };

    ghost respects_eq = { λ x y h. ap (λ b. b ∷ []) ((bytes_decides x y).0 h) };

    fn hash<H: Hasher>(&self, state: &mut H) {
        state.write(self.list.as_slice());
    }
}

impl Bytes {
    /// Another list with the same bytes.
    pub fn copied(&self, alloc: Global) -> Result<Bytes, NoMemory>
        ensures { IfOk result (λ copy. copy ≡ self.now) }
    {
        Ok(Bytes {
            list: self.list.to_vec(alloc)?,
        })
    }
}

/// A name of a file, a symbol or a command's word.
pub type Name = Bytes;

/// The words of a command line, without the program's own name.
#[derive(Drop)]
pub struct Words {
    pub list: Vec<Bytes>,
}

impl Model for Words {
    ghost use Rattle.std.specs.Prelude.{List, ℕ};

    ghost Value = { List (List ℕ) };

    ghost view = { λ w. w.list.items };
}

/// Numbers of calls, counted from 0, that are to fail.
#[derive(Drop)]
pub struct Calls {
    pub list: Vec<u64>,
}

impl Model for Calls {
    ghost use Rattle.std.specs.Prelude.{List, ℕ};

    ghost Value = { List ℕ };

    ghost view = { λ c. c.list.items };
}

/// A file in memory.
#[derive(Drop)]
pub struct Entry {
    pub name: Name,
    pub bytes: Bytes,
}

/// Memory ran out.
#[derive(Clone, Copy, Debug, PartialEq, Eq, Drop)]
pub struct NoMemory;

impl From<AllocError> for NoMemory {
    fn from(_: AllocError) -> NoMemory {
        NoMemory
    }
}

impl<T: Drop> From<AllocFailed<T>> for NoMemory {
    fn from(_: AllocFailed<T>) -> NoMemory {
        NoMemory
    }
}
