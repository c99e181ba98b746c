// Sets of names.
ghost use Rattle.std.specs.Prelude.{◌≡◌, ◌||◌, ℕ, List, [], false, OnOk, bytes_eq};
ghost use Rattle.p9_lang.specs.Names.{same_name};
ghost use Rattle.p9_outline.specs.Held.{has_name};

use indexmap::IndexSet;
use p9_base::NoMemory;
use std::alloc::Global;

/// A set of names.
#[derive(Drop)]
pub(crate) struct NameSet<'a> {
    pub(crate) set: IndexSet<&'a [u8]>,
}

impl<'a> NameSet<'a> {
    pub(crate) fn new(alloc: Global) -> NameSet<'a>
        ensures { result.set.keys ≡ [] }
    {
        NameSet {
            set: IndexSet::new(alloc),
        }
    }

    pub(crate) fn has(&self, name: &[u8]) -> bool
        ensures { result ≡ has_name self.now.set.keys name.now }
    {
        self.set.contains(name)
    }

    pub(crate) fn add(&mut self, name: &'a [u8]) -> Result<(), NoMemory>
        ensures { OnOk result ((q : List ℕ) → has_name self.new.set.keys q
            ≡ (has_name self.old.set.keys q || same_name q name.now)) }
    {
        self.set.insert(name)?;
        Ok(())
    }
}
