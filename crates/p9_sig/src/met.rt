// The tags that a text has met.
ghost use Rattle.std.specs.Prelude.{◌≡◌, ◌∷◌, ◌++◌, [], IfOk, if◌then◌else◌, not};
ghost use Rattle.p9_lang.specs.Names.{is_among};

use indexmap::IndexSet;
use p9_base::{Name, NoMemory};
use p9_lang::Ident;
use std::alloc::Global;
use std::marker::Model;

/// Names of tags in the order in which they were met.
#[derive(Drop)]
pub(crate) struct MetTags {
    names: IndexSet<Name>,
}

impl Model for MetTags {
    ghost use Rattle.std.specs.Prelude.{List, ℕ};

    ghost Value = { List (List ℕ) };

    ghost view = { λ m. m.names.keys };
}

impl MetTags {
    pub(crate) fn new(alloc: Global) -> MetTags
        ensures { result ≡ [] }
    {
        MetTags {
            names: IndexSet::new(alloc),
        }
    }

    /// Meets a tag. The answer is whether that is for the first time.
    pub(crate) fn meet(&mut self, alloc: Global, name: &Ident) -> Result<bool, NoMemory>
        ensures first { IfOk result (λ first. first ≡ not (is_among self.old name.now)) }
        ensures met { IfOk result (λ first.
            self.new ≡ (if first then self.old ++ name.now ∷ [] else self.old)) }
    {
        let name = Name {
            list: Vec::from_slice(alloc, name.list.as_slice())?,
        };
        let first = self.names.insert(name)?;
        Ok(first)
    }
}
