// The tags of one level.
ghost use Rattle.std.specs.Prelude.{◌≡◌, [], ◌∷◌, reverse, IfOk};
ghost use Rattle.std.specs.Option.{option_copied};
ghost use Rattle.p9_lang.specs.Scopes.{tag_in_level};
ghost use Rattle.p9_scopes.specs.Newest.{latest_in};
ghost use Rattle.p9_scopes.specs.Seen.{tag_in, tag_level_of, tag_names_of};

use crate::newest::{Latest, next_place, note, noted};
use crate::tag::TagName;
use indexmap::IndexMap;
use p9_base::NoMemory;
use p9_lang::Ident;
use sqlite_items::at;
use std::alloc::Global;
use std::marker::Model;

/// The tags that one level declares, which contracts see as a list, the newest first.
#[derive(Drop)]
pub struct TagLevel {
    list: Vec<TagName>,
    places: IndexMap<Vec<u8>, Latest>,
}

impl Model for TagLevel {
    ghost use Rattle.std.specs.Prelude.{List};
    ghost use Rattle.std.specs.Prelude.{reverse};
    ghost use Rattle.p9_scopes.specs.declared.tag.TagName.{TagName};
    ghost use Rattle.p9_scopes.specs.Seen.{tag_names_of};
    ghost use Rattle.p9_scopes.specs.Newest.{Finds};

    ghost Value = { List TagName };

    ghost view = { λ l. reverse l.list.items };

    ghost invariant = { λ l. Finds l.places.entries (tag_names_of (reverse l.list.items)) };
}

impl TagLevel {
    pub(crate) fn new(alloc: Global) -> TagLevel
        ensures { result ≡ [] }
    {
        TagLevel {
            list: Vec::new(alloc),
            places: IndexMap::new(alloc),
        }
    }

    fn place_of(&self, name: &Ident) -> Option<Latest>
        ensures { result ≡ latest_in name.now (tag_names_of self.now) }
    {
        noted(&self.places, name.list.as_slice())
    }

    /// The newest tag of a name.
    #[tactic(auto, using(crate::proofs::Levels::newest_tag, crate::proofs::Levels::no_tag))]
    pub(crate) fn newest(&self, name: &Ident) -> Option<&TagName>
        ensures { tag_in (option_copied result) ≡ tag_in_level name.now (tag_level_of self.now) }
    {
        match self.place_of(name) {
            Some(latest) => at(self.list.as_slice(), latest.at),
            None => None,
        }
    }

    /// The level with one tag more.
    #[tactic(auto, using(crate::proofs::Levels::finds_tag))]
    pub(crate) fn declared(self, alloc: Global, more: TagName) -> Result<TagLevel, NoMemory>
        ensures { IfOk result (λ level. level ≡ more ∷ self) }
    {
        let TagLevel {
            mut list,
            mut places,
        } = self;
        let place = next_place(&places, more.name.list.as_slice(), list.len());
        let name = Vec::from_slice(alloc, more.name.list.as_slice())?;
        note(&mut places, name, place)?;
        list.push(more)?;
        Ok(TagLevel { list, places })
    }

    /// The tags, the oldest first.
    pub fn as_slice(&self) -> &[TagName]
        ensures { self.now ≡ reverse result.now }
    {
        self.list.as_slice()
    }
}
