// The names of one level.
ghost use Rattle.std.specs.Prelude.{◌≡◌, [], ◌∷◌, reverse, IfOk};
ghost use Rattle.std.specs.Option.{option_copied};
ghost use Rattle.p9_lang.specs.Types.{type_of};
ghost use Rattle.p9_lang.specs.Scopes.{in_level};
ghost use Rattle.p9_lang.specs.Declaring.{retyped, declared_before};
ghost use Rattle.p9_scopes.specs.Seen.{declared_in, level_of, names_of};
ghost use Rattle.p9_scopes.specs.Newest.{latest_in};
ghost use Rattle.p9_scopes.specs.Retyping.{RetypesIf};

use crate::declared::Declared;
use crate::newest::{Latest, newest_place, next_place, note, noted};
use indexmap::IndexMap;
use p9_base::NoMemory;
use p9_lang::{CType, Ident};
use sqlite_items::at;
use std::alloc::Global;
use std::marker::Model;

/// The names that one level declares, which contracts see as a list, the newest first.
#[derive(Drop)]
pub struct NameLevel {
    list: Vec<Declared>,
    places: IndexMap<Vec<u8>, Latest>,
}

impl Model for NameLevel {
    ghost use Rattle.std.specs.Prelude.{List};
    ghost use Rattle.std.specs.Prelude.{reverse};
    ghost use Rattle.p9_scopes.specs.declared.declared.Declared.{Declared};
    ghost use Rattle.p9_scopes.specs.Seen.{names_of};
    ghost use Rattle.p9_scopes.specs.Newest.{Finds};
    ghost use Rattle.p9_lang.specs.contracts.types.CType as ctype;
    ghost use Rattle.std.specs.Coded.{codes};

    ghost Value = { List Declared };

    ghost coded = { Prim.hlevel (codes, ctype.the_row.coded) };

    ghost view = { λ l. reverse l.list.items };

    ghost invariant = { λ l. Finds l.places.entries (names_of (reverse l.list.items)) };
}

fn retype_at(list: &mut Vec<Declared>, place: Option<usize>, ty: CType)
    ensures { RetypesIf place ty list.old.items list.new.items }
{
    match place {
        Some(at) => {
            if at < list.len() {
                list[at].ty = ty;
            }
        }
        None => {}
    }
}

impl NameLevel {
    pub fn new(alloc: Global) -> NameLevel
        ensures { result ≡ [] }
    {
        NameLevel {
            list: Vec::new(alloc),
            places: IndexMap::new(alloc),
        }
    }

    fn place_of(&self, name: &Ident) -> Option<Latest>
        ensures { result ≡ latest_in name.now (names_of self.now) }
    {
        noted(&self.places, name.list.as_slice())
    }

    /// The newest declaration of a name.
    #[tactic(auto, using(crate::proofs::Levels::newest_found, crate::proofs::Levels::none_found))]
    pub fn newest(&self, name: &Ident) -> Option<&Declared>
        ensures { declared_in (option_copied result) ≡ in_level name.now (level_of self.now) }
    {
        match self.place_of(name) {
            Some(latest) => at(self.list.as_slice(), latest.at),
            None => None,
        }
    }

    /// The declaration of a name before the newest.
    #[tactic(auto, using(crate::proofs::Levels::before_found, crate::proofs::Levels::none_before_found, crate::proofs::Levels::no_name_before))]
    pub fn before_newest(&self, name: &Ident) -> Option<&Declared>
        ensures { declared_in (option_copied result) ≡ declared_before name.now (level_of self.now) }
    {
        match self.place_of(name) {
            Some(latest) => match latest.before {
                Some(before) => at(self.list.as_slice(), before),
                None => None,
            },
            None => None,
        }
    }

    /// The level with one declaration more.
    #[tactic(auto, using(crate::proofs::Levels::finds_declared))]
    pub fn declared(self, alloc: Global, more: Declared) -> Result<NameLevel, NoMemory>
        ensures { IfOk result (λ level. level ≡ more ∷ self) }
    {
        let NameLevel {
            mut list,
            mut places,
        } = self;
        let place = next_place(&places, more.name.list.as_slice(), list.len());
        let name = Vec::from_slice(alloc, more.name.list.as_slice())?;
        note(&mut places, name, place)?;
        list.push(more)?;
        Ok(NameLevel { list, places })
    }

    /// The level where the newest declaration of a name has another type.
    pub fn retyped(self, name: &Ident, ty: CType) -> NameLevel
        ensures { level_of result ≡ retyped name.now (type_of ty) (level_of self) }
    {
        let NameLevel { mut list, places } = self;
        let place = newest_place(&places, name.list.as_slice());
        retype_at(&mut list, place, ty);
        NameLevel { list, places }
    }

    /// The declarations, the oldest first.
    pub fn as_slice(&self) -> &[Declared]
        ensures { self.now ≡ reverse result.now }
    {
        self.list.as_slice()
    }
}
