// The structures and unions at one level within another.
ghost use Rattle.std.specs.Prelude.{◌≡◌, ◌||◌, [], ℕ, false, nat_eq, OnOk, IfOk};
ghost use Rattle.std.specs.Map.{lookup};
ghost use Rattle.p9_types.specs.Levels.{Adds};
ghost use Rattle.p9_types.specs.Standings.{copies_of, spread, spread_entries, stands_in, place_with, met_by};

use indexmap::IndexMap;
use p9_base::NoMemory;
use std::alloc::Global;
use std::collections::HashSet;

/// A structure or union at a level: its number, where it begins in the whole, told as sizes are, and
/// whether it stands there at several places, of which `offset` is the first.
#[derive(Clone, Copy)]
pub(crate) struct Standing {
    pub(crate) tag: u32,
    pub(crate) offset: u32,
    pub(crate) several: bool,
}

// Where one begins, and whether there are several.
#[derive(Clone, Copy)]
struct Place {
    offset: u32,
    several: bool,
}

/// Structures and unions that an earlier level has.
#[derive(Drop)]
pub(crate) struct MetTags {
    set: HashSet<u32>,
}

impl MetTags {
    pub(crate) fn new(alloc: Global) -> MetTags
        ensures { (i : ℕ) → met_by result i ≡ false }
    {
        MetTags {
            set: HashSet::new(alloc),
        }
    }

    pub(crate) fn has(&self, tag: u32) -> bool
        ensures { result ≡ met_by self.now tag }
    {
        self.set.contains(&tag)
    }

    fn meet(&mut self, tag: u32) -> Result<(), NoMemory>
        ensures { OnOk result ((i : ℕ) → met_by self.new i
            ≡ (nat_eq tag i || met_by self.old i)) }
    {
        self.set.insert(tag)?;
        Ok(())
    }

    pub(crate) fn meet_all(&mut self, level: &[Standing]) -> Result<(), NoMemory>
        ensures { OnOk result ((i : ℕ) → met_by self.new i
            ≡ (stands_in i level.now || met_by self.old i)) }
    {
        let mut rest = level;
        'standings: while let [standing, after @ ..] = rest {
            self.meet(standing.tag)?;
            rest = after;
        }
        Ok(())
    }
}

/// A level that is being made.
#[derive(Drop)]
pub(crate) struct NextLevel {
    places: IndexMap<u32, Place>,
}

impl NextLevel {
    pub(crate) fn new(alloc: Global) -> NextLevel
        ensures { result.places.entries ≡ [] }
    {
        NextLevel {
            places: IndexMap::new(alloc),
        }
    }

    // The place of a structure with one standing more.
    fn place_with(&self, standing: Standing) -> Place
        ensures { result ≡ place_with (lookup (nat_eq standing.tag) self.now.places.entries) standing }
    {
        match self.places.get(&standing.tag) {
            Some(place) => Place {
                offset: place.offset,
                several: true,
            },
            None => Place {
                offset: standing.offset,
                several: standing.several,
            },
        }
    }

    /// Adds a structure or union.
    pub(crate) fn add(&mut self, standing: Standing) -> Result<(), NoMemory>
        ensures { OnOk result (Adds (spread_entries self.old.places.entries)
            (copies_of standing) (spread_entries self.new.places.entries)) }
    {
        let place = self.place_with(standing);
        self.places.insert(standing.tag, place)?;
        Ok(())
    }

    /// The standings, in any order.
    pub(crate) fn into_standings(mut self, alloc: Global) -> Result<Vec<Standing>, NoMemory>
        ensures { IfOk result (λ standings.
            Adds [] (spread_entries self.places.entries) (spread standings.items)) }
    {
        let mut standings = Vec::new(alloc);
        'places: while let Some((tag, place)) = self.places.pop() {
            standings.push(Standing {
                tag,
                offset: place.offset,
                several: place.several,
            })?;
        }
        Ok(standings)
    }
}
