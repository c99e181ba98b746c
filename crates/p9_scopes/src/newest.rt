// Where the newest of each name stands in a list.
ghost use Rattle.std.specs.Prelude.{◌≡◌, ℕ, List, OnOk, if◌then◌else◌, Some, bytes_eq};
ghost use Rattle.p9_scopes.specs.Newest.{held, older};

use indexmap::IndexMap;
use p9_base::NoMemory;

/// Where the newest of a name stands, counted from the oldest, and the one of that name before it.
#[derive(Clone, Copy)]
pub(crate) struct Latest {
    pub(crate) at: usize,
    pub(crate) before: Option<usize>,
}

pub(crate) fn note(
    places: &mut IndexMap<Vec<u8>, Latest>,
    name: Vec<u8>,
    latest: Latest,
) -> Result<(), NoMemory>
    ensures { OnOk result ((q : List ℕ) → held places.new.entries q
        ≡ (if bytes_eq q name.items then Some latest else held places.old.entries q)) }
{
    places.insert(name, latest)?;
    Ok(())
}

pub(crate) fn noted(places: &IndexMap<Vec<u8>, Latest>, name: &[u8]) -> Option<Latest>
    ensures { result ≡ held places.now.entries name.now }
{
    places.get(name).copied()
}

pub(crate) fn newest_place(places: &IndexMap<Vec<u8>, Latest>, name: &[u8]) -> Option<usize>
    ensures { result ≡ older (held places.now.entries name.now) }
{
    match noted(places, name) {
        Some(latest) => Some(latest.at),
        None => None,
    }
}

/// Where one more of a name stands, behind so many.
pub(crate) fn next_place(places: &IndexMap<Vec<u8>, Latest>, name: &[u8], count: usize) -> Latest
    ensures { result ≡ record { at = count; before = older (held places.now.entries name.now) } }
{
    Latest {
        at: count,
        before: newest_place(places, name),
    }
}
