// Places of variables by their names.
ghost use Rattle.std.specs.Prelude.{◌≡◌, OnOk, IfOk, not, is_some};
ghost use Rattle.p9_straight.specs.Building.{held, place_at, noted};

use indexmap::IndexMap;
use p9_base::{Name, NoMemory};
use std::alloc::Global;

// The place that is held for the name.
fn held(places: &IndexMap<Name, u32>, name: &Name) -> Option<u32>
    ensures { result ≡ held places.now.entries name.now }
{
    places.get(name).copied()
}

/// The place of the name, or 0 where none is held.
pub(crate) fn place_of(places: &IndexMap<Name, u32>, name: &Name) -> u32
    ensures { result ≡ place_at places.now.entries name.now }
{
    held(places, name).unwrap_or(0)
}

/// Notes a place for a name that has none yet, and tells whether it did.
pub(crate) fn note(
    alloc: Global,
    places: &mut IndexMap<Name, u32>,
    name: &Name,
    at: u32,
) -> Result<bool, NoMemory>
    ensures entries { OnOk result (places.new.entries ≡ noted places.old.entries name.now at) }
    ensures is_new { IfOk result (λ added. added ≡ not (is_some (held places.old.entries name.now))) }
{
    if held(places, name).is_some() {
        return Ok(false);
    }
    places.insert(name.copied(alloc)?, at)?;
    Ok(true)
}
