// The last pass: whether all records of a name agree.
ghost use Rattle.std.specs.Prelude.{◌≡◌, ◌≤◌, ℕ, List, OnOk, IfOk, IfErr, IsSome, is_some, not, ◌&&◌};
ghost use Rattle.p9_names.specs.declared.rules.Rule.TheVariants.{Agreement};
ghost use Rattle.p9_abs.specs.Names.{symbol_at};
ghost use Rattle.p9_names.specs.Linking.{IsKept};
ghost use Rattle.p9_names.specs.Passes.{ArePlaces, AreLinkable, HoldPlaces, Comparing, StepFault, has_size, note_first, globals_of, IsDisagreement};

use crate::conflicts::{held, held_breaks, put, refuse_conflict};
use crate::places::Linked;
use crate::rules::Rule;
use crate::table::LinkFault;
use indexmap::IndexMap;
use p9_abs::{Body, Def, Symbol};
use p9_base::{Name, NoMemory};
use std::alloc::Global;

// For each name a record with a signature, and a data or common definition.
#[derive(Drop)]
struct Noted {
    signed: IndexMap<Name, Def>,
    sized: IndexMap<Name, Def>,
}

fn has_size(symbol: &Symbol) -> bool
    ensures { result ≡ has_size symbol.now }
{
    match &symbol.body {
        Body::Data(_) | Body::Common(_) => true,
        _ => false,
    }
}

// Notes the place of a wanted record that is the first of its name.
fn note(
    alloc: Global,
    map: &mut IndexMap<Name, Def>,
    wanted: bool,
    name: &Name,
    place: Def,
) -> Result<(), NoMemory>
    ensures { OnOk result (map.new.entries ≡ note_first wanted map.old.entries name.now place) }
{
    if wanted && held(map, name).is_none() {
        put(alloc, map, name, place)?;
    }
    Ok(())
}

// Compares the record at a place with those at the seen places.
fn compare(
    alloc: Global,
    noted: &mut Noted,
    linked: &Linked,
    seen: &[Def],
    place: Def,
) -> Result<(), LinkFault>
    requires places { ArePlaces linked.now seen.now }
    requires stands { IsSome (symbol_at linked.now place) }
    requires signed { HoldPlaces linked.now noted.old.signed.entries }
    requires sized { HoldPlaces linked.now noted.old.sized.entries }
    requires linkable { AreLinkable linked.now }
    ensures ok { OnOk result (Comparing linked.now seen.now place noted.old.signed.entries noted.old.sized.entries noted.new.signed.entries noted.new.sized.entries) }
    ensures err { IfErr result (StepFault Agreement linked.now seen.now place) }
{
    let symbol = linked.symbol(place);
    if held_breaks(Rule::Agreement, linked, &noted.signed, symbol)
        || held_breaks(Rule::Agreement, linked, &noted.sized, symbol)
    {
        refuse_conflict(alloc, Rule::Agreement, linked, seen, place, symbol)?;
    }
    note(
        alloc,
        &mut noted.signed,
        !symbol.sig.list.is_empty(),
        &symbol.name,
        place,
    )?;
    note(
        alloc,
        &mut noted.sized,
        has_size(symbol),
        &symbol.name,
        place,
    )?;
    Ok(())
}

/// Tells the first two records of a name that disagree.
pub(crate) fn check_agreement(
    alloc: Global,
    linked: &Linked,
    globals: &[Def],
) -> Result<(), LinkFault>
    requires listed { globals.now ≡ globals_of linked.now }
    requires linkable { AreLinkable linked.now }
    ensures agree { OnOk result (IsKept Agreement linked.now) }
    ensures err { IfErr result (IsDisagreement linked.now) }
{
    let mut noted = Noted {
        signed: IndexMap::new(alloc),
        sized: IndexMap::new(alloc),
    };
    for at in 0..globals.len() {
        let place = globals[at];
        let seen = &globals[..at];
        compare(alloc, &mut noted, linked, seen, place)?;
    }
    Ok(())
}
