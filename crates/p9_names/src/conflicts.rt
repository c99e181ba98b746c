// Looking for a record that breaks a rule with a later one, and for a name's first definition.
ghost use Rattle.std.specs.Prelude.{◌≡◌, ◌<◌, ◌≤◌, ℕ, List, find, bytes_eq, OnOk, IfErr, IfSome, IsSome, None, Some};
ghost use Rattle.p9_abs.specs.Validity.{HasSizeInRange};
ghost use Rattle.p9_abs.specs.Names.{symbol_at};
ghost use Rattle.p9_names.specs.Passes.{ArePlaces, AreLinkable, HoldPlaces, StepFault, conflict_fault, breaks_at, meets, defines, held_at, held_breaks, put_entry};

use crate::places::Linked;
use crate::rules::{Rule, breaks, is_definition};
use crate::table::LinkFault;
use indexmap::IndexMap;
use p9_abs::{Def, Symbol};
use p9_base::{Name, NoMemory};
use std::alloc::Global;

// The first of the places whose record breaks the rule with the later one of the same name.
fn first_conflict(rule: Rule, linked: &Linked, seen: &[Def], late: &Symbol) -> Option<Def>
    requires places { ArePlaces linked.now seen.now }
    requires linkable { AreLinkable linked.now }
    requires late_sized { HasSizeInRange late.now.body }
    ensures { result ≡ find (meets rule linked.now late.now) seen.now }
{
    let mut rest = seen;
    while let [place, after @ ..] = rest {
        let early = linked.symbol(*place);
        if early.name == late.name && breaks(rule, early, late) {
            return Some(*place);
        }
        rest = after;
    }
    None
}

/// The first of the places where the name is defined.
pub(crate) fn first_definition(linked: &Linked, places: &[Def], name: &Name) -> Option<Def>
    requires { ArePlaces linked.now places.now }
    ensures { result ≡ find (defines linked.now name.now) places.now }
{
    let mut rest = places;
    while let [place, after @ ..] = rest {
        let symbol = linked.symbol(*place);
        if symbol.name == *name && is_definition(&symbol.body) {
            return Some(*place);
        }
        rest = after;
    }
    None
}

/// The place that the map holds for the name.
pub(crate) fn held(map: &IndexMap<Name, Def>, name: &Name) -> Option<Def>
    ensures { result ≡ held_at map.now.entries name.now }
{
    map.get(name).copied()
}

/// Holds the place for the name, in place of what was held.
pub(crate) fn put(
    alloc: Global,
    map: &mut IndexMap<Name, Def>,
    name: &Name,
    place: Def,
) -> Result<(), NoMemory>
    ensures { OnOk result (map.new.entries ≡ put_entry map.old.entries name.now place) }
{
    map.insert(name.copied(alloc)?, place)?;
    Ok(())
}

/// Whether the record that the map holds for the later one's name breaks the rule with it.
pub(crate) fn held_breaks(
    rule: Rule,
    linked: &Linked,
    map: &IndexMap<Name, Def>,
    late: &Symbol,
) -> bool
    requires held { HoldPlaces linked.now map.now.entries }
    requires linkable { AreLinkable linked.now }
    requires late_sized { HasSizeInRange late.now.body }
    ensures { result ≡ held_breaks rule linked.now map.now.entries late.now }
{
    match held(map, &late.name) {
        None => false,
        Some(place) => breaks(rule, linked.symbol(place), late),
    }
}

/// The fault of two records that break the rule.
fn fault(rule: Rule, name: Name, early: Def, late: Def) -> LinkFault
    ensures { result ≡ conflict_fault rule name early late }
{
    let i = early.module;
    let j = late.module;
    match rule {
        Rule::Once => LinkFault::Twice { name, i, j },
        Rule::Agreement => LinkFault::Disagree { name, i, j },
    }
}

/// Tells the first of the seen places that breaks the rule with this one.
#[tactic(auto, using(crate::proofs::Steps::conflict_found))]
pub(crate) fn refuse_conflict(
    alloc: Global,
    rule: Rule,
    linked: &Linked,
    seen: &[Def],
    place: Def,
    late: &Symbol,
) -> Result<(), LinkFault>
    requires places { ArePlaces linked.now seen.now }
    requires linkable { AreLinkable linked.now }
    requires stands { symbol_at linked.now place ≡ Some late.now }
    ensures ok { OnOk result (find (meets rule linked.now late.now) seen.now ≡ None) }
    ensures err { IfErr result (StepFault rule linked.now seen.now place) }
{
    match first_conflict(rule, linked, seen, late) {
        None => Ok(()),
        Some(early) => Err(fault(rule, late.name.copied(alloc)?, early, place)),
    }
}
