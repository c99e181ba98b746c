// The first pass: which definition each name has, and which names are defined twice.
ghost use Rattle.std.specs.Prelude.{◌≡◌, ◌≤◌, ℕ, List, OnOk, IfOk, IfErr, IsSome, ◌++◌, ◌∷◌, []};
ghost use Rattle.p9_names.specs.declared.rules.Rule.TheVariants.{Once};
ghost use Rattle.p9_abs.specs.Names.{symbol_at};
ghost use Rattle.p9_names.specs.Linking.{IsKept, IsTable};
ghost use Rattle.p9_names.specs.Answers.{IsRefusal};
ghost use Rattle.p9_names.specs.Passes.{ArePlaces, AreLinkable, HoldPlaces, Defining, StepFault, takes_place, globals_of, IsTwice};

use crate::conflicts::{held, held_breaks, put, refuse_conflict};
use crate::places::Linked;
use crate::rules::{Rule, is_definition, is_full};
use crate::table::LinkFault;
use indexmap::IndexMap;
use p9_abs::{Def, Symbol};
use p9_base::Name;
use std::alloc::Global;

// Whether the record takes its name's place in the map.
fn takes_place(defs: &IndexMap<Name, Def>, symbol: &Symbol) -> bool
    ensures { result ≡ takes_place defs.now.entries symbol.now }
{
    is_definition(&symbol.body) && (is_full(&symbol.body) || held(defs, &symbol.name).is_none())
}

// Notes the record at a place, after those at the seen places.
fn define(
    alloc: Global,
    defs: &mut IndexMap<Name, Def>,
    linked: &Linked,
    seen: &[Def],
    place: Def,
) -> Result<(), LinkFault>
    requires places { ArePlaces linked.now seen.now }
    requires stands { IsSome (symbol_at linked.now place) }
    requires held { HoldPlaces linked.now defs.old.entries }
    requires linkable { AreLinkable linked.now }
    ensures ok { OnOk result (Defining linked.now seen.now place defs.old.entries defs.new.entries) }
    ensures err { IfErr result (StepFault Once linked.now seen.now place) }
{
    let symbol = linked.symbol(place);
    if held_breaks(Rule::Once, linked, defs, symbol) {
        refuse_conflict(alloc, Rule::Once, linked, seen, place, symbol)?;
    }
    if takes_place(defs, symbol) {
        put(alloc, defs, &symbol.name, place)?;
    }
    Ok(())
}

/// The definition that each name has, where none is defined twice.
pub(crate) fn definitions(
    alloc: Global,
    linked: &Linked,
    globals: &[Def],
) -> Result<IndexMap<Name, Def>, LinkFault>
    requires listed { globals.now ≡ globals_of linked.now }
    requires linkable { AreLinkable linked.now }
    ensures once { IfOk result (λ _. IsKept Once linked.now) }
    ensures table { IfOk result (λ defs. IsTable linked.now defs.entries) }
    ensures err { IfErr result (IsTwice linked.now) }
{
    let mut defs = IndexMap::new(alloc);
    for at in 0..globals.len() {
        let place = globals[at];
        let seen = &globals[..at];
        define(alloc, &mut defs, linked, seen, place)?;
    }
    Ok(defs)
}
