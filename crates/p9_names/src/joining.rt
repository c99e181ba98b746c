// Joining modules with the built-in one.
ghost use Rattle.std.specs.Prelude.{◌≡◌, ◌≢◌, ◌⊎◌, ◌<◌, ◌^◌, All, length, Err, IsOk, OnOk, IfOk, IfErr};
ghost use Rattle.p9_names.specs.declared.table.LinkFault.{LinkFault};
ghost use Rattle.p9_names.specs.declared.table.LinkFault.TheVariants.{Memory};
ghost use Rattle.p9_abs.specs.Validity.{IsValid};
ghost use Rattle.p9_names.specs.Linking.{HasMain, AllResolved, IsTable, ChoosesAll};
ghost use Rattle.p9_names.specs.Passes.{AreLinkable, globals_of, IsMainFault, IsUseFault};
ghost use Rattle.p9_abs.specs.BuiltIn.{linked};
ghost use Rattle.p9_names.specs.Answers.{Joins, IsRefusal};

use crate::agreement::check_agreement;
use crate::builtin_module::builtin;
use crate::conflicts::first_definition;
use crate::definitions::definitions;
use crate::places::{Linked, globals};
use crate::rules::is_main;
use crate::table::{LinkFault, Table};
use crate::uses::{first_missing, uses};
use indexmap::IndexMap;
use p9_abs::{AModule, Def};
use p9_base::{Bytes, Name};
use std::alloc::Global;

#[tactic(auto, using(crate::proofs::Answering::linkable_places, crate::proofs::Answering::main_place, crate::proofs::Answering::main_fits, crate::proofs::Answering::main_misfits, crate::proofs::Answering::main_missing))]
// Tells that there is no main, or one of a wrong type.
fn check_main(alloc: Global, linked: &Linked, globals: &[Def]) -> Result<(), LinkFault>
    requires linkable { AreLinkable linked.now }
    requires listed { globals.now ≡ globals_of linked.now }
    ensures ok { OnOk result (HasMain linked.now) }
    ensures err { IfErr result (IsMainFault linked.now) }
{
    let name = Bytes {
        list: b"main".to_vec(alloc).map_err(|_| LinkFault::Memory)?,
    };
    match first_definition(linked, globals, &name) {
        None => Err(LinkFault::NoMain),
        Some(place) if is_main(linked.symbol(place)) => Ok(()),
        Some(place) => Err(LinkFault::MainType { i: place.module }),
    }
}

#[tactic(auto, using(crate::proofs::Answering::uses_places, crate::proofs::Answering::use_place, crate::proofs::Answering::all_resolved, crate::proofs::Answering::first_unresolved))]
// Tells the first use of a name that no module defines.
fn check_uses(alloc: Global, linked: &Linked, defs: &IndexMap<Name, Def>) -> Result<(), LinkFault>
    requires linkable { AreLinkable linked.now }
    requires table { IsTable linked.now defs.now.entries }
    ensures ok { OnOk result (AllResolved linked.now) }
    ensures err { IfErr result (IsUseFault linked.now) }
{
    let uses = uses(alloc, linked)?;
    match first_missing(linked, &uses, defs) {
        None => Ok(()),
        Some(place) => Err(LinkFault::Unresolved {
            name: linked.symbol(place).name.copied(alloc)?,
            i: place.module,
        }),
    }
}

// Joins the modules with the built-in one.
#[tactic(auto, using(crate::proofs::Answering::linkable_all, crate::proofs::Answering::all_join, crate::proofs::Answering::table_of_all))]
fn join(alloc: Global, modules: &Vec<AModule>) -> Result<Table, LinkFault>
    requires valid { All IsValid modules.now.items }
    requires count { length modules.now.items < 2 ^ 32 }
    requires small { All (λ m. length m.symbols < 2 ^ 32) modules.now.items }
    ensures joined { IfOk result (λ _. Joins (linked modules.now.items)) }
    ensures table { IfOk result (λ t. IsTable (linked modules.now.items) t.defs.entries) }
    ensures refused { IfErr result (IsRefusal (linked modules.now.items)) }
{
    let last = builtin(alloc)?;
    let linked = Linked::new(modules, &last);
    let globals = globals(alloc, &linked)?;
    let defs = definitions(alloc, &linked, &globals)?;
    check_main(alloc, &linked, &globals)?;
    check_uses(alloc, &linked, &defs)?;
    check_agreement(alloc, &linked, &globals)?;
    Ok(Table { defs })
}

/// Joins the modules with the built-in one. Want of memory may come at any place.
pub fn resolve(alloc: Global, modules: &Vec<AModule>) -> Result<Table, LinkFault>
    requires valid { All IsValid modules.now.items }
    requires count { length modules.now.items < 2 ^ 32 }
    requires small { All (λ m. length m.symbols < 2 ^ 32) modules.now.items }
    ensures joined { IfOk result (λ _. Joins (linked modules.now.items)) }
    ensures table { IfOk result (λ t. IsTable (linked modules.now.items) t.defs.entries) }
    ensures refused { IfErr result (IsRefusal (linked modules.now.items)) }

    // The table's definition of a name is the one that the run of the modules goes by.
    ensures chosen { IfOk result (λ t. ChoosesAll (linked modules.now.items) t.defs.entries) }

    // A cause that holds, with none before it in the order, is the answer, unless memory ran out.
    ensures refused_exactly { (fault : LinkFault) → fault ≢ Memory → IsRefusal (linked modules.now.items) fault → (result ≡ Err fault) ⊎ (result ≡ Err Memory) }
    ensures joined_exactly { Joins (linked modules.now.items) → IsOk result ⊎ (result ≡ Err Memory) }
{
    join(alloc, modules)
}
