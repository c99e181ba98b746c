// Joining files.
ghost use Rattle.std.specs.Prelude.{◌≡◌, ◌≢◌, ◌≤◌, ◌⊎◌, ◌∷◌, [], length, map, All, IfOk, IfErr, IsOk, Err};
ghost use Rattle.p9_first.specs.Form.{IsFile};
ghost use Rattle.p9_form.specs.Items.{items_of};
ghost use Rattle.p9_form.specs.Sharing.{AreJoined, IsSmall};
ghost use Rattle.p9_abs.specs.BuiltIn.{linked};
ghost use Rattle.p9_names.specs.Answers.{Joins, IsRefusal};
ghost use Rattle.p9_names.specs.declared.table.LinkFault.{LinkFault};
ghost use Rattle.p9_names.specs.declared.table.LinkFault.TheVariants.{Memory};
ghost use Rattle.p9_share.specs.Symbols.{module_of};

use crate::symbols::module_of;
use p9_abs::AModule;
use p9_base::NoMemory;
use p9_form::{File, FileList};
use p9_names::{LinkFault, resolve};
use std::alloc::Global;

fn modules_of(alloc: Global, files: &[File]) -> Result<Vec<AModule>, NoMemory>
    ensures { IfOk result (λ modules. modules.items ≡ map module_of files.now) }
{
    let mut modules = Vec::new(alloc);
    for file in files {
        modules.push(module_of(alloc, file)?)?;
    }
    Ok(modules)
}

#[tactic(auto, using(crate::proofs::Valid::all_small))]
fn join_all(alloc: Global, files: &[File]) -> Result<(), LinkFault>
    requires form { All (λ f. IsFile (items_of f)) files.now }
    requires small { All IsSmall files.now }
    requires count { length files.now ≤ 16 }
    ensures joined { IfOk result (λ _. AreJoined files.now) }
    ensures joins { IfOk result (λ _. Joins (linked (map module_of files.now))) }
    ensures refused { IfErr result (IsRefusal (linked (map module_of files.now))) }
    ensures refused_exactly { (fault : LinkFault) → fault ≢ Memory → IsRefusal (linked (map module_of files.now)) fault → (result ≡ Err fault) ⊎ (result ≡ Err Memory) }
    ensures joined_exactly { Joins (linked (map module_of files.now)) → IsOk result ⊎ (result ≡ Err Memory) }
{
    let modules = modules_of(alloc, files)?;
    match resolve(alloc, &modules) {
        Ok(_) => Ok(()),
        Err(fault) => Err(fault),
    }
}

/// Joins files with the system's module. Want of memory may come at any place.
pub fn join(alloc: Global, files: &FileList) -> Result<(), LinkFault>
    requires form { All (λ f. IsFile (items_of f)) files.now }
    requires small { All IsSmall files.now }
    requires count { length files.now ≤ 16 }
    ensures joined { IfOk result (λ _. AreJoined files.now) }
    ensures joins { IfOk result (λ _. Joins (linked (map module_of files.now))) }
    ensures refused { IfErr result (IsRefusal (linked (map module_of files.now))) }

    // A cause that holds, with none before it in the order, is the answer, unless memory ran out.
    ensures refused_exactly { (fault : LinkFault) → fault ≢ Memory → IsRefusal (linked (map module_of files.now)) fault → (result ≡ Err fault) ⊎ (result ≡ Err Memory) }
    ensures joined_exactly { Joins (linked (map module_of files.now)) → IsOk result ⊎ (result ≡ Err Memory) }
{
    join_all(alloc, &files.list)
}
