// The lines of modules that join and fit, and where their data lie.
ghost use Rattle.std.specs.Prelude.{◌≡◌, ◌≢◌, ◌⊎◌, ◌<◌, ◌^◌, All, length, Err, IsOk, IfOk, IfErr};
ghost use Rattle.p9_abs.specs.Validity.{IsValid};
ghost use Rattle.p9_load.specs.declared.fault.LoadFault.{LoadFault};
ghost use Rattle.p9_load.specs.declared.fault.LoadFault.TheVariants.{Memory};
ghost use Rattle.p9_load.specs.Refusals.{AreLoadable, IsLoadRefusal};
ghost use Rattle.p9_load.specs.Expansions.{IsExpansion};

use crate::fault::LoadFault;
use p9_abs::AModule;
use p9_expand::expand;
use p9_names::{Table, resolve};
use p9_place::{Places, place};
use p9_r3k::Lines;
use std::alloc::Global;

/// The definitions of global names, where data lie, and the lines of a program, whose addresses aren't
/// filled in. `starts` has the number of the first line of each function's entry and of each
/// instruction, in the order of the text.
#[derive(Drop)]
pub struct Expansion {
    pub table: Table,
    pub places: Places,
    pub lines: Lines,
    pub starts: Vec<u32>,
}

/// Joins the modules with the built-in one, places their data, and makes their lines. Want of memory may
/// come at any place. The work is linear in the instructions.
pub fn expand_modules(alloc: Global, modules: &Vec<AModule>) -> Result<Expansion, LoadFault>
    requires valid { All IsValid modules.now.items }
    requires count { length modules.now.items < 2 ^ 32 }
    requires small { All (λ m. length m.symbols < 2 ^ 32) modules.now.items }
    ensures loadable { IfOk result (λ _. AreLoadable modules.now.items) }
    ensures expanded { IfOk result (IsExpansion modules.now.items) }
    ensures refused { IfErr result (IsLoadRefusal modules.now.items) }

    // A cause that holds, with none before it in the order, is the answer, unless memory ran out.
    ensures refused_exactly { (fault : LoadFault) → fault ≢ Memory → IsLoadRefusal modules.now.items fault → (result ≡ Err fault) ⊎ (result ≡ Err Memory) }
    ensures expanded_exactly { AreLoadable modules.now.items → IsOk result ⊎ (result ≡ Err Memory) }
{
    let table = resolve(alloc, modules)?;
    let places = place(alloc, modules, &table)?;
    let program = expand(alloc, modules, &table, &places)?;
    Ok(Expansion {
        table,
        places,
        lines: program.lines,
        starts: program.starts,
    })
}
