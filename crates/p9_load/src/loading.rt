// Modules as an executable.
ghost use Rattle.std.specs.Prelude.{◌≡◌, ◌≢◌, ◌⊎◌, ◌<◌, ◌^◌, All, length, Err, IsOk, IfOk, IfErr};
ghost use Rattle.p9_object.specs.Laws.{IsObject};
ghost use Rattle.p9_abs.specs.Programs.{IsPlacing};
ghost use Rattle.p9_load.specs.declared.fault.LoadFault.{LoadFault};
ghost use Rattle.p9_load.specs.declared.fault.LoadFault.TheVariants.{Memory};
ghost use Rattle.p9_load.specs.Refusals.{AreLoadable, IsLoadRefusal};
ghost use Rattle.p9_load.specs.Loading.{Loads, placing, RunsAsModules};

use crate::executable::written;
use crate::expansion::expand_modules;
use crate::fault::LoadFault;
use crate::loaded::Loaded;
use p9_abs::AModule;
use std::alloc::Global;

/// Loads modules with the built-in one: joins them, places their data, makes and schedules their lines,
/// and writes the executable, without a table for debuggers. Want of memory may come at any place. The
/// work is linear in the instructions, symbols and bytes.
pub fn load(alloc: Global, modules: &Vec<AModule>) -> Result<Loaded, LoadFault>
    requires objects { All IsObject modules.now.items }
    requires count { length modules.now.items < 2 ^ 32 }
    ensures loads { IfOk result (Loads modules.now.items) }
    ensures placed { IfOk result (λ loaded. IsPlacing modules.now.items (placing modules.now.items loaded)) }
    ensures runs { IfOk result (RunsAsModules modules.now.items) }
    ensures loadable { IfOk result (λ _. AreLoadable modules.now.items) }
    ensures refused { IfErr result (IsLoadRefusal modules.now.items) }

    // A cause that holds, with none before it in the order, is the answer, unless memory ran out.
    ensures refused_exactly { (fault : LoadFault) → fault ≢ Memory → IsLoadRefusal modules.now.items fault → (result ≡ Err fault) ⊎ (result ≡ Err Memory) }
    ensures loaded_exactly { AreLoadable modules.now.items → IsOk result ⊎ (result ≡ Err Memory) }
{
    let expansion = expand_modules(alloc, modules)?;
    Ok(written(alloc, modules, &expansion)?)
}
