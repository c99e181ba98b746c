// The places of data.
ghost use Rattle.std.specs.Prelude.{◌≡◌, ◌≢◌, ◌⊎◌, ◌<◌, ◌≤◌, ◌+◌, ◌^◌, All, length, sum_by, Err, IsOk, IfOk, IfErr};
ghost use Rattle.p9_abs.specs.Validity.{IsValid};
ghost use Rattle.p9_abs.specs.BuiltIn.{linked};
ghost use Rattle.p9_abs.specs.Programs.{inits_of, bss_of, init_size, bss_size};
ghost use Rattle.p9_names.specs.Linking.{IsTable, ChoosesAll};
ghost use Rattle.p9_place.specs.declared.placing.PlaceFault.{PlaceFault};
ghost use Rattle.p9_place.specs.declared.placing.PlaceFault.TheVariants.{DataTooLarge, Memory};
ghost use Rattle.p9_place.specs.Objects.{laid};
ghost use Rattle.p9_place.specs.Places.{spots, object_bytes, IsTooLarge, IsRefusal, ArePlaced};

use crate::objects::{Object, Objects, collected, total};
use p9_abs::{AModule, Def};
use p9_base::NoMemory;
use p9_names::Table;
use std::alloc::Global;
use thiserror::Error;

/// The most bytes of data and common objects together.
const DATA_LIMIT: u64 = 16_777_216;

/// A symbol's object, and its offset from the start of the data.
#[derive(Clone, Copy, PartialEq, Eq, Debug)]
pub struct Spot {
    pub module: u32,
    pub symbol: u32,
    pub offset: u32,
}

/// Where objects lie: those with initial bytes, then the commons, which begin as zeros.
#[derive(Drop)]
pub struct Places {
    pub inits: Vec<Spot>,
    pub bss: Vec<Spot>,
    pub data_size: u32,
    pub bss_size: u32,
}

/// Why data are not placed.
#[derive(Debug, Drop, Error)]
pub enum PlaceFault {
    #[error("data and common objects take {0} bytes")]
    DataTooLarge(u64),
    #[error("out of memory")]
    Memory,
}

impl From<NoMemory> for PlaceFault {
    ghost use Rattle.std.specs.Prelude.{◌≡◌};
    ghost use Rattle.p9_place.specs.declared.placing.PlaceFault.TheVariants.{Memory};

    ghost from_gives = { λ _ fault. fault ≡ Memory };

    fn from(_: NoMemory) -> PlaceFault {
        PlaceFault::Memory
    }
}

// Lays objects one behind the other from an offset on.
fn lay(alloc: Global, objects: &[Object], from: u32) -> Result<Vec<Spot>, NoMemory>
    requires { from + sum_by (λ o. o.space) objects.now ≤ 16777216 }
    ensures { IfOk result (λ spots. spots.items ≡ laid from objects.now) }
{
    let mut spots = Vec::new(alloc);
    let mut offset = from;
    let mut rest = objects;
    while let [object, after @ ..] = rest {
        let Def { module, symbol } = object.def;
        spots.push(Spot {
            module,
            symbol,
            offset,
        })?;
        offset += object.space;
        rest = after;
    }
    Ok(spots)
}

// Lays all objects, where there are not too many bytes.
fn lay_all(alloc: Global, objects: &Objects) -> Result<Places, PlaceFault>
    ensures inits { IfOk result (λ p. p.inits.items ≡ laid 0 objects.now.inits.items) }
    ensures bss { IfOk result (λ p. p.bss.items ≡ laid p.data_size objects.now.bss.items) }
    ensures data_size { IfOk result (λ p. p.data_size ≡ sum_by (λ o. o.space) objects.now.inits.items) }
    ensures bss_size { IfOk result (λ p. p.bss_size ≡ sum_by (λ o. o.space) objects.now.bss.items) }
    ensures fits { IfOk result (λ p. p.data_size + p.bss_size ≤ 16777216) }
    ensures err { IfErr result (IsTooLarge (sum_by (λ o. o.space) objects.now.inits.items + sum_by (λ o. o.space) objects.now.bss.items)) }
{
    let data_size = total(&objects.inits).ok_or(PlaceFault::Memory)?;
    let bss_size = total(&objects.bss).ok_or(PlaceFault::Memory)?;
    let size = data_size.checked_add(bss_size).ok_or(PlaceFault::Memory)?;
    if size > DATA_LIMIT {
        return Err(PlaceFault::DataTooLarge(size));
    }
    let data_size = data_size as u32;
    let inits = lay(alloc, &objects.inits, 0)?;
    let bss = lay(alloc, &objects.bss, data_size)?;
    Ok(Places {
        inits,
        bss,
        data_size,
        bss_size: bss_size as u32,
    })
}

/// Places the data of the modules and the built-in one: objects with initial bytes first, then each
/// name's common object, each at a multiple of 4. Want of memory may come at any place.
pub fn place(alloc: Global, modules: &Vec<AModule>, table: &Table) -> Result<Places, PlaceFault>
    requires valid { All IsValid modules.now.items }
    requires count { length modules.now.items < 2 ^ 32 }
    requires small { All (λ m. length m.symbols < 2 ^ 32) modules.now.items }
    requires table { IsTable (linked modules.now.items) table.now.defs.entries }
    requires chosen { ChoosesAll (linked modules.now.items) table.now.defs.entries }
    ensures inits { IfOk result (λ p. p.inits.items ≡ spots 0 (inits_of (linked modules.now.items))) }
    ensures bss { IfOk result (λ p. p.bss.items ≡ spots p.data_size (bss_of (linked modules.now.items))) }
    ensures data_size { IfOk result (λ p. p.data_size ≡ init_size (linked modules.now.items)) }
    ensures bss_size { IfOk result (λ p. p.bss_size ≡ bss_size (linked modules.now.items)) }

    // The offsets are those by which the modules run.
    ensures placed_inits { IfOk result (λ p. ArePlaced (linked modules.now.items) p.inits.items) }
    ensures placed_bss { IfOk result (λ p. ArePlaced (linked modules.now.items) p.bss.items) }
    ensures fits { IfOk result (λ p. p.data_size + p.bss_size ≤ 16777216) }
    ensures refused { IfErr result (IsRefusal (linked modules.now.items)) }

    // The cause is the answer where it holds, and the places else, unless memory ran out.
    ensures refused_exactly { (fault : PlaceFault) → fault ≢ Memory → IsRefusal (linked modules.now.items) fault → (result ≡ Err fault) ⊎ (result ≡ Err Memory) }
    ensures placed_exactly { object_bytes (linked modules.now.items) ≤ 16777216 → IsOk result ⊎ (result ≡ Err Memory) }
{
    let objects = collected(alloc, modules, &table.defs)?;
    lay_all(alloc, &objects)
}
