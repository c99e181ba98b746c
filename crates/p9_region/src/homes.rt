// Homes of regions.

ghost use Rattle.std.specs.Prelude.{◌≡◌, ◌<◌, ◌≤◌, ℕ, All, IfOk, IfSome, map, length};
ghost use Rattle.p9_abs.specs.Regions.{IsRegion, AreRegions, IsHome, AreSettled};
ghost use Rattle.p9_region.specs.Costs.{gaps_of, order_of};
ghost use Rattle.p9_region.specs.Greedy.{IsGreedy, AreWithin, AreOrdered};

use crate::masks::choose;
use crate::ranks::ranking;
use p9_abs::{AFunction, Abs, Homes, Region, Regions};
use p9_base::NoMemory;
use std::alloc::Global;

// Gives each region in its turn the first home that no conflicting one has, unless it saves nothing.
fn choose_all(
    ranking: &[(u64, u32)],
    regions: &[Region],
    used: &mut [u32],
    homes: &mut [Option<u8>],
)
    requires count { length homes.old ≡ length regions.now }
    requires points { AreWithin (length used.old) regions.now }
    requires order { AreOrdered (length regions.now) (order_of ranking.now) }
    requires range { All (λ home. IfSome home IsHome) homes.old }
    requires first { IsGreedy regions.now (gaps_of ranking.now) (order_of ranking.now) homes.old used.old 0 }
    ensures range { All (λ home. IfSome home IsHome) homes.new }
    ensures last { IsGreedy regions.now (gaps_of ranking.now) (order_of ranking.now) homes.new used.new (length ranking.now) }
{
    for rank in ranking {
        let (gap, number) = *rank;
        let region = &regions[number as usize];
        let points = &region.points;
        homes[number as usize] = choose(gap < u64::MAX, &points.list, used);
    }
}

fn no_homes(alloc: Global, regions: &[Region]) -> Result<Vec<Option<u8>>, NoMemory>
    ensures { IfOk result (λ homes. homes.items ≡ map (λ r. None) regions.now) }
{
    let homes = regions.iter().map(|_| None).collect(alloc)?;
    Ok(homes)
}

fn homes_of(
    alloc: Global,
    f: &AFunction,
    code: &[Abs],
    regions: &[Region],
) -> Result<Vec<Option<u8>>, NoMemory>
    requires each { All (IsRegion f.now) regions.now }
    requires points { AreWithin (length code.now) regions.now }
    ensures { IfOk result (λ homes. AreSettled f.now regions.now homes.items) }
{
    let ranking = ranking(alloc, f, regions)?;
    let mut used = vec![in alloc; 0u32; code.len()]?;
    let mut homes = no_homes(alloc, regions)?;
    choose_all(&ranking, regions, &mut used, &mut homes);
    Ok(homes)
}

/// Homes for regions: the registers R9 to R20, in the order of what the regions save, and of equals
/// by their numbers. A region that saves nothing gets none.
pub fn assign(alloc: Global, f: &AFunction, regions: &Regions) -> Result<Homes, NoMemory>
    requires { AreRegions f.now regions.now }
    ensures { IfOk result (λ homes. AreSettled f.now regions.now homes) }
{
    let list = homes_of(alloc, f, &f.code.list, &regions.list)?;
    Ok(Homes { list })
}
