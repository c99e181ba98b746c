// The order in which regions choose their homes.

ghost use Rattle.std.specs.Prelude.{IfOk, All, length};
ghost use Rattle.p9_abs.specs.Regions.{IsRegion};
ghost use Rattle.p9_region.specs.Costs.{AreRanks, IsRanking};

use crate::costs::cost;
use p9_abs::{AFunction, Region};
use p9_base::NoMemory;
use std::alloc::Global;

// What each region saves, counted down from the greatest number, and the region's number.
fn unsorted(alloc: Global, f: &AFunction, regions: &[Region]) -> Result<Vec<(u64, u32)>, NoMemory>
    requires { All (IsRegion f.now) regions.now }
    ensures { IfOk result (λ ranks. AreRanks f.now regions.now (length regions.now) ranks.items) }
{
    if regions.len() >= 1 << 32 {
        return Err(NoMemory);
    }
    let mut ranks = Vec::new(alloc);
    for number in 0..regions.len() as u32 {
        let saved = cost(f, &regions[number as usize]);
        ranks.push((u64::MAX - saved, number))?;
    }
    Ok(ranks)
}

/// All regions, those that save most first, and of equals those of lower numbers.
pub(crate) fn ranking(
    alloc: Global,
    f: &AFunction,
    regions: &[Region],
) -> Result<Vec<(u64, u32)>, NoMemory>
    requires { All (IsRegion f.now) regions.now }
    ensures { IfOk result (λ ranking. IsRanking f.now regions.now ranking.items) }
{
    let mut ranking = unsorted(alloc, f, regions)?;
    ranking.sort()?;
    Ok(ranking)
}
