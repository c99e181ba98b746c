// Regions as groups of points with one label.

ghost use Rattle.std.specs.Prelude.{◌≡◌, ◌++◌, ◌∷◌, ◌^◌, ◌<◌, [], length, IfOk, OnOk, if◌then◌else◌};
ghost use Rattle.p9_region.specs.Picking.{is_root, members, region_at, groups};

use crate::points::keep_if;
use p9_abs::{Points, Region};
use p9_base::NoMemory;
use std::alloc::Global;

fn members(alloc: Global, points: &[u32], labels: &[u32], r: u32) -> Result<Vec<u32>, NoMemory>
    requires few { length points.now < 2 ^ 32 }
    requires same { length labels.now ≡ length points.now }
    ensures { IfOk result (λ list. list.items ≡ members points.now labels.now r (length points.now)) }
{
    let mut list = Vec::new(alloc);
    for k in 0..points.len() as u32 {
        keep_if(labels[k as usize] == r, points[k as usize], &mut list)?;
    }
    Ok(list)
}

// Adds the region of the points with label r, if that is a label.
fn add_region(
    alloc: Global,
    v: u32,
    points: &[u32],
    labels: &[u32],
    r: u32,
    regions: &mut Vec<Region>,
) -> Result<(), NoMemory>
    requires few { length points.now < 2 ^ 32 }
    requires same { length labels.now ≡ length points.now }
    requires below { r < length points.now }
    ensures { OnOk result (regions.new.items ≡ (if is_root labels.now r then regions.old.items ++ region_at v points.now labels.now r ∷ [] else regions.old.items)) }
{
    if labels[r as usize] == r {
        let list = members(alloc, points, labels, r)?;
        regions.push(Region {
            auto: v,
            points: Points { list },
        })?;
    }
    Ok(())
}

/// Adds a region for each label, in their order.
pub(crate) fn add_groups(
    alloc: Global,
    v: u32,
    points: &[u32],
    labels: &[u32],
    regions: &mut Vec<Region>,
) -> Result<(), NoMemory>
    requires few { length points.now < 2 ^ 32 }
    requires same { length labels.now ≡ length points.now }
    ensures { OnOk result (regions.new.items ≡ regions.old.items ++ groups v points.now labels.now (length points.now)) }
{
    for r in 0..points.len() as u32 {
        add_region(alloc, v, points, labels, r, regions)?;
    }
    Ok(())
}
