// Which points of an automatic control joins.

ghost use Rattle.std.specs.Prelude.{◌≡◌, ◌+◌, ◌++◌, ◌^◌, ◌<◌, All, AllPairs, length, IfOk, OnOk};
ghost use Rattle.p9_region.specs.Picking.{AreEdges};
ghost use Rattle.p9_region.specs.Finding.{IsPlace, IsTarget, successor, edge_list};

use crate::classes::Edge;
use crate::points::is_live;
use crate::steps::Step;
use p9_base::NoMemory;
use std::alloc::Global;

// The number of a point.
fn place_of(points: &[u32], i: u32) -> Option<u32>
    requires rising { AllPairs (λ i j. i < j) points.now }
    requires few { length points.now < 2 ^ 32 }
    ensures { IsPlace points.now i result }
{
    match points.binary_search(&i) {
        Ok(k) => Some(k as u32),
        Err(_) => None,
    }
}

// The number of the point j, if the automatic is live there.
fn target_at(points: &[u32], bits: &[u64], width: u32, v: u32, j: u32) -> Option<u32>
    requires rising { AllPairs (λ i j. i < j) points.now }
    requires few { length points.now < 2 ^ 32 }
    ensures { IsTarget points.now bits.now width v (Some j) result }
{
    if is_live(bits, width, v, j) {
        place_of(points, j)
    } else {
        None
    }
}

fn target(points: &[u32], bits: &[u64], width: u32, v: u32, to: Option<u32>) -> Option<u32>
    requires rising { AllPairs (λ i j. i < j) points.now }
    requires few { length points.now < 2 ^ 32 }
    ensures { IsTarget points.now bits.now width v to result }
{
    match to {
        None => None,
        Some(j) => target_at(points, bits, width, v, j),
    }
}

fn successor(step: Step, i: u32) -> Option<u32>
    requires { i + 1 < 2 ^ 32 }
    ensures { result ≡ successor step i }
{
    if step.next { Some(i + 1) } else { None }
}

fn add(from: u32, to: Option<u32>, edges: &mut Vec<Edge>) -> Result<(), NoMemory>
    ensures { OnOk result (edges.new.items ≡ edges.old.items ++ edge_list from to) }
{
    if let Some(to) = to {
        edges.push(Edge { from, to })?;
    }
    Ok(())
}

/// Pairs of points of an automatic, by their numbers: control goes from one, that is no call, to the
/// other, where the automatic is live.
pub(crate) fn edges(
    alloc: Global,
    steps: &[Step],
    bits: &[u64],
    width: u32,
    v: u32,
    points: &[u32],
) -> Result<Vec<Edge>, NoMemory>
    requires steps { length steps.now < 2 ^ 32 }
    requires points { length points.now < 2 ^ 32 }
    requires rising { AllPairs (λ i j. i < j) points.now }
    requires within { All (λ i. i < length steps.now) points.now }
    ensures { IfOk result (λ edges. AreEdges steps.now bits.now width v points.now (length points.now) edges.items) }
{
    let mut edges = Vec::new(alloc);
    for k in 0..points.len() as u32 {
        let i = points[k as usize];
        let step = steps[i as usize];
        let next = target(points, bits, width, v, successor(step, i));
        add(k, next, &mut edges)?;
        let jump = target(points, bits, width, v, step.jump);
        add(k, jump, &mut edges)?;
    }
    Ok(edges)
}
