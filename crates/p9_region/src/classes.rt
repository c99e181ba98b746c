// Classes of what edges join, each known by its least member.
ghost use Rattle.std.specs.Prelude.{true, false, ◌≡◌, ◌≢◌, ◌+◌, ◌*◌, ◌^◌, ◌<◌, ◌≤◌, ℕ, length, slice_set, slice_index, slice_get, Some, IfOk, sum};
ghost use Rattle.p9_region.specs.Labels.{AreWithinNumber, AreClasses, IsJoint, IsSunk, AreLabels, AreEqual};

use p9_base::NoMemory;
use std::alloc::Global;

/// Two numbers that are of one class.
#[derive(Clone, Copy, Drop)]
pub(crate) struct Edge {
    pub from: u32,
    pub to: u32,
}

fn join(edge: Edge, labels: &mut [u32]) -> bool
    requires from { edge.from < length labels.old }
    requires to { edge.to < length labels.old }
    ensures same { result ≡ false → IsJoint edge labels.old labels.new }
    ensures less { result ≡ true → IsSunk edge labels.old labels.new }
{
    let x = labels[edge.from as usize];
    let y = labels[edge.to as usize];
    if x < y {
        labels[edge.to as usize] = x;
        true
    } else if y < x {
        labels[edge.from as usize] = y;
        true
    } else {
        false
    }
}

fn merge(edges: &[Edge], labels: &mut [u32]) -> bool
    requires within { AreWithinNumber edges.now (length labels.old) }
    requires labels { AreLabels edges.now labels.old }
    ensures labels { AreLabels edges.now labels.new }
    ensures equal { result ≡ false → AreEqual edges.now labels.new (length edges.now) }
    ensures falls { result ≡ true → sum labels.new < sum labels.old }
{
    let mut changed = false;
    let mut i = 0;
    while i < edges.len() {
        let edge = edges[i];
        i += 1;
        if join(edge, labels) {
            changed = true;
        }
    }
    changed
}

// The same from the last edge to the first, so that labels sink both ways along a row of edges.
fn merge_back(edges: &[Edge], labels: &mut [u32])
    requires within { AreWithinNumber edges.now (length labels.old) }
    requires labels { AreLabels edges.now labels.old }
    ensures labels { AreLabels edges.now labels.new }
    ensures falls { sum labels.new ≤ sum labels.old }
{
    let mut i = edges.len();
    while i > 0 {
        i -= 1;
        let edge = edges[i];
        join(edge, labels);
    }
}

fn numbers(alloc: Global, n: u32) -> Result<Vec<u32>, NoMemory>
    ensures { IfOk result (λ labels. (length labels.items ≡ n) × ((i : ℕ) → i < n → slice_index labels.items i ≡ i)) }
{
    let mut labels = Vec::new(alloc);
    for i in 0..n {
        labels.push(i)?;
    }
    Ok(labels)
}

/// The least member of the class of each number below n.
pub(crate) fn labels_of(alloc: Global, edges: &[Edge], n: u32) -> Result<Vec<u32>, NoMemory>
    requires { AreWithinNumber edges.now n }
    ensures { IfOk result (λ labels. AreClasses edges.now n labels.items) }
{
    let mut labels = numbers(alloc, n)?;
    while merge(edges, &mut labels) {
        merge_back(edges, &mut labels);
    }
    Ok(labels)
}
