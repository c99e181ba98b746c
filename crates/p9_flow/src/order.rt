// The order in which rows are visited: those of later instructions first, as control goes.

ghost use Rattle.std.specs.Prelude.{◌≡◌, ◌<◌, ◌^◌, ℕ, length, All, Contains, IfOk, OnOk};
ghost use Rattle.p9_flow.specs.Columns.{IsOrder, AreNamed};

use crate::acts::Act;
use p9_base::NoMemory;
use std::alloc::Global;

/// How far a depth-first search is with an instruction.
#[derive(Clone, Copy)]
enum Stage {
    Unseen,
    Entered,
    Left,
}

// Puts an instruction that the search hasn't seen among those that it will visit.
fn open_unseen(i: usize, stages: &[Stage], opened: &mut Vec<u32>) -> Result<(), NoMemory>
    requires few { length stages.now < 2 ^ 32 }
    requires within { All (λ j. j < length stages.now) opened.old.items }
    ensures { All (λ j. j < length stages.now) opened.new.items }
{
    if i < stages.len() {
        if let Stage::Unseen = stages[i] {
            opened.push(i as u32)?;
        }
    }
    Ok(())
}

fn open_successors(
    act: Act,
    i: u32,
    stages: &[Stage],
    opened: &mut Vec<u32>,
) -> Result<(), NoMemory>
    requires few { length stages.now < 2 ^ 32 }
    requires within { All (λ j. j < length stages.now) opened.old.items }
    ensures { All (λ j. j < length stages.now) opened.new.items }
{
    if let Some(label) = act.jump {
        open_unseen(label as usize, stages, opened)?;
    }
    if act.next {
        open_unseen(i as usize + 1, stages, opened)?;
    }
    Ok(())
}

// A depth-first search leaves an instruction after all that control may go to from it, but those
// that it came from. It opens an instruction at most once from each of the two before it, and once
// again to leave it.
fn walk(alloc: Global, acts: &[Act]) -> Result<Vec<u32>, NoMemory>
    requires { length acts.now < 2 ^ 32 }
    ensures { IfOk result (λ order. All (λ i. i < length acts.now) order.items) }
{
    let mut stages = vec![in alloc; Stage::Unseen; acts.len()]?;
    let mut opened = Vec::new(alloc);
    let mut order = Vec::new(alloc);
    open_unseen(0, &stages, &mut opened)?;
    'search: for _ in 0..3 * acts.len() + 1 {
        let Some(i) = opened.pop() else {
            break;
        };
        match stages[i as usize] {
            Stage::Unseen => {
                stages[i as usize] = Stage::Entered;
                opened.push(i)?;
                open_successors(acts[i as usize], i, &stages, &mut opened)?;
            }
            Stage::Entered => {
                stages[i as usize] = Stage::Left;
                order.push(i)?;
            }
            Stage::Left => {}
        }
    }
    Ok(order)
}

// Which of the numbers below n are in the order.
fn placed(alloc: Global, order: &[u32], n: u32) -> Result<Vec<bool>, NoMemory>
    requires { All (λ i. i < n) order.now }
    ensures count { IfOk result (λ placed. length placed.items ≡ n) }
    ensures named { IfOk result (λ placed. AreNamed placed.items order.now) }
{
    let mut placed = vec![in alloc; false; n as usize]?;
    for i in order {
        placed[*i as usize] = true;
    }
    Ok(placed)
}

// Adds a number that isn't there.
fn add_missing(placed: &[bool], i: u32, order: &mut Vec<u32>) -> Result<(), NoMemory>
    requires below { i < length placed.now }
    requires within { All (λ k. k < length placed.now) order.old.items }
    requires named { AreNamed placed.now order.old.items }
    ensures within { All (λ k. k < length placed.now) order.new.items }
    ensures kept { (k : ℕ) → Contains order.old.items k → Contains order.new.items k }
    ensures there { OnOk result (Contains order.new.items i) }
{
    if placed[i as usize] {
        return Ok(());
    }
    order.push(i)?;
    Ok(())
}

// Adds the numbers below n that aren't there.
fn completed(alloc: Global, mut order: Vec<u32>, n: u32) -> Result<Vec<u32>, NoMemory>
    requires { All (λ i. i < n) order.items }
    ensures { IfOk result (λ order. IsOrder n order.items) }
{
    let placed = placed(alloc, &order, n)?;
    for i in 0..n {
        add_missing(&placed, i, &mut order)?;
    }
    Ok(order)
}

/// Each instruction, mostly after those that control may go to from it. What can't be reached comes
/// last.
pub(crate) fn postorder(alloc: Global, acts: &[Act]) -> Result<Vec<u32>, NoMemory>
    requires { length acts.now < 2 ^ 32 }
    ensures { IfOk result (λ order. IsOrder (length acts.now) order.items) }
{
    let order = walk(alloc, acts)?;
    completed(alloc, order, acts.len() as u32)
}
