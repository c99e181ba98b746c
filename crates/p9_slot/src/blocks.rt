// Which lines change places, so that they fill the delays of branches, jumps and loads.

ghost use Rattle.std.specs.Prelude.{◌≡◌, ◌+◌, ◌||◌, ℕ, OnOk, IfOk, length, reverse, slice_index_or, false};
ghost use Rattle.p9_slot.specs.Blocks.{is_noop, breaks, stays, depend, may_move, is_awaited, first_of, moves, prepended, blocks, goes_to, is_named};
ghost use Rattle.p9_slot.specs.Placing.{TargetsBelow};

use p9_base::NoMemory;
use p9_r3k::{Inst, Line};
use std::alloc::Global;

/// Lines that stand together in the answer.
#[derive(Clone, Copy)]
pub(crate) enum Block {
    /// A line, and whether control may come to it from elsewhere.
    Single { line: Line, is_target: bool },
    /// A line, and the branch, jump or load after it, behind which it moves.
    Exchanged { line: Line, lead: Line },
}

fn is_noop(inst: Inst) -> bool
    ensures { result ≡ is_noop inst }
{
    match inst {
        Inst::Sll { rt, rd, sh } => rt == 0 && (rd == 0 && sh == 0),
        _ => false,
    }
}

// Whether an instruction moves behind no other.
fn stays(inst: Inst) -> bool
    ensures { result ≡ stays inst }
{
    inst.delays()
        || (inst.is_system_call()
            || (matches!(inst, Inst::Break { .. })
                || (is_noop(inst) || (inst.reads_pair() || inst.writes_pair()))))
}

// Whether two instructions may not change places because of a register that one of them writes.
fn depend(first: Inst, second: Inst) -> bool
    ensures { result ≡ depend first second }
{
    let a = first.written();
    let b = second.written();
    (a != 0 && (second.reads(a) || b == a)) || (b != 0 && first.reads(b))
}

// Whether an instruction may move behind a branch, jump or load that is no target.
fn may_move(inst: Inst, lead: Inst) -> bool
    ensures { result ≡ may_move inst lead }
{
    lead.delays() && (!stays(inst) && (!depend(inst, lead) && !(lead.loads() && inst.stores())))
}

// Whether the next instruction reads the register that a load writes.
fn is_awaited(lead: Inst, next: Option<Inst>) -> bool
    ensures { result ≡ is_awaited lead next }
{
    let register = lead.written();
    match next {
        None => false,
        Some(inst) => register != 0 && inst.reads(register),
    }
}

// Whether an instruction moves behind the one after it, before which `next` comes then.
fn moves(inst: Inst, lead: Inst, is_target: bool, next: Option<Inst>) -> bool
    ensures { result ≡ moves inst lead is_target next }
{
    !is_target && (may_move(inst, lead) && (lead.branches() || is_awaited(lead, next)))
}

// The first instruction of blocks that are listed from the last to the first.
fn first_of(stack: &[Block]) -> Option<Inst>
    ensures { result ≡ first_of (reverse stack.now) }
{
    match stack.last() {
        None => None,
        Some(Block::Single { line, .. }) => Some(line.inst),
        Some(Block::Exchanged { lead, .. }) => Some(lead.inst),
    }
}

// Puts a line before blocks that are listed from the last to the first.
fn prepend(stack: &mut Vec<Block>, line: Line, is_target: bool) -> Result<(), NoMemory>
    ensures { OnOk result (reverse stack.new.items ≡ prepended line is_target (reverse stack.old.items)) }
{
    match stack.pop() {
        None => {}
        Some(
            Block::Single {
                line: lead,
                is_target: leads_target,
            },
        ) => {
            if moves(line.inst, lead.inst, leads_target, first_of(stack)) {
                stack.push(Block::Exchanged { line, lead })?;
                return Ok(());
            }
            stack.push(Block::Single {
                line: lead,
                is_target: leads_target,
            })?;
        }
        Some(block) => stack.push(block)?,
    }
    stack.push(Block::Single { line, is_target })?;
    Ok(())
}

// Whether each line is some line's target.
fn named(alloc: Global, lines: &[Line]) -> Result<Vec<bool>, NoMemory>
    requires { TargetsBelow (length lines.now) lines.now }
    ensures size { IfOk result (λ named. length named.items ≡ length lines.now) }
    ensures each { IfOk result (λ named. (t : ℕ) → slice_index_or named.items t false ≡ is_named lines.now t) }
{
    let mut named = vec![in alloc; false; lines.len()]?;
    let mut rest = lines;
    while let [line, later @ ..] = rest {
        if let Some(target) = line.target {
            named[target as usize] = true;
        }
        rest = later;
    }
    Ok(named)
}

/// The blocks of lines.
pub(crate) fn blocks(alloc: Global, lines: &[Line]) -> Result<Vec<Block>, NoMemory>
    requires { TargetsBelow (length lines.now) lines.now }
    ensures { IfOk result (λ made. made.items ≡ blocks (is_named lines.now) 0 lines.now) }
{
    let named = named(alloc, lines)?;
    let mut stack = Vec::new(alloc);
    let mut i = lines.len();
    while i > 0 {
        i -= 1;
        let line = lines[i];
        prepend(&mut stack, line, line.is_target || named[i])?;
    }
    stack.reverse();
    Ok(stack)
}
