// Blocks laid out with the no-ops that delays need.

ghost use Rattle.std.specs.Prelude.{◌≡◌, ◌<◌, ◌++◌, IfOk, IfSome, OnOk, length, replicate};
ghost use Rattle.p9_r3k.specs.Delayed.{noop};
ghost use Rattle.p9_slot.specs.Schedule.{retargeted};
ghost use Rattle.p9_slot.specs.Placing.{nothing, pair_needs, awaits, needed, slot, after, numbers, laid, entry, lines_of, TargetsBelow};

use crate::blocks::Block;
use p9_base::NoMemory;
use p9_r3k::{Inst, Line};
use std::alloc::Global;

/// SLL R0, R0, 0.
const NOOP: Line = Line {
    inst: Inst::Sll {
        rt: 0,
        rd: 0,
        sh: 0,
    },
    target: None,
    value: None,
    is_target: false,
};

/// Whether the last new line, and the one before it, read HI or LO, and the register that the last
/// one loads, or 0.
#[derive(Clone, Copy)]
struct Recent {
    last: bool,
    before: bool,
    loaded: u32,
}

impl Recent {
    fn nothing() -> Recent
        ensures { result ≡ nothing }
    {
        Recent {
            last: false,
            before: false,
            loaded: 0,
        }
    }

    // How many no-ops an instruction needs for HI and LO.
    fn pair_needs(self, inst: Inst) -> u32
        ensures { result ≡ pair_needs self inst }
    {
        if !inst.writes_pair() {
            0
        } else if self.last {
            2
        } else if self.before {
            1
        } else {
            0
        }
    }

    // How many no-ops an instruction needs before it.
    fn needed(self, inst: Inst) -> u32
        ensures { result ≡ needed self inst }
    {
        match self.pair_needs(inst) {
            0 if self.loaded != 0 && inst.reads(self.loaded) => 1,
            count => count,
        }
    }

    // After an instruction, and the no-op behind it where it is a branch or jump.
    fn after(self, inst: Inst) -> Recent
        ensures { result ≡ after self inst }
    {
        if inst.branches() {
            return Recent::nothing();
        }
        Recent {
            last: inst.reads_pair(),
            before: self.last && self.needed(inst) == 0,
            loaded: if inst.loads() { inst.written() } else { 0 },
        }
    }
}

// How many no-ops come behind an instruction.
fn slot(inst: Inst) -> u32
    ensures { result ≡ slot inst }
{
    if inst.branches() { 1 } else { 0 }
}

/// The new numbers of the lines of blocks.
pub(crate) fn numbers(alloc: Global, blocks: &[Block]) -> Result<Vec<u32>, NoMemory>
    ensures { IfOk result (λ moved. moved.items ≡ numbers nothing 0 blocks.now) }
{
    let mut moved = Vec::new(alloc);
    let mut recent = Recent::nothing();
    let mut next: u32 = 0;
    let mut rest = blocks;
    while let [block, later @ ..] = rest {
        match *block {
            Block::Single { line, .. } => {
                let number = next.checked_add(recent.needed(line.inst)).ok_or(NoMemory)?;
                moved.push(number)?;
                next = number.checked_add(1 + slot(line.inst)).ok_or(NoMemory)?;
                recent = recent.after(line.inst);
            }
            Block::Exchanged { lead, .. } => {
                let number = next.checked_add(recent.needed(lead.inst)).ok_or(NoMemory)?;
                next = number.checked_add(2).ok_or(NoMemory)?;
                moved.push(next - 1)?;
                moved.push(number)?;
                recent = Recent::nothing();
            }
        }
        rest = later;
    }
    Ok(moved)
}

fn push_noops(new: &mut Vec<Line>, count: u32) -> Result<(), NoMemory>
    ensures { OnOk result (new.new.items ≡ new.old.items ++ replicate count noop) }
{
    let mut left = count;
    while left > 0 {
        new.push(NOOP)?;
        left -= 1;
    }
    Ok(())
}

// Where a line is entered: at the lesser of its number and the next line's.
fn entry(moved: &[u32], target: u32) -> u32
    requires { target < length moved.now }
    ensures { result ≡ entry moved.now target }
{
    let target = target as usize;
    let number = moved[target];
    if target + 1 < moved.len() {
        number.min(moved[target + 1])
    } else {
        number
    }
}

// A line that goes to where its target is entered.
fn moved_line(line: &Line, moved: &[u32]) -> Line
    requires { IfSome line.now.target (λ t. t < length moved.now) }
    ensures { result ≡ retargeted (entry moved.now) line.now }
{
    Line {
        target: line.target.map(|t| entry(moved, t)),
        ..*line
    }
}

/// The blocks with their no-ops, each line going to where its target is entered.
pub(crate) fn laid(alloc: Global, blocks: &[Block], moved: &[u32]) -> Result<Vec<Line>, NoMemory>
    requires { TargetsBelow (length moved.now) (lines_of blocks.now) }
    ensures { IfOk result (λ new. new.items ≡ laid (entry moved.now) nothing blocks.now) }
{
    let mut new = Vec::new(alloc);
    let mut recent = Recent::nothing();
    let mut rest = blocks;
    while let [block, later @ ..] = rest {
        match block {
            Block::Single { line, .. } => {
                push_noops(&mut new, recent.needed(line.inst))?;
                new.push(moved_line(line, moved))?;
                push_noops(&mut new, slot(line.inst))?;
                recent = recent.after(line.inst);
            }
            Block::Exchanged { line, lead } => {
                push_noops(&mut new, recent.needed(lead.inst))?;
                new.push(moved_line(lead, moved))?;
                new.push(moved_line(line, moved))?;
                recent = Recent::nothing();
            }
        }
        rest = later;
    }
    Ok(new)
}
