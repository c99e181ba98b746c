// The schedule.

ghost use Rattle.std.specs.Prelude.{IfOk};
ghost use Rattle.p9_slot.specs.Schedule.{HaveTargets, TargetsAreLines, EachOnce, AddsOnlyNoops, CallsReturn, TargetsDivide, IsSpaced};
ghost use Rattle.p9_slot.specs.Justified.{NoopsJustified};
ghost use Rattle.p9_slot.specs.Runs.{RunsAsStraight};

use crate::blocks::blocks;
use crate::placing::{laid, numbers};
use p9_base::NoMemory;
use p9_r3k::Lines;
use std::alloc::Global;

/// Lines for the machine with branch slots and load delays. `moved` gives each old line's number
/// among them.
#[derive(Drop)]
pub struct Scheduled {
    pub lines: Lines,
    pub moved: Vec<u32>,
}

/// Schedules lines: they keep their meaning, with lines moved into the delays of branches, jumps and
/// loads where the table of justified no-ops lets them. The order of lines is free where several
/// would do. Lines that would have numbers of 2^32 and more are want of memory.
pub fn schedule(alloc: Global, lines: &Lines) -> Result<Scheduled, NoMemory>
    requires targets { HaveTargets lines.now }
    requires lines { TargetsAreLines lines.now }
    ensures once { IfOk result (λ s. EachOnce lines.now s.lines s.moved.items) }
    ensures added { IfOk result (λ s. AddsOnlyNoops lines.now s.lines s.moved.items) }
    ensures justified { IfOk result (λ s. NoopsJustified s.lines s.moved.items) }
    ensures calls { IfOk result (λ s. CallsReturn lines.now s.lines s.moved.items) }
    ensures divided { IfOk result (λ s. TargetsDivide lines.now s.lines s.moved.items) }
    ensures spaced { IfOk result (λ s. IsSpaced lines.now s.lines s.moved.items) }
    ensures runs { IfOk result (λ s. RunsAsStraight lines.now s.lines s.moved.items) }
{
    let blocks = blocks(alloc, &lines.list)?;
    let moved = numbers(alloc, &blocks)?;
    let list = laid(alloc, &blocks, &moved)?;
    Ok(Scheduled {
        lines: Lines { list },
        moved,
    })
}
