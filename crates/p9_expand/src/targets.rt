// Targets by the numbers of lines, and the lines that control comes to.
ghost use Rattle.std.specs.Prelude.{◌≡◌, ◌<◌, ◌==◌, ◌||◌, ℕ, false, OnOk, IfOk, map, length, slice_index, option_map};
ghost use Rattle.std.proofs.Common.{get_or};
ghost use Rattle.p9_slot.specs.Blocks.{goes_to, is_named};
ghost use Rattle.p9_expand.specs.Program.{aimed, is_first, marked, with_targets};

use p9_base::NoMemory;
use p9_r3k::Line;
use p9_text::Routine;
use std::alloc::Global;

// The number of the first line of a piece, or 0 of what is none.
fn start(starts: &[u32], number: u32) -> u32
    ensures { result ≡ slice_index starts.now number }
{
    starts.get(number as usize).copied().unwrap_or(0)
}

fn target(starts: &[u32], number: Option<u32>) -> Option<u32>
    ensures { result ≡ option_map (slice_index starts.now) number }
{
    match number {
        None => None,
        Some(number) => Some(start(starts, number)),
    }
}

/// Lines whose targets are the numbers of lines, where pieces begin with lines of these numbers.
pub(crate) fn aimed(alloc: Global, starts: &[u32], lines: &[Line]) -> Result<Vec<Line>, NoMemory>
    ensures { IfOk result (λ new. new.items ≡ map (aimed starts.now) lines.now) }
{
    let mut new = Vec::new(alloc);
    let mut rest = lines;
    while let [line, after @ ..] = rest {
        new.push(Line {
            inst: line.inst,
            target: target(starts, line.target),
            value: line.value,
            is_target: line.is_target,
        })?;
        rest = after;
    }
    Ok(new)
}

// Marks the line of that number, where there is one.
fn mark(flags: &mut [bool], number: u32)
    ensures { (k : ℕ) → k < length flags.old → get_or flags.new k false ≡ get_or flags.old k false || (number == k) }
{
    let number = number as usize;
    if number < flags.len() {
        flags[number] = true;
    }
}

// Marks the line that is a target, where there is one.
fn mark_target(flags: &mut [bool], target: Option<u32>)
    ensures { (k : ℕ) → k < length flags.old → get_or flags.new k false ≡ get_or flags.old k false || goes_to k target }
{
    if let Some(number) = target {
        mark(flags, number);
    }
}

// Marks each line that is named as a target.
fn mark_named(flags: &mut [bool], lines: &[Line])
    ensures { (k : ℕ) → k < length flags.old → get_or flags.new k false ≡ get_or flags.old k false || is_named lines.now k }
{
    let mut rest = lines;
    while let [line, after @ ..] = rest {
        mark_target(flags, line.target);
        rest = after;
    }
}

// Marks the first line of each function.
fn mark_firsts(flags: &mut [bool], starts: &[u32], routines: &[Routine]) -> Result<(), NoMemory>
    ensures { OnOk result ((k : ℕ) → k < length flags.old → get_or flags.new k false ≡ get_or flags.old k false || is_first starts.now 0 routines.now k) }
{
    let mut number: u32 = 0;
    let mut rest = routines;
    while let [routine, after @ ..] = rest {
        mark(flags, start(starts, number));
        number = number.checked_add(routine.size()?).ok_or(NoMemory)?;
        rest = after;
    }
    Ok(())
}

// Lines of which those with a flag are targets.
fn marked(alloc: Global, flags: &[bool], lines: &[Line]) -> Result<Vec<Line>, NoMemory>
    ensures { IfOk result (λ new. new.items ≡ marked (λ i. get_or flags.now i false) 0 lines.now) }
{
    let mut new = Vec::new(alloc);
    let mut number: usize = 0;
    let mut rest = lines;
    while let [line, after @ ..] = rest {
        new.push(Line {
            inst: line.inst,
            target: line.target,
            value: line.value,
            is_target: flags.get(number).copied().unwrap_or(false),
        })?;
        number += 1;
        rest = after;
    }
    Ok(new)
}

/// Lines of which the first of each function and each that is named are targets.
pub(crate) fn with_targets(
    alloc: Global,
    starts: &[u32],
    routines: &[Routine],
    lines: &[Line],
) -> Result<Vec<Line>, NoMemory>
    ensures { IfOk result (λ new. new.items ≡ with_targets starts.now routines.now lines.now) }
{
    let mut flags = vec![in alloc; false; lines.len()]?;
    mark_firsts(&mut flags, starts, routines)?;
    mark_named(&mut flags, lines);
    marked(alloc, &flags, lines)
}
