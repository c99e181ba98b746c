// How high the tree is so far, and how many nodes it has.
ghost use Rattle.std.specs.Prelude.{◌≡◌, ◌+◌, ◌-◌, reverse, IfOk};
ghost use Rattle.p9_prefix.specs.Growth.{raised, joined, height_of, size_of, height_so_far, nodes_so_far};
ghost use Rattle.p9_tree_build.specs.Machines.{stack_of};
ghost use Rattle.p9_decl.specs.Walks.{item_start, last_start};
ghost use Rattle.p9_tree_reader.specs.Reading.{state_of, last_of};

use p9_tree_build::{Frame, Read, start_of};
use p9_tree_reader::Reader;
use std::alloc::AllocError;

fn sum(a: u32, b: u32) -> Result<u32, AllocError>
    ensures { IfOk result (λ c. c ≡ a + b) }
{
    a.checked_add(b).ok_or(AllocError)
}

fn raised(frames: &[Frame], start: u32) -> Result<u32, AllocError>
    ensures { IfOk result (λ h. h ≡ raised (stack_of (reverse frames.now)) start) }
{
    let mut height = start;
    let mut rest = frames;
    while let Some((frame, below)) = rest.split_last() {
        height = sum(height.max(frame.body.row.high), 1)?;
        rest = below;
    }
    Ok(height)
}

fn joined(frames: &[Frame], start: u32) -> Result<u32, AllocError>
    ensures { IfOk result (λ n. n ≡ joined (stack_of (reverse frames.now)) start) }
{
    let mut count = start;
    let mut rest = frames;
    while let Some((frame, below)) = rest.split_last() {
        count = sum(sum(count, frame.body.row.size)?, 1)?;
        rest = below;
    }
    Ok(count)
}

fn height_of(last: &Option<Read>) -> u32
    ensures { result ≡ height_of (last_of last.now) }
{
    match last {
        Some(read) => read.whole.high,
        None => 0,
    }
}

fn size_of(last: &Option<Read>) -> u32
    ensures { result ≡ size_of (last_of last.now) }
{
    match last {
        Some(read) => read.whole.size,
        None => 0,
    }
}

/// How high the tree is so far, without the file.
pub fn height_so_far(reader: &Reader) -> Result<u32, AllocError>
    ensures { IfOk result (λ h. h ≡ height_so_far (state_of reader.now)) }
{
    let height = raised(reader.stack.as_slice(), height_of(&reader.last))?;
    Ok(height.saturating_sub(1))
}

/// How many nodes are read so far, without the file.
pub fn nodes_so_far(reader: &Reader) -> Result<u32, AllocError>
    ensures { IfOk result (λ n. n ≡ nodes_so_far (state_of reader.now)) }
{
    let count = joined(reader.stack.as_slice(), size_of(&reader.last))?;
    Ok(count.saturating_sub(1))
}

/// The place of the first token of the item that is open or has just been read.
#[tactic(auto, using(crate::proofs::Opening::item_below, crate::proofs::Opening::item_alone, crate::proofs::Opening::item_none))]
pub fn item_start(reader: &Reader) -> u32
    ensures { result ≡ item_start (state_of reader.now) }
{
    match reader.stack.as_slice() {
        [_, item, ..] => item.body.from,
        [_] => last_start(&reader.last, reader.at),
        [] => reader.at,
    }
}

fn last_start(last: &Option<Read>, at: u32) -> u32
    ensures { result ≡ last_start (last_of last.now) at }
{
    match last {
        Some(read) => start_of(&read.whole.node),
        None => at,
    }
}
