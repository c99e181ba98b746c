// The addresses at which old lines are entered.
ghost use Rattle.std.specs.Prelude.{◌≡◌, IfOk, length, slice_index_or};
ghost use Rattle.p9_r3k.specs.Delayed.{line_address};
ghost use Rattle.p9_load.specs.Addresses.{entered_addresses, entered_numbers};

use p9_base::NoMemory;
use p9_r3k::Line;
use std::alloc::Global;

/// The address of the first instruction.
const TEXT_START: u32 = 0x1020;

// Where each old line, and the end behind the last, is entered among so many new lines: from the last
// on, the lesser of its number and where the next is entered.
fn entered_numbers(alloc: Global, moved: &[u32], count: u32) -> Result<Vec<u32>, NoMemory>
    ensures { IfOk result (λ numbers. numbers.items ≡ entered_numbers count moved.now) }
{
    let mut numbers = moved.to_vec(alloc)?;
    numbers.push(count)?;
    let mut least = count;
    let mut left = moved.len();
    while left > 0 {
        left -= 1;
        least = moved[left].min(least);
        numbers[left] = least;
    }
    Ok(numbers)
}

// A number by its place, or the end behind the last.
fn number_at(numbers: &[u32], place: u32, end: u32) -> u32
    ensures { result ≡ slice_index_or numbers.now place end }
{
    numbers.get(place as usize).copied().unwrap_or(end)
}

// The address of a line, by its number.
fn line_address(number: u32) -> Result<u32, NoMemory>
    ensures { IfOk result (λ at. at ≡ line_address number) }
{
    let bytes = number.checked_mul(4).ok_or(NoMemory)?;
    bytes.checked_add(TEXT_START).ok_or(NoMemory)
}

/// The addresses at which old lines are entered, by the new numbers of all old lines. Addresses of 2^32
/// and more are want of memory.
pub(crate) fn entered_addresses(
    alloc: Global,
    olds: &[u32],
    moved: &[u32],
    lines: &[Line],
) -> Result<Vec<u32>, NoMemory>
    ensures { IfOk result (λ places. places.items ≡ entered_addresses moved.now (length lines.now) olds.now) }
{
    let count = u32::try_from(lines.len()).map_err(|_| NoMemory)?;
    let numbers = entered_numbers(alloc, moved, count)?;
    let mut places = Vec::new(alloc);
    let mut rest = olds;
    while let [old, after @ ..] = rest {
        let number = number_at(&numbers, *old, count);
        places.push(line_address(number)?)?;
        rest = after;
    }
    Ok(places)
}
