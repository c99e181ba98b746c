// Entries that are written into an object's cells.
ghost use Rattle.std.specs.Prelude.{◌≡◌, ◌≤◌, ◌+◌, ◌^◌, ℕ, length, slice_get, option_map};
ghost use Rattle.p9_cmean.specs.FirstContents.{is_broken};
ghost use Rattle.p9_init.specs.Cells.{ArePlaced, broken_cell, with_entry};

use crate::cell::InitCell;

// Whether an address whose part `part` is at `at` has a part among the cells from `start` to `end`.
fn is_broken(start: usize, end: usize, at: usize, part: u8) -> bool
    requires end { end + 4 ≤ 2 ^ 32 }
    requires place { at + 4 ≤ 2 ^ 32 }
    requires order { start ≤ end }
    ensures { result ≡ is_broken start end at part }
{
    at < end + usize::from(part) && start + usize::from(part) < at + 4
}

// A cell where the cells from `start` to `end` are written over.
fn broken(start: usize, end: usize, at: usize, cell: InitCell) -> InitCell
    requires end { end + 4 ≤ 2 ^ 32 }
    requires place { at + 4 ≤ 2 ^ 32 }
    requires order { start ≤ end }
    ensures { result ≡ broken_cell start end at cell }
{
    match cell {
        InitCell::Byte(byte) => InitCell::Byte(byte),
        InitCell::Part {
            part,
            symbol,
            offset,
        } => {
            if is_broken(start, end, at, part) {
                InitCell::Byte(0)
            } else {
                InitCell::Part {
                    part,
                    symbol,
                    offset,
                }
            }
        }
    }
}

// Breaks the addresses that have a part among the cells from `start` to `end`: their parts become 0.
fn break_addresses(cells: &mut [InitCell], start: usize, end: usize)
    requires size { length cells.old + 8 ≤ 2 ^ 32 }
    requires order { start ≤ end }
    requires within { end ≤ length cells.old }
    requires parts { ArePlaced cells.old }
    ensures size { length cells.new ≡ length cells.old }
    ensures each { (i : ℕ) → slice_get cells.new i ≡ option_map (broken_cell start end i) (slice_get cells.old i) }
{
    let last = if end + 3 < cells.len() {
        end + 3
    } else {
        cells.len()
    };
    let mut at = start.saturating_sub(3);
    while at < last {
        cells[at] = broken(start, end, at, cells[at]);
        at += 1;
    }
}

/// Writes cells over those from `start` on. Of an address that they write over in part, the other
/// parts become 0.
pub(crate) fn write(cells: &mut [InitCell], start: usize, new: &[InitCell])
    requires size { length cells.old + 8 ≤ 2 ^ 32 }
    requires within { start + length new.now ≤ length cells.old }
    requires parts { ArePlaced cells.old }
    ensures { cells.new ≡ with_entry start new.now cells.old }
{
    let end = start + new.len();
    break_addresses(cells, start, end);
    cells[start..end].copy_from_slice(new);
}
