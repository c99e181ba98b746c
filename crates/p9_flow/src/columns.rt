// Where automatics are live, 64 at a time.

ghost use Rattle.std.specs.Prelude.{true, false, if◌then◌else◌, ◌≡◌, ◌+◌, ◌<◌, ◌≤◌, length, slice_index, IfOk, bit_or};
ghost use Rattle.p9_flow.specs.Columns.{IsSound, IsClosed, IsOrder, IsColumn, slack, needed, before_write, after_read, jump_row, IsRaised};

use crate::acts::Act;
use p9_base::NoMemory;
use std::alloc::Global;
use std::marker::Model;

/// Of 64 automatics the bits of those that are live, for each instruction.
#[derive(Drop)]
pub(crate) struct Column {
    pub list: Vec<u64>,
}

impl Model for Column {
    ghost use Rattle.std.specs.Prelude.{List, ℕ};

    ghost Value = { List ℕ };

    ghost view = { λ c. c.list.items };
}

impl Column {
    pub(crate) fn row(&self, i: usize) -> u64
        ensures { result ≡ slice_index self.now i }
    {
        row_of(&self.list, i)
    }
}

fn before_write(write: Option<u32>, word: u32, row: u64) -> u64
    ensures { result ≡ before_write write word row }
{
    match write {
        None => row,
        Some(v) => {
            if v / 64 == word {
                row & !(1u64 << (v % 64))
            } else {
                row
            }
        }
    }
}

fn after_read(read: Option<u32>, word: u32, row: u64) -> u64
    ensures { result ≡ after_read read word row }
{
    match read {
        None => row,
        Some(v) => {
            if v / 64 == word {
                row | (1u64 << (v % 64))
            } else {
                row
            }
        }
    }
}

fn row_of(column: &[u64], i: usize) -> u64
    ensures { result ≡ slice_index column.now i }
{
    match column.get(i) {
        Some(row) => *row,
        None => 0,
    }
}

fn next_row(next: bool, column: &[u64], i: usize) -> u64
    requires { i < length column.now }
    ensures { result ≡ (if next then slice_index column.now (i + 1) else 0) }
{
    if next { row_of(column, i + 1) } else { 0 }
}

fn jump_row(jump: Option<u32>, column: &[u64]) -> u64
    ensures { result ≡ jump_row jump column.now }
{
    match jump {
        Some(label) => row_of(column, label as usize),
        None => 0,
    }
}

#[tactic(auto, unfolding(crate::specs::Columns::needed))]
fn needed(act: Act, i: usize, column: &[u64], word: u32) -> u64
    requires { i < length column.now }
    ensures { result ≡ needed act i column.now word }
{
    let behind = next_row(act.next, column, i);
    let beyond = jump_row(act.jump, column);
    after_read(
        act.read,
        word,
        before_write(act.write, word, behind | beyond),
    )
}

// Gives row i what it needs, and tells whether that was more than it had.
fn visit(act: Act, i: usize, column: &mut [u64], word: u32) -> bool
    requires { i < length column.old }
    ensures same { result ≡ false → (column.new ≡ column.old) × (bit_or (slice_index column.old i) (needed act i column.old word) ≡ slice_index column.old i) }
    ensures more { result ≡ true → IsRaised act i column.old word column.new }
{
    let old = column[i];
    let row = old | needed(act, i, column, word);
    column[i] = row;
    row != old
}

fn pass(acts: &[Act], order: &[u32], column: &mut [u64], word: u32) -> bool
    requires same { length column.old ≡ length acts.now }
    requires order { IsOrder (length acts.now) order.now }
    requires sound { IsSound acts.now word column.old }
    ensures sound { IsSound acts.now word column.new }
    ensures closed { result ≡ false → IsClosed acts.now word column.new }
    ensures falls { result ≡ true → slack column.new < slack column.old }
{
    let mut changed = false;
    for place in order {
        let i = *place as usize;
        if visit(acts[i], i, column, word) {
            changed = true;
        }
    }
    changed
}

/// For each instruction a word: the bits of those of 64 automatics that are live there.
pub(crate) fn live_column(
    alloc: Global,
    acts: &[Act],
    order: &[u32],
    word: u32,
) -> Result<Vec<u64>, NoMemory>
    requires { IsOrder (length acts.now) order.now }
    ensures { IfOk result (λ column. IsColumn acts.now word column.items) }
{
    let mut column = vec![in alloc; 0u64; acts.len()]?;
    while pass(acts, order, &mut column, word) {}
    Ok(column)
}
