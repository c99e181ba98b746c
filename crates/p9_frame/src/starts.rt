// Where the blocks of instructions start.

ghost use Rattle.std.specs.Prelude.{◌≡◌, ◌+◌, ◌<◌, ◌^◌, ℕ, Bool, List, IfOk, length, slice_index};
ghost use Rattle.p9_abs.specs.Framed.{start_of};
ghost use Rattle.p9_frame.specs.Plans.{held, at_call, plan_of};

use crate::moves::{held_count, is_call};
use p9_abs::Abs;
use p9_base::NoMemory;
use p9_homes::Table;
use std::alloc::Global;

// How many moves before instruction i there are at call c.
fn count_at_call(code: &[Abs], table: &Table, c: u32, i: u32) -> u64
    ensures value { (loads : Bool) → result ≡ length (at_call code.now c (held code.now table.now loads i 12)) }
    ensures bound { result < 13 }
{
    if is_call(code, c) {
        held_count(code, table, i)
    } else {
        0
    }
}

/// Where the block of each instruction starts. Code of 2^32 instructions is want of memory.
pub(crate) fn starts(alloc: Global, code: &[Abs], table: &Table) -> Result<Vec<u32>, NoMemory>
    requires { length code.now < 2 ^ 32 }
    ensures { IfOk result (λ starts. (offsets : List ℕ) (i : ℕ) → i < length code.now → slice_index starts.items i ≡ start_of (plan_of code.now table.now offsets) i) }
{
    let mut list = Vec::new(alloc);
    let mut at = held_count(code, table, 0);
    for i in 0..code.len() as u32 {
        if at >= 1 << 32 {
            return Err(NoMemory);
        }
        list.push(at as u32)?;
        let before = count_at_call(code, table, i, i);
        let after = count_at_call(code, table, i, i + 1);
        at += before + 1 + after;
    }
    Ok(list)
}
