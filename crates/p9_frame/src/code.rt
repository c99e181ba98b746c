// The code of a function with its frame.

ghost use Rattle.std.specs.Prelude.{◌≡◌, ◌+◌, ◌++◌, ◌<◌, ◌^◌, true, IfOk, OnOk, length, slice_get, Some};
ghost use Rattle.p9_abs.specs.declared.instructions.Abs.{Abs as AbsValue};
ghost use Rattle.p9_frame.specs.Plans.{held};
ghost use Rattle.p9_frame.specs.Emitted.{moves_of, block_in, blocks_in};

use crate::moves::{push_at_call, push_held};
use crate::operands::framed_in;
use p9_abs::Abs;
use p9_base::NoMemory;
use p9_homes::Table;
use std::alloc::Global;

// Adds instruction i with its moves.
fn push_block(
    alloc: Global,
    code: &[Abs],
    sizes: &[u32],
    table: &Table,
    offsets: &[u32],
    starts: &[u32],
    taken: u32,
    i: u32,
    a: &Abs,
    out: &mut Vec<Abs>,
) -> Result<(), NoMemory>
    requires { i + 1 < 2 ^ 32 }
    ensures { OnOk result (out.new.items ≡ out.old.items ++ block_in code.now sizes.now table.now offsets.now starts.now taken i a.now) }
{
    push_at_call(alloc, code, sizes, table, offsets, false, i, i, out)?;
    let framed = framed_in(alloc, table, offsets, starts, taken, i, a)?;
    out.push(framed)?;
    push_at_call(alloc, code, sizes, table, offsets, true, i, i + 1, out)?;
    Ok(())
}

/// The moves at the entry, and then the blocks of all instructions.
pub(crate) fn code_of(
    alloc: Global,
    code: &[Abs],
    sizes: &[u32],
    table: &Table,
    offsets: &[u32],
    starts: &[u32],
    taken: u32,
) -> Result<Vec<Abs>, NoMemory>
    requires { length code.now < 2 ^ 32 }
    ensures { IfOk result (λ out. out.items ≡ moves_of sizes.now offsets.now (held code.now table.now true 0 12) ++ blocks_in code.now sizes.now table.now offsets.now starts.now taken 0 code.now) }
{
    let mut out = Vec::new(alloc);
    push_held(alloc, code, sizes, table, offsets, true, 0, &mut out)?;
    for i in 0..code.len() as u32 {
        let a = &code[i as usize];
        push_block(
            alloc, code, sizes, table, offsets, starts, taken, i, a, &mut out,
        )?;
    }
    Ok(out)
}
