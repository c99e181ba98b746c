// Operands of framed code.

ghost use Rattle.std.specs.Prelude.{◌≡◌, ◌+◌, map, IfOk};
ghost use Rattle.p9_abs.specs.Framed.{home_or_memory, from_entry};
ghost use Rattle.p9_homes.specs.Tables.{home_in};
ghost use Rattle.p9_frame.specs.Emitted.{operand_in, framed_in};

use crate::moves::number_at;
use p9_abs::{Abs, Operand, Operands};
use p9_base::NoMemory;
use p9_homes::{Table, home_of};
use std::alloc::Global;

/// How many words there are.
const WORDS: u64 = 1 << 32;

fn home_or_memory(home: Option<u8>, first: u32, offset: u32) -> Operand
    ensures { result ≡ home_or_memory home (first + offset) }
{
    match home {
        None => Operand::MemReg(29, ((u64::from(first) + u64::from(offset)) % WORDS) as u32),
        Some(home) => Operand::Reg(home),
    }
}

fn from_entry(taken: u32, first: u32, offset: u32) -> Operand
    ensures { result ≡ from_entry taken (first + offset) }
{
    let sum = u64::from(first) + u64::from(offset) + WORDS - u64::from(taken);
    Operand::AddrSP((sum % WORDS) as u32)
}

fn operand_in(
    table: &Table,
    offsets: &[u32],
    starts: &[u32],
    taken: u32,
    i: u32,
    operand: Operand,
) -> Operand
    ensures { result ≡ operand_in table.now offsets.now starts.now taken i operand }
{
    match operand {
        Operand::Auto(v, o) => home_or_memory(home_of(table, i, v), number_at(offsets, v), o),
        Operand::AutoAddr(v, o) => from_entry(taken, number_at(offsets, v), o),
        Operand::Label(l) => Operand::Label(number_at(starts, l)),
        other => other,
    }
}

fn operands_in(
    alloc: Global,
    table: &Table,
    offsets: &[u32],
    starts: &[u32],
    taken: u32,
    i: u32,
    operands: &[Operand],
) -> Result<Vec<Operand>, NoMemory>
    ensures { IfOk result (λ list. list.items ≡ map (operand_in table.now offsets.now starts.now taken i) operands.now) }
{
    let list = operands
        .iter()
        .map(|operand| operand_in(table, offsets, starts, taken, i, *operand))
        .collect(alloc)?;
    Ok(list)
}

/// An instruction with homes and offsets in place of automatics, and labels to blocks.
pub(crate) fn framed_in(
    alloc: Global,
    table: &Table,
    offsets: &[u32],
    starts: &[u32],
    taken: u32,
    i: u32,
    a: &Abs,
) -> Result<Abs, NoMemory>
    ensures { IfOk result (λ b. b ≡ framed_in table.now offsets.now starts.now taken i a.now) }
{
    let list = operands_in(alloc, table, offsets, starts, taken, i, &a.operands.list)?;
    Ok(Abs {
        op: a.op,
        operands: Operands { list },
    })
}
