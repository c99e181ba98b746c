// Rows of bits that tell where automatics are live.

ghost use Rattle.std.specs.Prelude.{◌≡◌, ◌++◌, ◌*◌, ◌^◌, ◌<◌, IfOk, OnOk, All, map, length, slice_index};
ghost use Rattle.p9_flow.specs.Rows.{words_for, AreLiveRows};
ghost use Rattle.p9_flow.specs.Columns.{IsOrder};
ghost use Rattle.p9_flow.specs.Tables.{AreColumns, AreRows, rows_below};

use crate::acts::{Act, acts};
use crate::candidates::register_candidates;
use crate::columns::{Column, live_column};
use crate::order::postorder;
use p9_abs::AFunction;
use p9_base::NoMemory;
use std::alloc::Global;

/// For each instruction `width` words of bits, one after the other: bit `v mod 64`, from the least,
/// of word `v / 64` is that of automatic v.
#[derive(Drop)]
pub struct Rows {
    pub width: u32,
    pub bits: Vec<u64>,
}

fn words_for(autos: &[u32]) -> Result<u32, NoMemory>
    ensures { IfOk result (λ words. words ≡ words_for (length autos.now)) }
{
    let count = autos.len();
    if count < 1 << 32 {
        Ok(((count + 63) / 64) as u32)
    } else {
        Err(NoMemory)
    }
}

fn columns(alloc: Global, acts: &[Act], order: &[u32], width: u32) -> Result<Vec<Column>, NoMemory>
    requires { IsOrder (length acts.now) order.now }
    ensures count { IfOk result (λ columns. length columns.items ≡ width) }
    ensures columns { IfOk result (λ columns. AreColumns acts.now columns.items) }
{
    let mut columns = Vec::new(alloc);
    for word in 0..width {
        let list = live_column(alloc, acts, order, word)?;
        columns.push(Column { list })?;
    }
    Ok(columns)
}

fn push_row(columns: &[Column], i: usize, bits: &mut Vec<u64>) -> Result<(), NoMemory>
    ensures { OnOk result (bits.new.items ≡ bits.old.items ++ map (λ column. slice_index column i) columns.now) }
{
    for column in columns {
        bits.push(column.row(i))?;
    }
    Ok(())
}

fn rows_of(alloc: Global, columns: &[Column], count: u32) -> Result<Vec<u64>, NoMemory>
    ensures { IfOk result (λ bits. bits.items ≡ rows_below columns.now count) }
{
    let mut bits = Vec::new(alloc);
    for i in 0..count {
        push_row(columns, i as usize, &mut bits)?;
    }
    Ok(bits)
}

fn bits_of(alloc: Global, acts: &[Act], width: u32) -> Result<Vec<u64>, NoMemory>
    ensures { IfOk result (λ bits. AreRows acts.now width bits.items) }
{
    if acts.len() >= 1 << 32 {
        return Err(NoMemory);
    }
    let order = postorder(alloc, acts)?;
    let columns = columns(alloc, acts, &order, width)?;
    let bits = rows_of(alloc, &columns, acts.len() as u32)?;
    Ok(bits)
}

/// Where the candidates for registers are live. The code need not be valid: what is no form does
/// nothing, and a branch to no instruction goes nowhere. 2^32 instructions or automatics and more
/// are want of memory.
pub fn live(alloc: Global, f: &AFunction) -> Result<Rows, NoMemory>
    ensures { IfOk result (λ rows. AreLiveRows f.now rows) }
{
    let width = words_for(&f.autos.list)?;
    let candidates = register_candidates(alloc, f)?;
    let acts = acts(alloc, &f.code.list, &candidates)?;
    let bits = bits_of(alloc, &acts, width)?;
    Ok(Rows { width, bits })
}
