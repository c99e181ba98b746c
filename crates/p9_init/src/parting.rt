// Cells as the pieces of an object's data.
ghost use Rattle.std.specs.Prelude.{◌≡◌, ◌≤◌, ℕ, length, IfOk, OnOk, List, All};
ghost use Rattle.p9_abs.specs.Validity.{IsFilled};
ghost use Rattle.p9_lang.specs.Symbols.{Symbol};
ghost use Rattle.p9_cmean.specs.Union.{Union};
ghost use Rattle.p9_init.specs.Cells.{ArePlaced};
ghost use Rattle.p9_init.specs.Pieces.{MeanCells, with_raw};

use crate::cell::InitCell;
use p9_abs::{DataPiece, Pieces};
use p9_base::{Bytes, NoMemory};
use std::alloc::Global;

// Puts the bytes behind the pieces, as one more, where there are some.
fn with_raw(mut pieces: Vec<DataPiece>, raw: Vec<u8>) -> Result<Vec<DataPiece>, NoMemory>
    ensures { IfOk result (λ all. all.items ≡ with_raw pieces.items raw.items) }
{
    if !raw.is_empty() {
        pieces.push(DataPiece::Raw(Bytes { list: raw }))?;
    }
    Ok(pieces)
}

/// The pieces that cells are: runs of bytes, and addresses.
pub(crate) fn pieces_of(alloc: Global, cells: &[InitCell]) -> Result<Pieces, NoMemory>
    requires placed { ArePlaced cells.now }
    requires size { length cells.now ≤ 16777216 }
    ensures means { IfOk result (λ pieces. MeanCells pieces cells.now) }
    ensures filled { IfOk result (λ pieces. All IsFilled pieces) }
{
    let mut pieces = Vec::new(alloc);
    let mut raw = Vec::new(alloc);
    let mut at = 0;
    while at < cells.len() {
        match cells[at] {
            InitCell::Byte(byte) => {
                raw.push(byte)?;
                at += 1;
            }
            InitCell::Part { symbol, offset, .. } => {
                pieces = with_raw(pieces, raw)?;
                raw = Vec::new(alloc);
                pieces.push(DataPiece::Address { symbol, offset })?;
                at += 4;
            }
        }
    }
    let list = with_raw(pieces, raw)?;
    Ok(Pieces { list })
}
