// What a field makes of a place in a piece of data.
ghost use Rattle.std.specs.Prelude.{◌≡◌, ◌-◌, ◌<◌, ◌^◌, length, IfOk};
ghost use Rattle.p9_abs.specs.declared.modules.DataPiece.TheVariants.{Raw};
ghost use Rattle.p9_abs.specs.Modules.{piece_size, pieces_size};
ghost use Rattle.p9_object.specs.Bytes.{width_bytes, piece_width};
ghost use Rattle.p9_object.specs.Machine.{ends_raw, stay_if, piece_step, AtPiece};
ghost use Rattle.p9_object.specs.Fields.{Byte};
ghost use Rattle.p9_steps.specs.Places.{piece_place, piece_turn, piece_read};
ghost use Rattle.p9_steps.specs.Room.{is_raw, is_room};

use crate::places::{PiecePlace, PieceTurn};
use p9_abs::DataPiece;
use p9_base::{Bytes, NoMemory};
use p9_instr::{byte, word};
use std::alloc::Global;

fn is_raw(piece: &DataPiece) -> bool
    ensures { result ≡ is_raw piece.now }
{
    match piece {
        DataPiece::Raw(_) => true,
        DataPiece::Address { .. } => false,
    }
}

fn ends_raw(before: &[DataPiece]) -> bool
    ensures { result ≡ ends_raw before.now }
{
    match before.last() {
        None => false,
        Some(last) => is_raw(last),
    }
}

/// The bytes of the piece.
pub(crate) fn piece_size(piece: &DataPiece) -> usize
    ensures { result ≡ piece_size piece.now }
{
    match piece {
        DataPiece::Raw(bytes) => bytes.list.len(),
        DataPiece::Address { .. } => 4,
    }
}

fn stay_if(goes: bool, place: PiecePlace) -> PieceTurn
    ensures { piece_turn result ≡ stay_if goes (piece_place place) }
{
    if goes {
        PieceTurn::Stay(place)
    } else {
        PieceTurn::Bad
    }
}

// Whether so many bytes find room with so many pieces behind them.
fn is_room(left: usize, size: u32, behind: usize) -> bool
    requires { behind < 2 ^ 32 }
    ensures { result ≡ is_room left size behind }
{
    size > 0 && size as usize + 4 * behind <= left && (behind == 0 || size % 4 == 0)
}

fn kind_step(before: &[DataPiece], kind: u8) -> PieceTurn
    ensures { piece_turn result ≡ piece_step 0 before.now 0 AtPiece (Byte kind) }
{
    match kind {
        0 => stay_if(!ends_raw(before), PiecePlace::RawLength),
        1 => PieceTurn::Stay(PiecePlace::Symbol),
        _ => PieceTurn::Bad,
    }
}

fn raw(alloc: Global, field: &[u8]) -> Result<DataPiece, NoMemory>
    ensures { IfOk result (λ piece. piece ≡ Raw field.now) }
{
    let list = Vec::from_slice(alloc, field)?;
    Ok(DataPiece::Raw(Bytes { list }))
}

/// What the bytes of a field make of the place in the piece behind those, with so many pieces to
/// come behind it.
#[tactic(auto, using(crate::proofs::Room::room_is, crate::proofs::Room::same_number))]
pub(crate) fn piece_step(
    alloc: Global,
    symbols: u32,
    before: &[DataPiece],
    left: usize,
    behind: usize,
    place: PiecePlace,
    field: &[u8],
) -> Result<PieceTurn, NoMemory>
    requires width { length field.now ≡ width_bytes (piece_width (piece_place place)) }
    requires left { left ≡ 16777216 - pieces_size before.now }
    requires behind { behind < 2 ^ 32 }
    ensures { IfOk result (λ turn.
        piece_turn turn ≡ piece_read symbols before.now behind (piece_place place) field.now) }
{
    match place {
        PiecePlace::Kind => Ok(kind_step(before, byte(field))),
        PiecePlace::RawLength => {
            let size = word(field);
            Ok(stay_if(is_room(left, size, behind), PiecePlace::Raw(size)))
        }
        PiecePlace::Raw(_) => Ok(PieceTurn::Whole(raw(alloc, field)?)),
        PiecePlace::Symbol => {
            let symbol = word(field);
            Ok(stay_if(symbol < symbols, PiecePlace::Offset(symbol)))
        }
        PiecePlace::Offset(symbol) => Ok(PieceTurn::Whole(DataPiece::Address {
            symbol,
            offset: word(field),
        })),
    }
}
