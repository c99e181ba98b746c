// Whether data are spelled and placed as they should, and of a size in range.
ghost use Rattle.std.specs.Prelude.{◌↔◌, ◌≡◌, ◌≤◌, IsTrue, All, length};
ghost use Rattle.p9_abs.specs.Modules.{piece_size, pieces_size};
ghost use Rattle.p9_abs.specs.Validity.{IsFilled, NoRawNeighbours, AddressesAligned, IsWellPieced, HasWellPieced, HasSizeInRange};
ghost use Rattle.p9_obj.specs.Rules.{IsSize, is_raw, begins_raw};

use p9_abs::{Body, DataPiece};

const LARGEST: usize = 16777216;

fn is_filled(piece: &DataPiece) -> bool
    ensures { IsTrue result ↔ IsFilled piece.now }
{
    match piece {
        DataPiece::Raw(bytes) => !bytes.list.is_empty(),
        DataPiece::Address { .. } => true,
    }
}

fn are_filled(pieces: &[DataPiece]) -> bool
    ensures { IsTrue result ↔ All IsFilled pieces.now }
{
    pieces.iter().all(is_filled)
}

fn is_raw(piece: &DataPiece) -> bool
    ensures { result ≡ is_raw piece.now }
{
    match piece {
        DataPiece::Raw(_) => true,
        DataPiece::Address { .. } => false,
    }
}

fn begins_raw(pieces: &[DataPiece]) -> bool
    ensures { result ≡ begins_raw pieces.now }
{
    match pieces {
        [first, ..] => is_raw(first),
        [] => false,
    }
}

fn are_parted(pieces: &[DataPiece]) -> bool
    ensures { IsTrue result ↔ NoRawNeighbours pieces.now }
{
    let mut rest = pieces;
    while let [piece, after @ ..] = rest {
        if is_raw(piece) && begins_raw(after) {
            return false;
        }
        rest = after;
    }
    true
}

fn piece_size(piece: &DataPiece) -> usize
    ensures { result ≡ piece_size piece.now }
{
    match piece {
        DataPiece::Raw(bytes) => bytes.list.len(),
        DataPiece::Address { .. } => 4,
    }
}

fn are_aligned(pieces: &[DataPiece]) -> bool
    requires { pieces_size pieces.now ≤ LARGEST }
    ensures { IsTrue result ↔ AddressesAligned 0 pieces.now }
{
    let mut place = 0;
    let mut rest = pieces;
    while let [piece, after @ ..] = rest {
        if place % 4 != 0 && !is_raw(piece) {
            return false;
        }
        place += piece_size(piece);
        rest = after;
    }
    true
}

fn is_well_pieced(pieces: &[DataPiece]) -> bool
    requires { pieces_size pieces.now ≤ LARGEST }
    ensures { IsTrue result ↔ IsWellPieced pieces.now }
{
    !pieces.is_empty() && are_filled(pieces) && are_parted(pieces) && are_aligned(pieces)
}

/// Whether the body's data, if it has any, are spelled and placed as they should.
pub(crate) fn has_well_pieced(body: &Body) -> bool
    requires { HasSizeInRange body.now }
    ensures { IsTrue result ↔ HasWellPieced body.now }
{
    match body {
        Body::Data(pieces) => is_well_pieced(&pieces.list),
        _ => true,
    }
}

fn is_size(pieces: &[DataPiece]) -> bool
    ensures { IsTrue result ↔ IsSize (pieces_size pieces.now) }
{
    let mut left = LARGEST;
    let mut rest = pieces;
    while let [piece, after @ ..] = rest {
        let size = piece_size(piece);
        if size > left {
            return false;
        }
        left -= size;
        rest = after;
    }
    left < LARGEST
}

/// Whether the body's size, if it has one, is from 1 to 16 MiB.
pub(crate) fn has_size_in_range(body: &Body) -> bool
    ensures { IsTrue result ↔ HasSizeInRange body.now }
{
    match body {
        Body::Data(pieces) => is_size(&pieces.list),
        Body::Common(size) => *size >= 1 && *size <= 16777216,
        _ => true,
    }
}
