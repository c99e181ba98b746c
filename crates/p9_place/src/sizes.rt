// Sizes of data.
ghost use Rattle.std.specs.Prelude.{◌≡◌, ◌≤◌};
ghost use Rattle.p9_abs.specs.Modules.{piece_size, pieces_size, rounded};

use p9_abs::DataPiece;

fn piece_size(piece: &DataPiece) -> usize
    ensures { result ≡ piece_size piece.now }
{
    match piece {
        DataPiece::Raw(bytes) => bytes.list.len(),
        DataPiece::Address { .. } => 4,
    }
}

/// The bytes of pieces of data.
pub(crate) fn pieces_size(pieces: &[DataPiece]) -> u32
    requires { pieces_size pieces.now ≤ 16777216 }
    ensures { result ≡ pieces_size pieces.now }
{
    let mut size = 0;
    let mut rest = pieces;
    while let [piece, after @ ..] = rest {
        size += piece_size(piece);
        rest = after;
    }
    size as u32
}

/// A size rounded up to a multiple of 4.
pub(crate) fn rounded(size: u32) -> u32
    requires { size ≤ 16777216 }
    ensures { result ≡ rounded size }
{
    (size + 3) / 4 * 4
}
