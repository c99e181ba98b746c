// How many bytes the field at a place has.
ghost use Rattle.std.specs.Prelude.{◌≡◌};
ghost use Rattle.p9_object.specs.Bytes.{width_bytes, piece_width, symbol_width};
ghost use Rattle.p9_steps.specs.Places.{piece_place, symbol_place, state, wanted};

use crate::places::{PiecePlace, State, SymbolPlace};
use p9_instr::instruction_width;

fn piece_width(place: PiecePlace) -> usize
    ensures { result ≡ width_bytes (piece_width (piece_place place)) }
{
    match place {
        PiecePlace::Kind => 1,
        PiecePlace::Raw(size) => size as usize,
        PiecePlace::RawLength | PiecePlace::Symbol | PiecePlace::Offset(_) => 4,
    }
}

fn symbol_width(place: &SymbolPlace) -> usize
    ensures { result ≡ width_bytes (symbol_width (symbol_place place.now)) }
{
    match place {
        SymbolPlace::Binding | SymbolPlace::Kind(_) => 1,
        SymbolPlace::NameLength(_, _) => 2,
        SymbolPlace::Name(_, _, size) => usize::from(*size),
        SymbolPlace::Signature(_, _, _, size) => *size as usize,
        SymbolPlace::Code(part) => instruction_width(&part.place),
        SymbolPlace::Data(part) => piece_width(part.place),
        SymbolPlace::SignatureLength(_, _, _)
        | SymbolPlace::Frame(_)
        | SymbolPlace::Total(_, _)
        | SymbolPlace::Pieces(_)
        | SymbolPlace::Size(_) => 4,
    }
}

/// How many bytes the next field has. None comes behind a whole object.
pub fn width(of: &State) -> Option<usize>
    ensures { result ≡ wanted (state of.now) }
{
    match of {
        State::Magic | State::Version | State::Count => Some(4),
        State::InSymbols(part) => Some(symbol_width(&part.place)),
        State::Done(_) => None,
    }
}
