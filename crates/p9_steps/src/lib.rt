//! The objects' reader a field at a time: its places, and what one field more makes of them.
#![tactic(auto)]

mod found;
mod heads;
mod names;
mod pieces;
mod places;
mod states;
mod symbols;
mod widths;

pub use names::Names;
pub use places::{
    CodePart, DataPart, Found, Head, Kind, PiecePlace, PieceTurn, State, Step, SymbolPlace,
    SymbolTurn, SymbolsPart,
};
pub use states::step;
pub use widths::width;
