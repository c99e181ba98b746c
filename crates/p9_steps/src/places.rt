// The places at which a field may come, and what the field makes of them.
ghost use Rattle.std.specs.Prelude.{◌≡◌, ◌-◌};
ghost use Rattle.p9_abs.specs.Modules.{pieces_size};
ghost use Rattle.p9_steps.specs.Names.{Knows};

use crate::names::Names;
use p9_abs::{Code, DataPiece, Pieces, Symbol, Symbols};
use p9_base::{Bytes, Name};
use p9_instr::InstructionPlace;

/// A place in a piece of data: at its kind, at the length of bytes or at so many bytes, at a symbol
/// or at the offset behind it.
#[derive(Clone, Copy, Debug, PartialEq, Eq)]
pub enum PiecePlace {
    Kind,
    RawLength,
    Raw(u32),
    Symbol,
    Offset(u32),
}

/// What a field makes of a place in a piece.
#[derive(Drop)]
pub enum PieceTurn {
    Bad,
    Stay(PiecePlace),
    Whole(DataPiece),
}

/// The kind of a symbol.
#[derive(Clone, Copy, Debug, PartialEq, Eq)]
pub enum Kind {
    Declared,
    Used,
    Text,
    Data,
    Common,
}

/// What stands before a symbol's body.
#[derive(Drop)]
pub struct Head {
    pub local: bool,
    pub kind: Kind,
    pub name: Name,
    pub sig: Bytes,
}

/// A place among the instructions of a function, behind those that are whole.
#[derive(Drop)]
pub struct CodePart {
    pub head: Head,
    pub frame: u32,
    pub total: u32,
    pub before: Code,
    pub place: InstructionPlace,
}

/// A place among pieces of data, behind those that are whole. So many bytes are left of the greatest
/// size, or none.
#[derive(Drop)]
pub struct DataPart {
    pub head: Head,
    pub total: u32,
    pub left: usize,
    pub before: Pieces,
    pub place: PiecePlace,
    ghost counted: { left ≡ 16777216 - pieces_size before },
}

/// A place in a symbol. Each has what was read before it.
#[derive(Drop)]
pub enum SymbolPlace {
    Binding,
    Kind(bool),
    NameLength(bool, Kind),
    Name(bool, Kind, u16),
    SignatureLength(bool, Kind, Name),
    Signature(bool, Kind, Name, u32),
    Frame(Head),
    Total(Head, u32),
    Code(CodePart),
    Pieces(Head),
    Data(DataPart),
    Size(Head),
}

/// What a field makes of a place in a symbol.
#[derive(Drop)]
pub enum SymbolTurn {
    Bad,
    Stay(SymbolPlace),
    Whole(Symbol),
}

/// Whole symbols, with their names to look up.
#[derive(Drop)]
pub struct Found {
    pub symbols: Symbols,
    pub names: Names,
    ghost known: { Knows names.locals.keys names.globals.keys symbols },
}

/// A place among so many symbols, behind those that are whole.
#[derive(Drop)]
pub struct SymbolsPart {
    pub count: u32,
    pub found: Found,
    pub place: SymbolPlace,
}

/// How far a reader is.
#[derive(Drop)]
pub enum State {
    Magic,
    Version,
    Count,
    InSymbols(SymbolsPart),
    Done(Symbols),
}

/// What a field makes of a state: another, or no object goes on with it, or it is another version.
#[derive(Drop)]
pub enum Step {
    Next(State),
    NoObject,
    OtherVersion(u32),
}
