// Modules: symbols, each with what it stands for.
use crate::instructions::TextDef;
use p9_base::{Bytes, Name};
use std::marker::Model;

/// A piece of initialised data: bytes as they stand, or the address of a symbol with an offset.
#[derive(Drop)]
pub enum DataPiece {
    Raw(Bytes),
    Address { symbol: u32, offset: u32 },
}

/// The pieces of a data definition, in order.
#[derive(Drop)]
pub struct Pieces {
    pub list: Vec<DataPiece>,
}

impl Model for Pieces {
    ghost use Rattle.std.specs.Prelude.{List};
    ghost use Rattle.p9_abs.specs.declared.modules.DataPiece.{DataPiece};

    ghost Value = { List DataPiece };

    ghost view = { λ p. p.list.items };
}

/// What a symbol stands for in its module. `Common` is data of that size, all zeros, that several
/// modules may define.
#[derive(Drop)]
pub enum Body {
    Declared,
    Used,
    Text(TextDef),
    Data(Pieces),
    Common(u32),
}

/// A record of a name in a module. An empty signature is none.
#[derive(Drop)]
pub struct Symbol {
    pub name: Name,
    pub local: bool,
    pub sig: Bytes,
    pub body: Body,
}

/// Symbols in order.
#[derive(Drop)]
pub struct Symbols {
    pub list: Vec<Symbol>,
}

impl Model for Symbols {
    ghost use Rattle.std.specs.Prelude.{List};
    ghost use Rattle.p9_abs.specs.declared.modules.Symbol.{Symbol};

    ghost Value = { List Symbol };

    ghost view = { λ s. s.list.items };
}

/// A module. Instructions and pieces of data name symbols by their numbers.
#[derive(Drop)]
pub struct AModule {
    pub symbols: Symbols,
}

/// A symbol of several modules: its module's number, and its own among that module's symbols.
#[derive(Clone, Copy, Debug, PartialEq, Eq)]
pub struct Def {
    pub module: u32,
    pub symbol: u32,
}
