// The numbers of a module's symbols, as maps.
ghost use Rattle.std.proofs.Props.{props};
ghost use Rattle.p9_numbering.specs.Told.{symbols_told};
ghost use Rattle.p9_numbering.specs.Maps.{NumbersOuters, NumbersStatics};

use crate::symbol::OutlineSymbol;
use indexmap::IndexMap;
use p9_nodes::Source;

/// The numbers of a module's symbols, from 0 on in their order.
#[derive(Drop)]
pub struct Numbering<'a> {
    pub source: &'a Source<'a>,
    pub symbols: &'a [OutlineSymbol<'a>],
    pub(crate) outers: IndexMap<&'a [u8], u32>,
    pub(crate) statics: IndexMap<u32, u32>,
    ghost numbers_outers: { NumbersOuters (symbols_told source.now.typed.now symbols.now) outers.entries } by { Prim.hlevel props },
    ghost numbers_statics: { NumbersStatics (symbols_told source.now.typed.now symbols.now) statics.entries } by { Prim.hlevel props },
}
