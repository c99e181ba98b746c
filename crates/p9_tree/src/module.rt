use crate::{TStmt, TTree};
use p9_base::Name;
use p9_lang::{CType, Tags};
use sqlite_items::Items;

/// A function. `autos` has the sizes of its automatics, of which the first `params` are the
/// parameters; `nodes` counts the nodes of its item, calls twice.
#[derive(Drop)]
pub struct TFunction {
    pub symbol: u32,
    pub autos: Items<u32>,
    pub params: u32,
    pub body: TStmt,
    pub nodes: u32,
}

/// An entry of an initialiser: a scalar or a text at an offset. `inside` is false where it lies
/// outside its object; then `node` is that of the entry or text that does.
#[derive(Drop)]
pub struct TEntry {
    pub offset: u32,
    pub ty: CType,
    pub node: u32,
    pub inside: bool,
    pub value: TTree,
}

/// The initialiser of a symbol.
#[derive(Drop)]
pub struct TInit {
    pub symbol: u32,
    pub entries: Items<TEntry>,
}

/// What a module does with a name.
#[derive(Clone, Copy, PartialEq, Eq, Debug, Drop)]
pub enum State {
    Declared,
    Used,
    Defined,
    Common,
}

#[derive(Drop)]
pub struct TSym {
    pub name: Name,
    pub local: bool,
    pub ty: CType,
    pub state: State,
}

/// A module: its symbols, its structures, its functions, and the initialisers of its symbols in
/// the rising order of these.
#[derive(Drop)]
pub struct TModule {
    pub symbols: Items<TSym>,
    pub tags: Tags,
    pub functions: Items<TFunction>,
    pub inits: Items<TInit>,
}
