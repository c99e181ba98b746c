use crate::{CType, Ident, Tags, Tree};
use sqlite_items::Items;

/// What a node stands for.
#[derive(Drop)]
pub enum Bind {
    Nothing,
    /// The object or function of file scope with this name.
    Outer(Ident),
    /// The text or block static with this number in the file.
    Static(u32),
    /// The automatic with this number in its function.
    Auto(u32),
    EnumValue(u32),
    TypeName(CType),
}

/// A tree with a type and a bind for each node, in the order of the nodes' numbers. `statics` has
/// the names of file scope that are declared static.
#[derive(Drop)]
pub struct Module {
    pub tree: Tree,
    pub tags: Tags,
    pub types: Items<CType>,
    pub binds: Items<Bind>,
    pub statics: Items<Ident>,
}
