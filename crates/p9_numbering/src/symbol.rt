// Symbols, whose trees stay in the module.
use p9_lang::{CType, Ident};
use p9_nodes::TypedNode;

/// What a symbol is called: by its name, or as the text or block static with this number.
#[derive(Drop)]
pub enum Title {
    Outer(Ident),
    Static(u32),
}

/// What a symbol is.
#[derive(Clone, Copy)]
pub enum Form<'a> {
    DeclaredOnly,
    Used,
    /// A function by its item.
    Code(TypedNode<'a>),
    /// An object of this type by its initialiser.
    Initial { ty: &'a CType, value: TypedNode<'a> },
    /// An object of this type by texts that stand side by side.
    Text { ty: &'a CType, texts: &'a [Ident] },
    /// An object that begins as zeros.
    Common,
}

/// A symbol of a module.
#[derive(Drop)]
pub struct OutlineSymbol<'a> {
    pub title: Title,
    pub is_local: bool,
    pub ty: CType,
    pub form: Form<'a>,
}
