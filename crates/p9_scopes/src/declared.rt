use p9_lang::{Bind, CType, Ident};

/// A name that is declared, with its type and what it stands for. `is_filled` tells of a body or an
/// initialiser.
#[derive(Drop)]
pub struct Declared {
    pub name: Ident,
    pub ty: CType,
    pub means: Bind,
    pub is_static: bool,
    pub is_filled: bool,
}
