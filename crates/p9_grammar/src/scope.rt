use p9_lang::Ident;

/// A name that is declared, and whether it is a typedef's.
#[derive(Drop)]
pub struct ScopeName {
    pub name: Ident,
    pub is_type: bool,
}
