use p9_lang::Ident;

/// The word before a tag.
#[derive(Clone, Copy, PartialEq, Eq, Debug, Drop)]
pub enum Keyword {
    Struct,
    Union,
    Enum,
}

/// A tag in scope: of a structure or union its number, and whether its braces have been opened.
#[derive(Drop)]
pub struct TagName {
    pub name: Ident,
    pub keyword: Keyword,
    pub number: u32,
    pub has_body: bool,
}
