use crate::Ident;
use sqlite_items::{Boxed, Items};

/// A type of C. `UChar` and its like are the unsigned ones.
#[derive(Drop)]
pub enum CType {
    Void,
    Char,
    UChar,
    Short,
    UShort,
    Int,
    UInt,
    Long,
    ULong,
    Pointer(Boxed<CType>),
    /// Elements of one type, and how many.
    Array(Boxed<CType>, u32),
    /// A result and parameters.
    Function(Boxed<CType>, Items<CType>),
    /// The structure or union with this number in the module's tags.
    Tagged(u32),
}

/// A member of a structure or union. An unnamed substructure has an empty name.
#[derive(Drop)]
pub struct Member {
    pub name: Ident,
    pub ty: CType,
}

/// A structure or union. Without a tag its name is empty, and without a body it has no list of
/// members.
#[derive(Drop)]
pub struct Tag {
    pub is_union: bool,
    pub name: Ident,
    pub members: Option<Items<Member>>,
    /// It was marked as incomplete.
    pub marked: bool,
}

/// The structures and unions of a module, which types name by their place in this list.
#[derive(Drop)]
pub struct Tags {
    pub list: Items<Tag>,
}
