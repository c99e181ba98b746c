use p9_lang::CType;

/// What a part is to the node that it is a part of: what it is asked to be, and what it fills.
#[derive(Drop)]
pub enum Role {
    Plain,
    /// The whole of an expression statement.
    Whole,
    /// A declarator of a declaration or a function.
    Declares {
        is_block_static: bool,
        heads_body: bool,
    },
    /// A parameter, with its number in the list.
    ParameterOf {
        is_own: bool,
        number: u32,
    },
    /// A member or an enumeration constant in braces. The names of the members before it are lent to
    /// whoever asks for them.
    InBraces,
    /// An entry of a list for an object of this type, if that is known.
    EntryOf {
        list: Option<CType>,
        next: u32,
    },
    /// The initialiser of a static object or of a part of one.
    Fills(CType),
    /// The initialiser of an automatic.
    Assigns(CType),
    /// An initialiser for which there is no place.
    Outside,
}

/// Where a node stands.
#[derive(Drop)]
pub struct Context {
    pub is_in_loop: bool,
    pub is_in_switch: bool,
    pub result: Option<CType>,
    pub role: Role,
}
