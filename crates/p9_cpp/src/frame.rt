// Lists that wait for the end of the one that is read.
use crate::pile::Pile;
use crate::row::Row;
use crate::uses::Known;
use p9_base::Name;
use p9_lex::Token;

/// A list that waits: what is left of it, and what it has given so far.
#[derive(Drop)]
pub struct Rest {
    pub after: Pile<Token>,
    pub out: Row<Token>,
}

/// The use of a macro with arguments, and the line of its name.
#[derive(Clone, Copy, Drop)]
pub struct Invocation<'a> {
    pub known: Known<'a>,
    pub line: u32,
    pub params: &'a Row<Name>,
}

#[derive(Drop)]
pub enum Frame<'a> {
    /// The body of a macro is read.
    Body(Known<'a>, Rest),
    /// An argument is read. Those in `ready` are expanded; those in `left` follow, then the body.
    Argument {
        invocation: Invocation<'a>,
        ready: Row<Row<Token>>,
        left: Pile<Pile<Token>>,
        rest: Rest,
    },
}
