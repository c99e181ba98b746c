use crate::role::Context;
use p9_declare::{Step, Storage};
use p9_lang::{CType, Ident, Member};
use p9_operand::{Constant, Operand, Rule};
use sqlite_items::Items;

/// What an initialiser does to the object that it stands behind: nothing may stand there, or it gives
/// the first contents, or it is assigned.
#[derive(Clone, Copy, PartialEq, Eq, Debug, Drop)]
pub enum Initialiser {
    Nothing,
    First,
    Assigned,
}

/// What a part of a node turned out to be.
#[derive(Drop)]
pub enum Part {
    Value(Operand),
    /// The steps of a declarator that isn't whole yet.
    Declarator(Vec<Step>),
    /// What a declarator declares, with the last node of it.
    Object {
        ty: CType,
        steps: Vec<Step>,
        last: usize,
        initialiser: Initialiser,
    },
    Members(Items<Member>),
    Enumerator {
        name: Ident,
        value: Option<Constant>,
    },
    Parameter(CType),
    NamedType(CType),
    /// A list in braces, which goes to so many positions.
    Braced(u32),
    /// An entry, with the position behind it.
    Filled(u32),
    CaseLabel(u32),
    DefaultLabel,
    Statement,
}

/// What a node keeps while its parts are judged.
#[derive(Drop)]
pub struct Frame {
    pub context: Context,
    /// The type that its spec names.
    pub base: CType,
    /// The structure whose body it has.
    pub tag: Option<u32>,
    /// How many of its parts stand in braces.
    pub braces: u32,
    pub storage: Storage,
    /// The rule that its spec breaks.
    pub rule: Option<Rule>,
}
