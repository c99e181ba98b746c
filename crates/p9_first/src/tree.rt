use crate::Ident;
use sqlite_items::Items;

/// A word of a declaration's head.
#[derive(Drop)]
pub enum SpecWord {
    Extern,
    Static,
    Typedef,
    Auto,
    Register,
    Const,
    Volatile,
    Void,
    Char,
    Short,
    Int,
    Long,
    Signed,
    Unsigned,
    TypeName(Ident),
    /// Without braces there is no count of members. An empty name is no name.
    Tag {
        is_union: bool,
        name: Ident,
        members: Option<u32>,
    },
    /// Without braces there is no count of constants. `comma` tells of one behind the last.
    Enum {
        name: Ident,
        consts: Option<u32>,
        comma: bool,
    },
}

/// The head of a declaration, its words in the order of the tokens.
#[derive(Drop)]
pub struct Spec {
    pub words: Items<SpecWord>,
}

/// How an entry of an initialiser names its place.
#[derive(Drop)]
pub enum EntryBy {
    Nothing,
    Index,
    Member(Ident),
}

#[derive(Clone, Copy, PartialEq, Eq, Debug, Drop)]
pub enum CUnary {
    Address,
    Deref,
    Plus,
    Minus,
    Complement,
    Not,
}

#[derive(Clone, Copy, PartialEq, Eq, Debug, Drop)]
pub enum CBinary {
    Mul,
    Div,
    Rem,
    Add,
    Sub,
    Shl,
    Shr,
    Lt,
    Gt,
    Le,
    Ge,
    Eq,
    Ne,
    And,
    Xor,
    Or,
    AndAnd,
    OrOr,
}

/// What a node is. The comments name its parts in order; one in brackets may be absent, and where
/// the kind has a flag for it, it is there exactly where the flag is set. A node with a `Spec` has
/// before these parts the members or constants in that spec's braces.
#[derive(Drop)]
pub enum Kind {
    /// Declarators, each with its initialiser where its flag is set.
    Declaration {
        spec: Spec,
        inits: Items<bool>,
    },
    /// Declarator, block.
    Function {
        spec: Spec,
    },
    /// Declarators.
    Member {
        spec: Spec,
    },
    /// [value]
    EnumConst {
        name: Ident,
        valued: bool,
    },
    DeclName(Ident),
    /// [declarator]; one flag for each word, clear for `const`.
    Star {
        volatiles: Items<bool>,
    },
    /// [declarator], [length]
    Brackets {
        inner: bool,
        sized: bool,
    },
    /// [declarator], parameters
    Params {
        inner: bool,
        void_word: bool,
    },
    /// Declarator.
    DeclParens,
    /// [declarator]
    Param {
        spec: Spec,
    },
    /// [declarator]; a type in a cast or `sizeof`.
    NamedType {
        spec: Spec,
    },
    /// Entries.
    InitList {
        comma: bool,
    },
    /// Index for `Index` alone, initialiser.
    Entry {
        by: EntryBy,
        equals: bool,
    },
    /// Declarations and statements.
    Block,
    /// [expression]
    Expression,
    /// Test, statement, [statement].
    If,
    /// Test, statement.
    While,
    /// Statement, test.
    Do,
    /// [first], [test], [step], statement
    For {
        first: bool,
        test: bool,
        step: bool,
    },
    /// Value, labels and statements.
    Switch,
    /// Constant.
    Case,
    Default,
    Break,
    Continue,
    /// [value]
    Return,
    /// Array, index.
    Index,
    /// Function, arguments.
    Call,
    /// Operand.
    Dot {
        arrow: bool,
        name: Ident,
    },
    /// Operand.
    Post {
        minus: bool,
    },
    /// Operand.
    Pre {
        minus: bool,
    },
    /// Operand.
    Unary(CUnary),
    /// Operand.
    SizeofValue,
    /// Type.
    SizeofType,
    /// Type, operand.
    Cast,
    /// Left, right.
    Binary(CBinary),
    /// Test, two values.
    Choose,
    /// Place, value; no operator for `=`.
    Assign(Option<CBinary>),
    /// Left, right; joined to the left.
    Comma,
    /// Expression.
    Parens,
    Name(Ident),
    Number {
        value: u32,
        unsigned: bool,
        long: bool,
    },
    Character(u32),
    /// Texts that stand side by side, one node.
    Text(Items<Ident>),
}

/// A node: its kind, the place of its first token in the list, and its parts in order.
#[derive(Drop)]
pub struct Node {
    pub kind: Kind,
    pub token: u32,
    pub parts: Items<Node>,
}

/// A file: its items in order, and the tags that are marked as incomplete.
#[derive(Drop)]
pub struct Tree {
    pub items: Items<Node>,
    pub marks: Items<Ident>,
}
