use sqlite_items::{Boxed, Items};

/// How many bits a load or store moves, and how a narrow one is widened.
#[derive(Clone, Copy, PartialEq, Eq, Debug, Drop)]
pub enum Width {
    S8,
    U8,
    S16,
    U16,
    W32,
}

/// `-`, `~` and `!`.
#[derive(Clone, Copy, PartialEq, Eq, Debug, Drop)]
pub enum UnOp {
    Neg,
    Com,
    Not,
}

/// Operators on two words; `U` marks the unsigned form.
#[derive(Clone, Copy, PartialEq, Eq, Debug, Drop)]
pub enum BinOp {
    Mul,
    Div,
    DivU,
    Rem,
    RemU,
    Add,
    Sub,
    Shl,
    Shr,
    ShrU,
    Lt,
    LtU,
    Gt,
    GtU,
    Le,
    LeU,
    Ge,
    GeU,
    Eq,
    Ne,
    And,
    Xor,
    Or,
}

/// An expression.
#[derive(Drop)]
pub enum TTree {
    Const(u32),
    /// The address of a symbol, moved by so many bytes.
    Addr(u32, u32),
    /// The address of the automatic with this number.
    Auto(u32),
    Load(Width, Boxed<TTree>),
    /// Address, value.
    Store(Width, Boxed<TTree>, Boxed<TTree>),
    /// `op=`: address, right side.
    Update(Width, BinOp, Boxed<TTree>, Boxed<TTree>),
    /// So many bytes, to an address, from one.
    Copy(u32, Boxed<TTree>, Boxed<TTree>),
    Un(UnOp, Boxed<TTree>),
    Bin(BinOp, Boxed<TTree>, Boxed<TTree>),
    /// The low bits of a word, widened.
    Conv(Width, Boxed<TTree>),
    Choose(Boxed<TTree>, Boxed<TTree>, Boxed<TTree>),
    /// `&&` where the flag is set, else `||`.
    Both(bool, Boxed<TTree>, Boxed<TTree>),
    /// `++` or `--`: the prefix form where the flag is set; what is added; the address.
    Step(Width, bool, u32, Boxed<TTree>),
    Seq(Boxed<TTree>, Boxed<TTree>),
    Call(Boxed<TTree>, Items<TTree>),
}

/// A statement.
#[derive(Drop)]
#[cycle(statement)]
pub enum TStmt {
    Nothing,
    Value(TTree),
    /// The automatics that are made when it is entered and die when it is left; its statements.
    Block(Items<u32>, Items<TStmt>),
    If(TTree, Boxed<TStmt>, Option<Boxed<TStmt>>),
    While(TTree, Boxed<TStmt>),
    DoWhile(Boxed<TStmt>, TTree),
    For(Option<TTree>, Option<TTree>, Option<TTree>, Boxed<TStmt>),
    Switch(TTree, Items<TArm>),
    Break,
    Continue,
    Return(Option<TTree>),
    Label(u32),
    Goto(u32),
}

/// A part of a `switch`.
#[derive(Drop)]
#[cycle(statement)]
pub enum TArm {
    Case(u32),
    Default,
    Stmt(TStmt),
}
