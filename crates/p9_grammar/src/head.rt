// What the reader knows of a node that is open.
use p9_lang::{CBinary, CUnary, EntryBy, Ident, SpecWord};
use sqlite_items::Items;

/// Where a declaration's head stands. `Head` is that of the reader of one declaration, which stops
/// at a function's block.
#[derive(Clone, Copy, PartialEq, Eq, Debug, Drop)]
pub enum Context {
    File,
    Head,
    Local,
    Member,
    Param,
    Type,
}

/// Whether a declarator has a name: always, or as it likes, or never. `Hidden` is `Either` directly
/// behind a parenthesis, where a typedef name is not the name.
#[derive(Clone, Copy, PartialEq, Eq, Debug, Drop)]
pub enum Naming {
    Named,
    Either,
    Hidden,
    Bare,
}

/// What a node may be where it stands. Expressions and declarators go by how tightly they bind.
#[derive(Clone, Copy, PartialEq, Eq, Debug, Drop)]
pub enum Class {
    Expression(u8),
    Declarator(Naming, u8),
    Initialiser,
    Entry,
    Param,
    /// A parameter that stands alone in its list.
    OnlyParam,
    Type,
    Member,
    Constant,
    FileItem,
    HeadItem,
    BlockItem,
    /// Whether it may end in an `if` without `else`.
    Statement(bool),
    SwitchItem,
    Body,
}

/// How far the reader has come in a node that is open.
#[derive(Drop)]
pub enum Head {
    // What is read as a whole.
    FileItems,
    FileOver,
    GoalExpression,
    GoalRead,
    GoalOver,
    GoalHead,
    HeadRead,
    HeadOver(Items<SpecWord>),
    // Expressions.
    Opened(u8),
    Group,
    GroupEnd,
    CastType,
    CastEnd,
    CastOf,
    UnaryOf(CUnary),
    PreOf(bool),
    SizeofStart,
    SizeofOpen,
    SizeofOf,
    SizeofType,
    SizeofEnd,
    BinaryOf(CBinary),
    AssignOf(Option<CBinary>),
    CommaOf,
    ChooseYes,
    ChooseColon,
    ChooseNo,
    IndexOf,
    IndexEnd,
    CallStart,
    CallNext,
    CallMore,
    DotOf(bool),
    // Statements.
    BlockItems,
    ExpressionOf,
    ExpressionEnd,
    IfStart,
    IfTest,
    IfEnd,
    IfThen,
    IfThenEnd,
    IfElse,
    WhileStart,
    WhileTest,
    WhileEnd,
    WhileBody,
    DoBody,
    DoWhile,
    DoOpen,
    DoTest,
    DoClose,
    DoEnd,
    ForStart,
    ForFirst,
    ForFirstEnd,
    ForTest(bool),
    ForTestEnd(bool),
    ForStep(bool, bool),
    ForStepEnd(bool, bool),
    ForBody(bool, bool, bool),
    SwitchStart,
    SwitchValue,
    SwitchEnd,
    SwitchBrace,
    SwitchItems,
    CaseOf,
    CaseEnd,
    DefaultEnd,
    BreakEnd,
    ContinueEnd,
    ReturnOf,
    ReturnEnd,
    // Heads of declarations.
    Spec(Context, Items<SpecWord>),
    TagStart(Context, Items<SpecWord>, bool),
    TagNamed(Context, Items<SpecWord>, bool, Ident),
    Members(Context, Items<SpecWord>, bool, Ident, u32),
    EnumStart(Context, Items<SpecWord>),
    EnumNamed(Context, Items<SpecWord>, Ident),
    Constants(Context, Items<SpecWord>, Ident, u32),
    ConstantsNext(Context, Items<SpecWord>, Ident, u32),
    ConstantsComma(Context, Items<SpecWord>, Ident, u32),
    ConstantNamed(Ident),
    ConstantOf(Ident),
    // Declarations.
    Declarators(Context, Items<SpecWord>, Items<bool>),
    Declared(Context, Items<SpecWord>, Items<bool>),
    Initialised(Context, Items<SpecWord>, Items<bool>),
    InitialisedEnd(Context, Items<SpecWord>, Items<bool>),
    FunctionBody(Items<SpecWord>),
    MemberDeclarators(Items<SpecWord>),
    MemberDeclared(Items<SpecWord>),
    ParamOf(Items<SpecWord>),
    TypeOf(Items<SpecWord>),
    // Declarators.
    Stars(Naming, Items<bool>),
    DeclOpened(Naming),
    DeclGroup(Naming),
    DeclGroupEnd(Naming),
    BracketsStart(bool),
    BracketsEnd(bool),
    ParamsStart(bool),
    ParamsNext(bool),
    ParamsLone(bool),
    ParamsMore(bool),
    ParamsVoid(bool),
    // Initialisers.
    ListStart,
    ListNext,
    ListComma,
    EntryIndex,
    EntryIndexEnd,
    EntryDot,
    EntryNamed(EntryBy),
    EntryOf(EntryBy, bool),
}
