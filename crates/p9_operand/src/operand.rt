use p9_lang::CType;

/// What an expression is as a constant: none; an integer constant whose evaluation is undefined, or
/// gives a word; or null, the number 0 cast to `void*`.
#[derive(Clone, Copy, PartialEq, Eq, Debug, Drop)]
pub enum Constant {
    NotConstant,
    Undefined,
    Value(u32),
    Null,
}

/// An expression, or the type named in a cast or `sizeof`, to the operator that it is an operand of.
#[derive(Drop)]
pub struct Operand {
    pub ty: CType,
    pub is_lvalue: bool,
    pub constant: Constant,
}

/// What an operator makes of its operands.
#[derive(Drop)]
pub struct Verdict {
    pub ty: CType,
    pub is_lvalue: bool,
}
