use p9_lang::CBinary;

/// What an access moves: an integer of a type, where a word stands for `int`, `long` and their unsigned
/// forms; or a pointer.
#[derive(Clone, Copy, PartialEq, Eq, Debug, Drop)]
pub enum Scalar {
    Char,
    UnsignedChar,
    Short,
    UnsignedShort,
    Word,
    Pointer,
}

/// What an operator does with its two operands, as their types decide it.
#[derive(Clone, Copy, PartialEq, Eq, Debug, Drop)]
pub enum Operation {
    /// Of integers, unsigned or not.
    Words(CBinary, bool),
    /// A pointer moves by a number of elements: backwards or not, their size, and whether the number is unsigned.
    Advance(bool, u32, bool),
    /// The same forwards, with the number at the left.
    AdvanceBy(u32, bool),
    /// How many elements of this size lie between two pointers.
    Between(u32),
    Less,
    Greater,
    LessOrEqual,
    GreaterOrEqual,
    Equal,
    NotEqual,
}

/// An operation of linear code. It takes its operands from the top of the stack, the last one first, and
/// pushes what it gives. A node is that where the operation may be undefined, by its number in its module.
#[derive(Clone, Copy, PartialEq, Eq, Debug, Drop)]
pub enum Op {
    Number(u32),
    /// The address of an object, with an offset.
    Object(u32, u32),
    /// The address of a function, by its number.
    Function(u32),
    /// The address of an automatic, counted from the first one of the call.
    Automatic(u32),
    /// By an address: what is moved, node.
    Load(Scalar, u32),
    /// Of a value, below which is an address: what is moved, node.
    Store(Scalar, u32),
    /// A structure's copy, from the address at the top to that below it: size, alignment, node of the lvalue
    /// that is read, node.
    Copy(u32, u32, u32, u32),
    /// Leaves a value, and fails at one that a call did not give.
    Use,
    /// Leaves null in place of a value.
    Null,
    /// An integer's low bits, as of a type; node.
    Narrow(Scalar, u32),
    /// An address moved to a member or substructure: offset, node.
    Inner(u32, u32),
    /// What is done with two operands, node.
    Operate(Operation, u32),
    Negate(u32),
    Complement(u32),
    /// 1 where a test holds, else 0: whether it is of a pointer, node.
    Truth(bool, u32),
    /// 0 where a test holds, else 1.
    Not(bool, u32),
    /// Leaves no value, of the node.
    Void(u32),
    /// Pushes the top once more.
    Twice,
    /// Pushes what is below the top once more.
    Over,
    Swap,
    /// Puts the top once more below the value that is below it.
    Tuck,
    /// A call, with so many arguments above the function: the number of the function's type, node.
    Call(u32, u32, u32),
    /// What a call of a function with an integer result gives; node.
    Answer(u32),
    Pop,
    /// A new automatic of this size.
    Make(u32),
    /// The automatics die but for so many.
    Leave(u32),
    Jump(u32),
    /// A test, and where to go on if it does not hold: whether it is of a pointer, node.
    Branch(bool, u32, u32),
    /// Where to go on without the top, if that is this word.
    Case(u32, u32),
    /// A turn of a loop.
    Turn,
    /// What has no meaning at a node.
    NoMeaning(u32),
    /// What has no meaning at the node that called.
    Stray,
    /// A function or a type to which no number was given.
    Unnumbered,
    /// Pushes no value, of the node that called.
    Nothing,
    Return,
}
