// Abstract instructions, and the functions that are made of them.
use std::marker::Model;

/// An operation. Sources stand before destinations among the operands.
#[derive(Clone, Copy, Debug, PartialEq, Eq)]
pub enum Op {
    MovW,
    MovH,
    MovHU,
    MovB,
    MovBU,
    Add,
    AddU,
    Sub,
    SubU,
    And,
    Or,
    Xor,
    Nor,
    Sgt,
    SgtU,
    Sll,
    Srl,
    Sra,
    Mul,
    MulU,
    Div,
    DivU,
    Beq,
    Bne,
    Bgez,
    Bgtz,
    Blez,
    Bltz,
    Jmp,
    Jal,
    Ret,
    Syscall,
}

/// An operand. An address or a memory operand names a symbol of the module with an offset from its
/// place (SB), an offset from the first argument's place (FP), or an offset from R29 at entry,
/// modulo 2^32 (SP). `MemReg` is memory at a register and an offset. A label is an instruction's
/// number in its function, and `Func` is a symbol. `Auto` and `AutoAddr` name an automatic of an
/// `AFunction` with an offset; they stand only before the frame is settled.
#[derive(Clone, Copy, Debug, PartialEq, Eq)]
pub enum Operand {
    Reg(u8),
    Const(u32),
    AddrSB(u32, u32),
    AddrFP(u32),
    AddrSP(u32),
    MemSB(u32, u32),
    MemFP(u32),
    MemSP(u32),
    MemReg(u8, u32),
    Label(u32),
    Func(u32),
    Hi,
    Lo,
    Auto(u32, u32),
    AutoAddr(u32, u32),
}

/// The operands of an instruction.
#[derive(Drop)]
pub struct Operands {
    pub list: Vec<Operand>,
}

impl Model for Operands {
    ghost use Rattle.std.specs.Prelude.{List};
    ghost use Rattle.p9_abs.specs.declared.instructions.Operand.{Operand};

    ghost Value = { List Operand };

    ghost view = { λ o. o.list.items };
}

/// An abstract instruction.
#[derive(Drop)]
pub struct Abs {
    pub op: Op,
    pub operands: Operands,
}

/// Instructions in order.
#[derive(Drop)]
pub struct Code {
    pub list: Vec<Abs>,
}

impl Model for Code {
    ghost use Rattle.std.specs.Prelude.{List};
    ghost use Rattle.p9_abs.specs.declared.instructions.Abs.{Abs};

    ghost Value = { List Abs };

    ghost view = { λ c. c.list.items };
}

/// The sizes of a function's automatics.
#[derive(Drop)]
pub struct Autos {
    pub list: Vec<u32>,
}

impl Model for Autos {
    ghost use Rattle.std.specs.Prelude.{List, ℕ};

    ghost Value = { List ℕ };

    ghost view = { λ a. a.list.items };
}

/// Depths of loops, one for each instruction of a function.
#[derive(Drop)]
pub struct Depths {
    pub list: Vec<u8>,
}

impl Model for Depths {
    ghost use Rattle.std.specs.Prelude.{List, ℕ};

    ghost Value = { List ℕ };

    ghost view = { λ d. d.list.items };
}

/// A function over automatics, before its frame is settled.
#[derive(Drop)]
pub struct AFunction {
    pub autos: Autos,
    pub code: Code,
    pub depth: Depths,
}

/// A function with its frame.
#[derive(Drop)]
pub struct TextDef {
    pub frame: u32,
    pub code: Code,
}
