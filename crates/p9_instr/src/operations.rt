// Operations by their numbers, and what they may do.
ghost use Rattle.std.specs.Prelude.{◌≡◌};
ghost use Rattle.p9_abs.specs.Validity.{writes_last};
ghost use Rattle.p9_object.specs.Machine.{op_among, all_operations, may_end};

use p9_abs::Op;

/// The operation of a number, where it has one.
pub(crate) fn operation(number: u8) -> Option<Op>
    ensures { result ≡ op_among all_operations number }
{
    match number {
        1 => Some(Op::MovW),
        2 => Some(Op::MovH),
        3 => Some(Op::MovHU),
        4 => Some(Op::MovB),
        5 => Some(Op::MovBU),
        6 => Some(Op::Add),
        7 => Some(Op::AddU),
        8 => Some(Op::Sub),
        9 => Some(Op::SubU),
        10 => Some(Op::And),
        11 => Some(Op::Or),
        12 => Some(Op::Xor),
        13 => Some(Op::Nor),
        14 => Some(Op::Sgt),
        15 => Some(Op::SgtU),
        16 => Some(Op::Sll),
        17 => Some(Op::Srl),
        18 => Some(Op::Sra),
        19 => Some(Op::Mul),
        20 => Some(Op::MulU),
        21 => Some(Op::Div),
        22 => Some(Op::DivU),
        23 => Some(Op::Beq),
        24 => Some(Op::Bne),
        25 => Some(Op::Bgez),
        26 => Some(Op::Bgtz),
        27 => Some(Op::Blez),
        28 => Some(Op::Bltz),
        29 => Some(Op::Jmp),
        30 => Some(Op::Jal),
        31 => Some(Op::Ret),
        32 => Some(Op::Syscall),
        _ => None,
    }
}

/// Whether the operation may be a function's last.
pub(crate) fn may_end(op: Op) -> bool
    ensures { result ≡ may_end op }
{
    match op {
        Op::Ret | Op::Jmp => true,
        _ => false,
    }
}

/// Whether the operation writes its last operand.
pub(crate) fn writes_last(op: Op) -> bool
    ensures { result ≡ writes_last op }
{
    match op {
        Op::MovW
        | Op::MovH
        | Op::MovHU
        | Op::MovB
        | Op::MovBU
        | Op::Add
        | Op::AddU
        | Op::Sub
        | Op::SubU
        | Op::And
        | Op::Or
        | Op::Xor
        | Op::Nor
        | Op::Sgt
        | Op::SgtU
        | Op::Sll
        | Op::Srl
        | Op::Sra => true,
        _ => false,
    }
}
