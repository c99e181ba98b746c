// Which sorts of operands may come behind others, by the operation.
ghost use Rattle.std.specs.Prelude.{◌≡◌, map};
ghost use Rattle.p9_abs.specs.Forms.{operand_kind};
ghost use Rattle.p9_object.specs.Machine.{sorts, next_of_move, next_of_signed, next_of_unsigned, next_of_arithmetic, next_of_product, next_of_pair_branch, next_of_sign_branch, next_of_jump, next_of_call, may_follow, shifts, is_constant_of};
ghost use Rattle.p9_instr.specs.Places.{sort};

use crate::sorts::{
    Sort, extends_to, is_called, is_counted, is_moved, is_part_moved, is_register, is_target,
    moves_to, part_moves_to, sort_of,
};
use p9_abs::{Op, Operand};

fn next_of_move(before: &[Operand], next: Sort) -> bool
    ensures { result ≡ next_of_move (sorts (map operand_kind before.now)) (sort next) }
{
    match before {
        [] => is_moved(next),
        [first] => moves_to(sort_of(*first), next),
        _ => false,
    }
}

fn next_of_signed(before: &[Operand], next: Sort) -> bool
    ensures { result ≡ next_of_signed (sorts (map operand_kind before.now)) (sort next) }
{
    match before {
        [] => is_part_moved(next),
        [first] => part_moves_to(sort_of(*first), next),
        _ => false,
    }
}

fn next_of_unsigned(before: &[Operand], next: Sort) -> bool
    ensures { result ≡ next_of_unsigned (sorts (map operand_kind before.now)) (sort next) }
{
    match before {
        [] => is_part_moved(next),
        [first] => extends_to(sort_of(*first), next),
        _ => false,
    }
}

fn next_of_arithmetic(before: &[Operand], next: Sort) -> bool
    ensures { result ≡ next_of_arithmetic (sorts (map operand_kind before.now)) (sort next) }
{
    match before {
        [] => is_counted(next),
        [first] => is_counted(sort_of(*first)) && is_register(next),
        [first, second] => {
            is_counted(sort_of(*first)) && is_register(sort_of(*second)) && is_register(next)
        }
        _ => false,
    }
}

fn next_of_product(before: &[Operand], next: Sort) -> bool
    ensures { result ≡ next_of_product (sorts (map operand_kind before.now)) (sort next) }
{
    match before {
        [] => is_register(next),
        [first] => is_register(sort_of(*first)) && is_register(next),
        _ => false,
    }
}

fn next_of_pair_branch(before: &[Operand], next: Sort) -> bool
    ensures { result ≡ next_of_pair_branch (sorts (map operand_kind before.now)) (sort next) }
{
    match before {
        [] => is_register(next),
        [first] => is_register(sort_of(*first)) && is_register(next),
        [first, second] => {
            is_register(sort_of(*first)) && is_register(sort_of(*second)) && is_target(next)
        }
        _ => false,
    }
}

fn next_of_sign_branch(before: &[Operand], next: Sort) -> bool
    ensures { result ≡ next_of_sign_branch (sorts (map operand_kind before.now)) (sort next) }
{
    match before {
        [] => is_register(next),
        [first] => is_register(sort_of(*first)) && is_target(next),
        _ => false,
    }
}

fn next_of_jump(before: &[Operand], next: Sort) -> bool
    ensures { result ≡ next_of_jump (sorts (map operand_kind before.now)) (sort next) }
{
    before.is_empty() && is_target(next)
}

fn next_of_call(before: &[Operand], next: Sort) -> bool
    ensures { result ≡ next_of_call (sorts (map operand_kind before.now)) (sort next) }
{
    before.is_empty() && is_called(next)
}

/// Whether an operand of this sort may come behind those of the operation.
pub(crate) fn may_follow(op: Op, before: &[Operand], next: Sort) -> bool
    ensures { result ≡ may_follow op (sorts (map operand_kind before.now)) (sort next) }
{
    match op {
        Op::MovW => next_of_move(before, next),
        Op::MovH | Op::MovB => next_of_signed(before, next),
        Op::MovHU | Op::MovBU => next_of_unsigned(before, next),
        Op::Add
        | Op::AddU
        | Op::Sub
        | Op::SubU
        | Op::And
        | Op::Or
        | Op::Xor
        | Op::Nor
        | Op::Sgt
        | Op::SgtU
        | Op::Sll
        | Op::Srl
        | Op::Sra => next_of_arithmetic(before, next),
        Op::Mul | Op::MulU | Op::Div | Op::DivU => next_of_product(before, next),
        Op::Beq | Op::Bne => next_of_pair_branch(before, next),
        Op::Bgez | Op::Bgtz | Op::Blez | Op::Bltz => next_of_sign_branch(before, next),
        Op::Jmp => next_of_jump(before, next),
        Op::Jal => next_of_call(before, next),
        Op::Ret | Op::Syscall => false,
    }
}

fn shifts(op: Op) -> bool
    ensures { result ≡ shifts op }
{
    match op {
        Op::Sll | Op::Srl | Op::Sra => true,
        _ => false,
    }
}

/// Whether the constant may be one of the operation's operands.
pub(crate) fn is_constant_of(op: Op, value: u32) -> bool
    ensures { result ≡ is_constant_of op value }
{
    !shifts(op) || value < 32
}
