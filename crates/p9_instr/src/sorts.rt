// The sorts of operands.
ghost use Rattle.std.specs.Prelude.{◌≡◌};
ghost use Rattle.p9_abs.specs.Forms.{operand_kind};
ghost use Rattle.p9_object.specs.Machine.{sort_of, is_register, is_target, is_moved, moves_to, is_part_moved, part_moves_to, extends_to, is_counted, is_called, RegisterSort};
ghost use Rattle.p9_instr.specs.Places.{sort};

use p9_abs::Operand;

/// What is known of an operand by its kind's number alone.
#[derive(Clone, Copy, Debug, PartialEq, Eq)]
pub enum Sort {
    Register,
    Constant,
    Address,
    Memory,
    HiLo,
    Target,
    Function,
}

/// The sort of an operand.
pub(crate) fn sort_of(operand: Operand) -> Sort
    ensures { sort result ≡ sort_of (operand_kind operand) }
{
    match operand {
        Operand::Reg(_) => Sort::Register,
        Operand::Const(_) => Sort::Constant,
        Operand::AddrSB(_, _) => Sort::Address,
        Operand::AddrFP(_) => Sort::Address,
        Operand::AddrSP(_) => Sort::Address,
        Operand::AutoAddr(_, _) => Sort::Address,
        Operand::MemSB(_, _) => Sort::Memory,
        Operand::MemFP(_) => Sort::Memory,
        Operand::MemSP(_) => Sort::Memory,
        Operand::MemReg(_, _) => Sort::Memory,
        Operand::Auto(_, _) => Sort::Memory,
        Operand::Hi => Sort::HiLo,
        Operand::Lo => Sort::HiLo,
        Operand::Label(_) => Sort::Target,
        Operand::Func(_) => Sort::Function,
    }
}

pub(crate) fn is_register(of: Sort) -> bool
    ensures { result ≡ is_register (sort of) }
{
    match of {
        Sort::Register => true,
        _ => false,
    }
}

pub(crate) fn is_target(of: Sort) -> bool
    ensures { result ≡ is_target (sort of) }
{
    match of {
        Sort::Target => true,
        _ => false,
    }
}

/// Whether a word may be moved from there.
pub(crate) fn is_moved(of: Sort) -> bool
    ensures { result ≡ is_moved (sort of) }
{
    match of {
        Sort::Target | Sort::Function => false,
        _ => true,
    }
}

fn takes_register(of: Sort) -> bool
    ensures { result ≡ moves_to RegisterSort (sort of) }
{
    match of {
        Sort::Register | Sort::Memory | Sort::HiLo => true,
        _ => false,
    }
}

/// Whether a word may be moved from the one to the other.
pub(crate) fn moves_to(from: Sort, to: Sort) -> bool
    ensures { result ≡ moves_to (sort from) (sort to) }
{
    match from {
        Sort::Register => takes_register(to),
        Sort::Target | Sort::Function => false,
        _ => is_register(to),
    }
}

/// Whether a part of a word may be moved from there.
pub(crate) fn is_part_moved(of: Sort) -> bool
    ensures { result ≡ is_part_moved (sort of) }
{
    match of {
        Sort::Register | Sort::Memory => true,
        _ => false,
    }
}

/// Whether a part of a word may be moved from the one to the other.
pub(crate) fn part_moves_to(from: Sort, to: Sort) -> bool
    ensures { result ≡ part_moves_to (sort from) (sort to) }
{
    match from {
        Sort::Register => is_part_moved(to),
        Sort::Memory => is_register(to),
        _ => false,
    }
}

/// Whether a part of a word may be extended from the one to the other.
pub(crate) fn extends_to(from: Sort, to: Sort) -> bool
    ensures { result ≡ extends_to (sort from) (sort to) }
{
    match from {
        Sort::Register | Sort::Memory => is_register(to),
        _ => false,
    }
}

/// Whether it is a register or a constant.
pub(crate) fn is_counted(of: Sort) -> bool
    ensures { result ≡ is_counted (sort of) }
{
    match of {
        Sort::Register | Sort::Constant => true,
        _ => false,
    }
}

/// Whether it may be called.
pub(crate) fn is_called(of: Sort) -> bool
    ensures { result ≡ is_called (sort of) }
{
    match of {
        Sort::Register | Sort::Function => true,
        _ => false,
    }
}
