// What a field makes of a place in an operand.
ghost use Rattle.std.specs.Prelude.{◌≡◌, map, length};
ghost use Rattle.p9_abs.specs.Forms.{operand_kind};
ghost use Rattle.p9_object.specs.Bytes.{number_of, width_bytes, operand_width};
ghost use Rattle.p9_object.specs.Machine.{is_own_register, is_in_frame, tag_step, stay_if, whole_if, AtRegister};
ghost use Rattle.p9_instr.specs.Places.{sort, around, operand_place, operand_turn, operand_read};

use crate::fields::{byte, word};
use crate::places::{Limits, OperandPlace, OperandTurn};
use crate::rows::{is_constant_of, may_follow};
use crate::sorts::Sort;
use p9_abs::{Op, Operand};

/// Whether a module may name the register.
pub(crate) fn is_own_register(register: u8) -> bool
    ensures { result ≡ is_own_register register }
{
    register < 32 && register != 26 && register != 27 && register != 28
}

fn is_in_frame(frame: u32, offset: u32) -> bool
    ensures { result ≡ is_in_frame frame offset }
{
    offset as u64 + frame as u64 >= 0x1_0000_0000
}

fn stay_if(goes: bool, place: OperandPlace) -> OperandTurn
    ensures { operand_turn result ≡ stay_if goes (operand_place place) }
{
    if goes {
        OperandTurn::Stay(place)
    } else {
        OperandTurn::Bad
    }
}

fn whole_if(goes: bool, operand: Operand) -> OperandTurn
    ensures { operand_turn result ≡ whole_if goes operand }
{
    if goes {
        OperandTurn::Whole(operand)
    } else {
        OperandTurn::Bad
    }
}

fn register_if(goes: bool) -> OperandTurn
    ensures { operand_turn result ≡ stay_if goes AtRegister }
{
    if goes {
        OperandTurn::Register
    } else {
        OperandTurn::Bad
    }
}

fn kind_step(limits: Limits, op: Op, before: &[Operand], kind: u8) -> OperandTurn
    ensures { operand_turn result ≡ tag_step (around limits op before.now) kind }
{
    let has_frame = limits.frame > 0;
    match kind {
        1 => register_if(may_follow(op, before, Sort::Register)),
        2 => stay_if(
            may_follow(op, before, Sort::Constant),
            OperandPlace::Constant,
        ),
        3 => stay_if(
            may_follow(op, before, Sort::Address),
            OperandPlace::AddressSymbol,
        ),
        4 => stay_if(
            may_follow(op, before, Sort::Address),
            OperandPlace::ArgumentAddress,
        ),
        5 => stay_if(
            may_follow(op, before, Sort::Address) && has_frame,
            OperandPlace::FrameAddress,
        ),
        6 => stay_if(may_follow(op, before, Sort::Memory), OperandPlace::Symbol),
        7 => stay_if(may_follow(op, before, Sort::Memory), OperandPlace::Argument),
        8 => stay_if(
            may_follow(op, before, Sort::Memory) && has_frame,
            OperandPlace::FrameOffset,
        ),
        9 => stay_if(may_follow(op, before, Sort::Memory), OperandPlace::Base),
        10 => stay_if(may_follow(op, before, Sort::Target), OperandPlace::Label),
        11 => stay_if(
            may_follow(op, before, Sort::Function),
            OperandPlace::Function,
        ),
        12 => whole_if(may_follow(op, before, Sort::HiLo), Operand::Hi),
        13 => whole_if(may_follow(op, before, Sort::HiLo), Operand::Lo),
        _ => OperandTurn::Bad,
    }
}

/// What the bytes of a field make of the place in the operand behind those.
pub(crate) fn operand_step(
    limits: Limits,
    op: Op,
    before: &[Operand],
    place: OperandPlace,
    field: &[u8],
) -> OperandTurn
    requires { length field.now ≡ width_bytes (operand_width (operand_place place)) }
    ensures { operand_turn result ≡ operand_read (around limits op before.now) (operand_place place) field.now }
{
    match place {
        OperandPlace::Kind => kind_step(limits, op, before, byte(field)),
        OperandPlace::Constant => {
            let value = word(field);
            whole_if(is_constant_of(op, value), Operand::Const(value))
        }
        OperandPlace::AddressSymbol => {
            let symbol = word(field);
            stay_if(symbol < limits.symbols, OperandPlace::AddressOffset(symbol))
        }
        OperandPlace::AddressOffset(symbol) => {
            OperandTurn::Whole(Operand::AddrSB(symbol, word(field)))
        }
        OperandPlace::ArgumentAddress => {
            let offset = word(field);
            whole_if(offset <= 65535, Operand::AddrFP(offset))
        }
        OperandPlace::FrameAddress => {
            let offset = word(field);
            whole_if(is_in_frame(limits.frame, offset), Operand::AddrSP(offset))
        }
        OperandPlace::Symbol => {
            let symbol = word(field);
            stay_if(symbol < limits.symbols, OperandPlace::Offset(symbol))
        }
        OperandPlace::Offset(symbol) => OperandTurn::Whole(Operand::MemSB(symbol, word(field))),
        OperandPlace::Argument => {
            let offset = word(field);
            whole_if(offset <= 65535, Operand::MemFP(offset))
        }
        OperandPlace::FrameOffset => {
            let offset = word(field);
            whole_if(is_in_frame(limits.frame, offset), Operand::MemSP(offset))
        }
        OperandPlace::Base => {
            let register = byte(field);
            stay_if(
                is_own_register(register),
                OperandPlace::BaseOffset(register),
            )
        }
        OperandPlace::BaseOffset(register) => {
            OperandTurn::Whole(Operand::MemReg(register, word(field)))
        }
        OperandPlace::Label => {
            let label = word(field);
            whole_if(label < limits.total, Operand::Label(label))
        }
        OperandPlace::Function => {
            let symbol = word(field);
            whole_if(symbol < limits.symbols, Operand::Func(symbol))
        }
    }
}
