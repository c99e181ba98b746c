// Whether an instruction's operands are in range.
ghost use Rattle.std.specs.Prelude.{◌≡◌, ◌↔◌, ℕ, ◌<◌, ◌≤◌, ◌^◌, true, IsTrue, All};
ghost use Rattle.p9_abs.specs.Forms.{IsForm};
ghost use Rattle.p9_abs.specs.Validity.{IsRegister, IsInRange, writes_last, IsWritable, IsInstruction};
ghost use Rattle.p9_obj.specs.Rules.{IsStackOffset, IsWrittenRegister};

use p9_abs::{Abs, Op, Operand, decoded};

fn is_register(r: u8) -> bool
    ensures { IsTrue result ↔ IsRegister r }
{
    r < 32 && r != 26 && r != 27 && r != 28
}

fn is_stack_offset(frame: u32, offset: u32) -> bool
    ensures { IsTrue result ↔ IsStackOffset frame offset }
{
    offset as u64 + frame as u64 >= 0x1_0000_0000
}

fn is_in_range(frame: u32, count: usize, operand: Operand) -> bool
    ensures { IsTrue result ↔ IsInRange frame count operand }
{
    match operand {
        Operand::Reg(r) | Operand::MemReg(r, _) => is_register(r),
        Operand::AddrFP(offset) | Operand::MemFP(offset) => offset <= 65535,
        Operand::AddrSP(offset) | Operand::MemSP(offset) => is_stack_offset(frame, offset),
        Operand::Label(target) => (target as usize) < count,
        Operand::Auto(_, _) | Operand::AutoAddr(_, _) => false,
        _ => true,
    }
}

fn are_in_range(frame: u32, count: usize, operands: &[Operand]) -> bool
    ensures { IsTrue result ↔ All (IsInRange frame count) operands.now }
{
    operands.iter().all(|o| is_in_range(frame, count, *o))
}

fn writes_last(op: Op) -> bool
    ensures { result ≡ writes_last op }
{
    match op {
        Op::MovW
        | Op::MovH
        | Op::MovHU
        | Op::MovB
        | Op::MovBU
        | Op::Add
        | Op::AddU
        | Op::Sub
        | Op::SubU
        | Op::And
        | Op::Or
        | Op::Xor
        | Op::Nor
        | Op::Sgt
        | Op::SgtU
        | Op::Sll
        | Op::Srl
        | Op::Sra => true,
        _ => false,
    }
}

fn may_be_written(operand: Operand) -> bool
    ensures { IsTrue result ↔ IsWrittenRegister operand }
{
    match operand {
        Operand::Reg(r) => r != 29 && r != 30 && r != 31,
        _ => true,
    }
}

fn is_writable(operands: &[Operand]) -> bool
    ensures { IsTrue result ↔ IsWritable operands.now }
{
    match operands.last() {
        None => true,
        Some(last) => may_be_written(*last),
    }
}

fn is_written_well(op: Op, operands: &[Operand]) -> bool
    ensures { IsTrue result ↔ (writes_last op ≡ true → IsWritable operands.now) }
{
    if writes_last(op) {
        is_writable(operands)
    } else {
        true
    }
}

fn is_form(a: &Abs) -> bool
    ensures { IsTrue result ↔ IsForm a.now }
{
    decoded(a).is_some()
}

/// Whether the instruction may stand in a function of this frame and so many instructions.
pub(crate) fn is_instruction(frame: u32, count: usize, a: &Abs) -> bool
    ensures { IsTrue result ↔ IsInstruction frame count a.now }
{
    let operands = a.operands.list.as_slice();
    is_form(a) && are_in_range(frame, count, operands) && is_written_well(a.op, operands)
}
