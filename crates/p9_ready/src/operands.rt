// Whether an instruction over automatics is valid and plain.
ghost use Rattle.std.specs.Prelude.{◌≡◌, ◌≢◌, ◌↔◌, true, IsTrue, All, slice_index};
ghost use Rattle.p9_abs.specs.Forms.{IsForm};
ghost use Rattle.p9_abs.specs.Validity.{IsRegister, writes_last, IsWritable};
ghost use Rattle.p9_abs.specs.Automatics.{IsOperandOf, IsInstructionOf};
ghost use Rattle.p9_homed.specs.Plain.{NamesNoHome};
ghost use Rattle.p9_keeps.specs.Addresses.{IsNear};
ghost use Rattle.p9_ready.specs.Written.{IsPlainInstruction, IsWrittenRegister};

use p9_abs::{Abs, Op, Operand, decoded};

fn is_register(r: u8) -> bool
    ensures { IsTrue result ↔ IsRegister r }
{
    r < 32 && r != 26 && r != 27 && r != 28
}

fn is_operand(autos: usize, count: usize, operand: Operand) -> bool
    ensures { IsTrue result ↔ IsOperandOf autos count operand }
{
    match operand {
        Operand::Reg(r) | Operand::MemReg(r, _) => is_register(r),
        Operand::AddrFP(offset) | Operand::MemFP(offset) => offset < 65536,
        Operand::AddrSP(_) | Operand::MemSP(_) => false,
        Operand::Label(target) => (target as usize) < count,
        Operand::Auto(v, _) | Operand::AutoAddr(v, _) => (v as usize) < autos,
        _ => true,
    }
}

fn are_operands(autos: usize, count: usize, operands: &[Operand]) -> bool
    ensures { IsTrue result ↔ All (IsOperandOf autos count) operands.now }
{
    operands.iter().all(|o| is_operand(autos, count, *o))
}

fn names_no_home(operand: Operand) -> bool
    ensures { IsTrue result ↔ NamesNoHome operand }
{
    match operand {
        Operand::Reg(r) | Operand::MemReg(r, _) => r < 9 || r > 20,
        _ => true,
    }
}

fn name_no_home(operands: &[Operand]) -> bool
    ensures { IsTrue result ↔ All NamesNoHome operands.now }
{
    operands.iter().all(|o| names_no_home(*o))
}

fn size_at(sizes: &[u32], v: u32) -> u32
    ensures { result ≡ slice_index sizes.now v }
{
    match sizes.get(v as usize) {
        Some(size) => *size,
        None => 0,
    }
}

fn is_near(sizes: &[u32], operand: Operand) -> bool
    ensures { IsTrue result ↔ IsNear sizes.now operand }
{
    match operand {
        Operand::AutoAddr(v, o) => o <= size_at(sizes, v),
        _ => true,
    }
}

/// Whether each address of an automatic is that of one of its bytes, or of the byte behind them.
pub(crate) fn are_near(sizes: &[u32], operands: &[Operand]) -> bool
    ensures { IsTrue result ↔ All (IsNear sizes.now) operands.now }
{
    operands.iter().all(|o| is_near(sizes, *o))
}

fn is_no_system_call(op: Op) -> bool
    ensures { IsTrue result ↔ (op ≢ Op.Syscall) }
{
    match op {
        Op::Syscall => false,
        _ => true,
    }
}

/// Whether the instruction names no home and is no system call.
pub(crate) fn is_plain(a: &Abs) -> bool
    ensures { IsTrue result ↔ IsPlainInstruction a.now }
{
    is_no_system_call(a.op) && name_no_home(&a.operands.list)
}

fn writes_last(op: Op) -> bool
    ensures { result ≡ writes_last op }
{
    match op {
        Op::MovW
        | Op::MovH
        | Op::MovHU
        | Op::MovB
        | Op::MovBU
        | Op::Add
        | Op::AddU
        | Op::Sub
        | Op::SubU
        | Op::And
        | Op::Or
        | Op::Xor
        | Op::Nor
        | Op::Sgt
        | Op::SgtU
        | Op::Sll
        | Op::Srl
        | Op::Sra => true,
        _ => false,
    }
}

fn may_be_written(operand: Operand) -> bool
    ensures { IsTrue result ↔ IsWrittenRegister operand }
{
    match operand {
        Operand::Reg(r) => r != 29 && r != 30 && r != 31,
        _ => true,
    }
}

fn is_writable(operands: &[Operand]) -> bool
    ensures { IsTrue result ↔ IsWritable operands.now }
{
    match operands.last() {
        None => true,
        Some(last) => may_be_written(*last),
    }
}

fn is_written_well(op: Op, operands: &[Operand]) -> bool
    ensures { IsTrue result ↔ (writes_last op ≡ true → IsWritable operands.now) }
{
    if writes_last(op) {
        is_writable(operands)
    } else {
        true
    }
}

fn is_form(a: &Abs) -> bool
    ensures { IsTrue result ↔ IsForm a.now }
{
    decoded(a).is_some()
}

/// Whether the instruction may stand in a function of so many automatics and instructions.
pub(crate) fn is_instruction(autos: usize, count: usize, a: &Abs) -> bool
    ensures { IsTrue result ↔ IsInstructionOf autos count a.now }
{
    let operands = a.operands.list.as_slice();
    is_form(a) && are_operands(autos, count, operands) && is_written_well(a.op, operands)
}
