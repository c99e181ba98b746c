// What a field makes of a place in an instruction.
ghost use Rattle.std.specs.Prelude.{◌≡◌, ◌++◌, [], ◌∷◌, length, IfOk};
ghost use Rattle.p9_object.specs.Bytes.{number_of, width_bytes, instruction_width};
ghost use Rattle.p9_object.specs.Machine.{is_lasting_register, with_operands, operation_step, op_among, all_operations, behind_operand};
ghost use Rattle.p9_instr.specs.Places.{around, instruction_place, instruction_turn, instruction_read, operand_turn, is_last_written, register_read};

use crate::fields::byte;
use crate::operands::{is_own_register, operand_step};
use crate::operations::{may_end, operation, writes_last};
use crate::places::{InstructionPlace, InstructionTurn, Limits, OperandPlace, OperandTurn};
use p9_abs::{Abs, Op, Operand, Operands, form_of};
use p9_base::NoMemory;
use std::alloc::Global;

fn is_lasting_register(register: u8) -> bool
    ensures { result ≡ is_lasting_register register }
{
    register == 29 || register == 30 || register == 31
}

// An instruction is whole when its operands are a form.
fn with_operands(op: Op, operands: Operands) -> InstructionTurn
    ensures { instruction_turn result ≡ with_operands op operands }
{
    if form_of(op, &operands.list).is_some() {
        InstructionTurn::Whole(Abs { op, operands })
    } else {
        InstructionTurn::Stay(InstructionPlace::Operand(op, operands, OperandPlace::Kind))
    }
}

fn operation_step(alloc: Global, more: bool, number: u8) -> InstructionTurn
    ensures { instruction_turn result ≡ operation_step more (op_among all_operations number) }
{
    match operation(number) {
        None => InstructionTurn::Bad,
        Some(op) => {
            if more || may_end(op) {
                let list = Vec::new(alloc);
                with_operands(op, Operands { list })
            } else {
                InstructionTurn::Bad
            }
        }
    }
}

fn pushed(before: Operands, operand: Operand) -> Result<Operands, NoMemory>
    ensures { IfOk result (λ operands. operands ≡ before ++ operand ∷ []) }
{
    let mut list = before.list;
    list.push(operand)?;
    Ok(Operands { list })
}

// Whether the instruction, where it is whole, writes its last operand.
fn is_written(op: Op, operands: &[Operand]) -> bool
    ensures { result ≡ is_last_written op operands.now }
{
    writes_last(op) && form_of(op, operands).is_some()
}

fn register_step(op: Op, before: Operands, register: u8) -> Result<InstructionTurn, NoMemory>
    ensures { IfOk result (λ turn.
        instruction_turn turn ≡ register_read op before register) }
{
    let operands = pushed(before, Operand::Reg(register))?;
    let is_kept = is_written(op, &operands.list) && is_lasting_register(register);
    if is_own_register(register) && !is_kept {
        Ok(with_operands(op, operands))
    } else {
        Ok(InstructionTurn::Bad)
    }
}

fn behind_operand(op: Op, before: Operands, turn: OperandTurn) -> Result<InstructionTurn, NoMemory>
    ensures { IfOk result (λ t. instruction_turn t ≡ behind_operand op before (operand_turn turn)) }
{
    match turn {
        OperandTurn::Bad => Ok(InstructionTurn::Bad),
        OperandTurn::Register => {
            Ok(InstructionTurn::Stay(InstructionPlace::Register(op, before)))
        }
        OperandTurn::Stay(place) => {
            Ok(InstructionTurn::Stay(InstructionPlace::Operand(op, before, place)))
        }
        OperandTurn::Whole(operand) => Ok(with_operands(op, pushed(before, operand)?)),
    }
}

/// What the bytes of a field make of the place. `more` tells that another instruction of the
/// function follows.
pub fn instruction_step(
    alloc: Global,
    limits: Limits,
    more: bool,
    place: InstructionPlace,
    field: &[u8],
) -> Result<InstructionTurn, NoMemory>
    requires { length field.now ≡ width_bytes (instruction_width (instruction_place place)) }
    ensures { IfOk result (λ turn.
        instruction_turn turn ≡ instruction_read limits more (instruction_place place) field.now) }
{
    match place {
        InstructionPlace::Operation => Ok(operation_step(alloc, more, byte(field))),
        InstructionPlace::Register(op, before) => register_step(op, before, byte(field)),
        InstructionPlace::Operand(op, before, place) => {
            let turn = operand_step(limits, op, &before.list, place, field);
            behind_operand(op, before, turn)
        }
    }
}
