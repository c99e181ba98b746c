// The instructions of a function.
ghost use Rattle.std.specs.Prelude.{◌≡◌, IfOk, map};
ghost use Rattle.p9_statement.specs.Statements.{listed};
ghost use Rattle.p9_asm.specs.Files.{file_in};
ghost use Rattle.p9_asm.specs.Code.{instruction_at, target_of, operand_of, instruction_of, code_of};

use crate::tables::{Tables, statement_in};
use p9_abs::{Abs, Code, Op, Operand, Operands};
use p9_base::NoMemory;
use p9_facts::Fact;
use p9_rows::Row;
use p9_statement::{Argument, Arguments, Statement};
use std::alloc::Global;

fn instruction_at(tables: &Tables, index: u32) -> Option<u32>
    ensures { result ≡ instruction_at (file_in tables.now) index }
{
    let row = tables.rows.get(index as usize)?;
    Some(row.place.number)
}

// The instruction that a label of the function names.
fn target_of(tables: &Tables, function: u32, word: u32) -> u32
    ensures { result ≡ target_of (file_in tables.now) function word }
{
    match tables.facts.first(Fact::Label { function, word }) {
        Some(row) => instruction_at(tables, row).unwrap_or(0),
        None => 0,
    }
}

#[tactic(auto, unfolding(crate::specs::Code::operand_of))]
fn operand_of(tables: &Tables, function: u32, argument: Argument) -> Operand
    ensures { result ≡ operand_of (file_in tables.now) function argument }
{
    match argument {
        Argument::Register(r) => Operand::Reg(r),
        Argument::Constant(c) => Operand::Const(c),
        Argument::Address(symbol, o) => Operand::AddrSB(tables.number_of(symbol), o),
        Argument::ArgumentAddress(o) => Operand::AddrFP(o),
        Argument::FrameAddress(o) => Operand::AddrSP(o),
        Argument::Memory(symbol, o) => Operand::MemSB(tables.number_of(symbol), o),
        Argument::ArgumentMemory(o) => Operand::MemFP(o),
        Argument::FrameMemory(o) => Operand::MemSP(o),
        Argument::RegisterMemory(r, o) => Operand::MemReg(r, o),
        Argument::Label(word) => Operand::Label(target_of(tables, function, word)),
        Argument::Function(symbol) => Operand::Func(tables.number_of(symbol)),
        Argument::Hi => Operand::Hi,
        Argument::Lo => Operand::Lo,
    }
}

fn operands_of(
    alloc: Global,
    tables: &Tables,
    function: u32,
    given: Arguments,
) -> Result<Operands, NoMemory>
    ensures { IfOk result (λ operands. operands ≡ map (operand_of (file_in tables.now) function) (listed given)) }
{
    let mut list = Vec::new(alloc);
    match given {
        Arguments::Zero => {}
        Arguments::One(a) => {
            list.push(operand_of(tables, function, a))?;
        }
        Arguments::Two(a, b) => {
            list.push(operand_of(tables, function, a))?;
            list.push(operand_of(tables, function, b))?;
        }
        Arguments::Three(a, b, c) => {
            list.push(operand_of(tables, function, a))?;
            list.push(operand_of(tables, function, b))?;
            list.push(operand_of(tables, function, c))?;
        }
    }
    Ok(Operands { list })
}

fn instruction_of(
    alloc: Global,
    tables: &Tables,
    function: u32,
    op: Op,
    given: Arguments,
) -> Result<Abs, NoMemory>
    ensures { IfOk result (λ a. a ≡ instruction_of (file_in tables.now) function op given) }
{
    let operands = operands_of(alloc, tables, function, given)?;
    Ok(Abs { op, operands })
}

/// The instructions of the function whose TEXT line is directly before these rows.
pub(crate) fn code_of(
    alloc: Global,
    tables: &Tables,
    function: u32,
    behind: &[Row],
) -> Result<Code, NoMemory>
    ensures { IfOk result (λ code. code ≡ code_of (file_in tables.now) function behind.now) }
{
    let mut list = Vec::new(alloc);
    let mut rest = behind;
    while let [row, after @ ..] = rest {
        match statement_in(row.content) {
            Some(Statement::Text(_, _)) => return Ok(Code { list }),
            Some(Statement::Instruction(op, given)) => {
                list.push(instruction_of(alloc, tables, function, op, given)?)?;
            }
            _ => {}
        }
        rest = after;
    }
    Ok(Code { list })
}
