// Pieces of small functions.

use indexmap::IndexMap;
use p9_abs::{AModule, Abs, Code, Op, Operand, Operands, Symbols, TextDef};
use p9_pieces::{Callees, Pieces, program_pieces};
use p9_r3k::Inst;
use p9_text::{Entries, Program, Routine};
use std::alloc::Global;
use std::test::Fail;

fn instruction(alloc: Global, op: Op, operands: &[Operand]) -> Result<Abs, Fail> {
    let operands = Operands {
        list: operands.to_vec(alloc)?,
    };
    Ok(Abs { op, operands })
}

// Two branches, each to the other, with 4,680 RETs of seven words and some NORs of one word between.
fn branches(alloc: Global, nors: u32, end: u32) -> Result<TextDef, Fail> {
    let mut list = Vec::new(alloc);
    let last = [Operand::Reg(1), Operand::Label(end)];
    list.push(instruction(alloc, Op::Bgtz, &last)?)?;
    for _ in 0..4680 {
        list.push(instruction(alloc, Op::Ret, &[])?)?;
    }
    for _ in 0..nors {
        let registers = [Operand::Reg(0), Operand::Reg(0), Operand::Reg(0)];
        list.push(instruction(alloc, Op::Nor, &registers)?)?;
    }
    let first = [Operand::Reg(1), Operand::Label(0)];
    list.push(instruction(alloc, Op::Bgtz, &first)?)?;
    list.push(instruction(alloc, Op::Ret, &[])?)?;
    Ok(TextDef {
        frame: 0,
        code: Code { list },
    })
}

// The pieces of a program of one function.
fn pieces_of(alloc: Global, def: &TextDef) -> Result<Pieces, Fail> {
    let last = AModule {
        symbols: Symbols {
            list: Vec::new(alloc),
        },
    };
    let defs = IndexMap::new(alloc);
    let mut routines = Vec::new(alloc);
    routines.push(Routine {
        unit: 0,
        symbol: 0,
        def,
    })?;
    let callees = Callees {
        program: Program::new(&[], &last),
        defs: &defs,
        entries: Entries::new(alloc, &routines)?,
    };
    Ok(program_pieces(alloc, &routines, &callees, 0, 1, 32_766)?)
}

fn line(pieces: &Pieces, number: usize) -> Result<(Inst, Option<u32>), Fail> {
    let line = pieces.lines.get(number).ok_or("no line")?;
    Ok((line.inst, line.target))
}

// A branch over 131,068 bytes on or back is short.
#[test]
fn branch_within_reach(rt: HostRuntime) -> Result<(), Fail> {
    let def = branches(rt.alloc(), 3, 4684)?;
    let pieces = pieces_of(rt.alloc(), &def)?;
    let branch = Inst::Bgtz { rs: 1, imm: 0 };
    assert_eq!(rt; pieces.lines.len(), 4688);
    assert_eq!(rt; line(&pieces, 2)?, (branch, Some(4685)));
    assert_eq!(rt; line(&pieces, 4686)?, (branch, Some(1)));
    assert_eq!(rt; pieces.starts.len(), 4687);
    assert_eq!(rt; pieces.starts.get(4685).copied(), Some(4686));
    Ok(())
}

// A branch over more is the other branch over a jump.
#[test]
fn branch_out_of_reach(rt: HostRuntime) -> Result<(), Fail> {
    let def = branches(rt.alloc(), 4, 4685)?;
    let pieces = pieces_of(rt.alloc(), &def)?;
    let other = Inst::Blez { rs: 1, imm: 0 };
    let jump = Inst::J { index: 0 };
    assert_eq!(rt; pieces.lines.len(), 4691);
    assert_eq!(rt; line(&pieces, 2)?, (other, Some(2)));
    assert_eq!(rt; line(&pieces, 3)?, (jump, Some(4686)));
    assert_eq!(rt; line(&pieces, 4688)?, (other, Some(4687)));
    assert_eq!(rt; line(&pieces, 4689)?, (jump, Some(1)));
    Ok(())
}
