// Rows of small functions.
use p9_abs::{AFunction, Abs, Autos, Code, Depths, Op, Operand, Operands};
use p9_base::NoMemory;
use p9_flow::{Rows, live};
use std::alloc::Global;
use std::test::Fail;

fn push(alloc: Global, code: &mut Vec<Abs>, op: Op, operands: &[Operand]) -> Result<(), NoMemory> {
    let list = operands.to_vec(alloc)?;
    code.push(Abs {
        op,
        operands: Operands { list },
    })?;
    Ok(())
}

fn rows(alloc: Global, autos: &[u32], list: Vec<Abs>) -> Result<Rows, NoMemory> {
    let depths = vec![in alloc; 0u8; list.len()]?;
    let f = AFunction {
        autos: Autos {
            list: autos.to_vec(alloc)?,
        },
        code: Code { list },
        depth: Depths { list: depths },
    };
    live(alloc, &f)
}

#[test]
fn stored_and_read(rt: HostRuntime) -> Result<(), Fail> {
    let alloc = rt.alloc();
    let mut code = Vec::new(alloc);
    push(
        alloc,
        &mut code,
        Op::MovW,
        &[Operand::Const(1), Operand::Reg(1)],
    )?;
    push(
        alloc,
        &mut code,
        Op::MovW,
        &[Operand::Reg(1), Operand::Auto(0, 0)],
    )?;
    push(
        alloc,
        &mut code,
        Op::MovW,
        &[Operand::Auto(0, 0), Operand::Reg(2)],
    )?;
    push(alloc, &mut code, Op::Ret, &[])?;
    let rows = rows(alloc, &[4], code)?;
    assert_eq!(rt; rows.width, 1);
    assert_eq!(rt; rows.bits.as_slice(), [0u64, 0, 1, 0].as_slice());
    Ok(())
}

// Of the second automatic a part is read. The third is written and never read.
#[test]
fn over_a_branch_back(rt: HostRuntime) -> Result<(), Fail> {
    let alloc = rt.alloc();
    let mut code = Vec::new(alloc);
    push(
        alloc,
        &mut code,
        Op::MovW,
        &[Operand::Reg(1), Operand::Auto(0, 0)],
    )?;
    push(
        alloc,
        &mut code,
        Op::MovW,
        &[Operand::Auto(0, 0), Operand::Reg(2)],
    )?;
    push(
        alloc,
        &mut code,
        Op::MovH,
        &[Operand::Reg(2), Operand::Auto(2, 0)],
    )?;
    push(
        alloc,
        &mut code,
        Op::Bne,
        &[Operand::Reg(1), Operand::Reg(2), Operand::Label(1)],
    )?;
    push(
        alloc,
        &mut code,
        Op::MovB,
        &[Operand::Auto(1, 0), Operand::Reg(2)],
    )?;
    push(alloc, &mut code, Op::Ret, &[])?;
    let rows = rows(alloc, &[4, 4, 2], code)?;
    assert_eq!(rt; rows.width, 1);
    assert_eq!(rt; rows.bits.as_slice(), [0u64, 1, 1, 1, 0, 0].as_slice());
    Ok(())
}

#[test]
fn second_word(rt: HostRuntime) -> Result<(), Fail> {
    let alloc = rt.alloc();
    let mut code = Vec::new(alloc);
    push(
        alloc,
        &mut code,
        Op::MovW,
        &[Operand::Auto(64, 0), Operand::Reg(2)],
    )?;
    push(alloc, &mut code, Op::Ret, &[])?;
    let rows = rows(alloc, &[4; 65], code)?;
    assert_eq!(rt; rows.width, 2);
    assert_eq!(rt; rows.bits.as_slice(), [0u64, 1, 0, 0].as_slice());
    Ok(())
}
