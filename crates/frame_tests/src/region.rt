// Regions, costs and homes of small functions.
use p9_abs::{AFunction, Abs, Autos, Code, Depths, Op, Operand, Operands};
use p9_base::NoMemory;
use p9_flow::live;
use p9_region::{assign, cost, regions};
use std::alloc::Global;
use std::test::Fail;

fn push(alloc: Global, code: &mut Vec<Abs>, op: Op, operands: &[Operand]) -> Result<(), NoMemory> {
    let list = operands.to_vec(alloc)?;
    code.push(Abs {
        op,
        operands: Operands { list },
    })?;
    Ok(())
}

// A function of words, with this loop depth at each instruction.
fn function(alloc: Global, autos: usize, depth: u8, list: Vec<Abs>) -> Result<AFunction, NoMemory> {
    let depths = vec![in alloc; depth; list.len()]?;
    let words = vec![in alloc; 4u32; autos]?;
    Ok(AFunction {
        autos: Autos { list: words },
        code: Code { list },
        depth: Depths { list: depths },
    })
}

// Stores 1 and reads it.
fn stored_and_read(alloc: Global, depth: u8) -> Result<AFunction, NoMemory> {
    let mut code = Vec::new(alloc);
    push(
        alloc,
        &mut code,
        Op::MovW,
        &[Operand::Const(1), Operand::Reg(1)],
    )?;
    push(
        alloc,
        &mut code,
        Op::MovW,
        &[Operand::Reg(1), Operand::Auto(0, 0)],
    )?;
    push(
        alloc,
        &mut code,
        Op::MovW,
        &[Operand::Auto(0, 0), Operand::Reg(2)],
    )?;
    push(alloc, &mut code, Op::Ret, &[])?;
    function(alloc, 1, depth, code)
}

#[test]
fn one_region(rt: HostRuntime) -> Result<(), Fail> {
    let alloc = rt.alloc();
    for (depth, want) in [(0, 2), (9, 131072)] {
        let f = stored_and_read(alloc, depth)?;
        let rows = live(alloc, &f)?;
        let found = regions(alloc, &f, &rows)?;
        assert_eq!(rt; found.list.len(), 1);
        let region = &found.list[0];
        let points = &region.points;
        assert_eq!(rt; region.auto, 0);
        assert_eq!(rt; points.list.as_slice(), [1, 2].as_slice());
        let homes = assign(alloc, &f, &found)?;
        assert_eq!(rt; homes.list.as_slice(), [Some(9u8)].as_slice());
        assert_eq!(rt; cost(&f, region), want);
    }
    Ok(())
}

// Thirteen words are stored, and then each is read: all are live at once.
#[test]
fn thirteen_regions(rt: HostRuntime) -> Result<(), Fail> {
    let alloc = rt.alloc();
    let mut code = Vec::new(alloc);
    for v in 0..13 {
        push(
            alloc,
            &mut code,
            Op::MovW,
            &[Operand::Reg(1), Operand::Auto(v, 0)],
        )?;
    }
    for v in 0..13 {
        push(
            alloc,
            &mut code,
            Op::MovW,
            &[Operand::Auto(v, 0), Operand::Reg(1)],
        )?;
    }
    push(alloc, &mut code, Op::Ret, &[])?;
    let f = function(alloc, 13, 0, code)?;
    let rows = live(alloc, &f)?;
    let found = regions(alloc, &f, &rows)?;
    assert_eq!(rt; found.list.len(), 13);
    let homes = assign(alloc, &f, &found)?;
    let want = [
        Some(9u8),
        Some(10),
        Some(11),
        Some(12),
        Some(13),
        Some(14),
        Some(15),
        Some(16),
        Some(17),
        Some(18),
        Some(19),
        Some(20),
        None,
    ];
    assert_eq!(rt; homes.list.as_slice(), want.as_slice());
    Ok(())
}

// A call divides the region of a word that is read after it, and a join doesn't.
#[test]
fn divided_by_a_call(rt: HostRuntime) -> Result<(), Fail> {
    let alloc = rt.alloc();
    let mut code = Vec::new(alloc);
    push(
        alloc,
        &mut code,
        Op::MovW,
        &[Operand::Reg(1), Operand::Auto(0, 0)],
    )?;
    push(
        alloc,
        &mut code,
        Op::Beq,
        &[Operand::Reg(1), Operand::Reg(0), Operand::Label(3)],
    )?;
    push(
        alloc,
        &mut code,
        Op::MovW,
        &[Operand::Reg(2), Operand::Auto(0, 0)],
    )?;
    push(alloc, &mut code, Op::Jal, &[Operand::Func(0)])?;
    push(
        alloc,
        &mut code,
        Op::MovW,
        &[Operand::Auto(0, 0), Operand::Reg(1)],
    )?;
    push(alloc, &mut code, Op::Ret, &[])?;
    let f = function(alloc, 1, 0, code)?;
    let rows = live(alloc, &f)?;
    let found = regions(alloc, &f, &rows)?;
    assert_eq!(rt; found.list.len(), 2);
    let first = &found.list[0].points;
    let second = &found.list[1].points;
    assert_eq!(rt; first.list.as_slice(), [0, 1, 2, 3].as_slice());
    assert_eq!(rt; second.list.as_slice(), [4].as_slice());
    Ok(())
}
