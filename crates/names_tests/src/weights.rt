// Weights of forms that the tests of the table itself leave out.
use p9_abs::{Abs, Op, Operand, Operands, decoded, weight};
use p9_base::NoMemory;
use std::alloc::Global;
use std::test::Fail;

const REGISTER: Operand = Operand::Reg(1);

const MEMORY: Operand = Operand::MemSB(0, 4);

const LABEL: Operand = Operand::Label(0);

// The words of the instruction, where it is a form.
fn words(alloc: Global, op: Op, operands: &[Operand]) -> Result<Option<u32>, NoMemory> {
    let list = operands.to_vec(alloc)?;
    let a = Abs {
        op,
        operands: Operands { list },
    };
    match decoded(&a) {
        Some(_) => Ok(Some(weight(&a))),
        None => Ok(None),
    }
}

#[test]
fn parts_of_words(rt: HostRuntime) -> Result<(), Fail> {
    let rows = [
        (Op::MovB, [REGISTER, REGISTER], Some(2)),
        (Op::MovBU, [REGISTER, REGISTER], Some(1)),
        (Op::MovH, [REGISTER, MEMORY], Some(3)),
        (Op::MovH, [MEMORY, REGISTER], Some(4)),
        (Op::MovHU, [MEMORY, REGISTER], Some(4)),
        (Op::MovHU, [REGISTER, MEMORY], None),
        (Op::MovH, [Operand::Const(1), REGISTER], None),
        (Op::MovB, [Operand::AutoAddr(0, 0), REGISTER], None),
    ];
    for (op, operands, want) in rows {
        let words = words(rt.alloc(), op, &operands)?;
        assert_eq!(rt; words, want);
    }
    Ok(())
}

#[test]
fn places_in_memory(rt: HostRuntime) -> Result<(), Fail> {
    let rows = [
        (Operand::AddrSB(0, 4), 3),
        (Operand::AddrFP(4), 3),
        (MEMORY, 4),
        (Operand::MemFP(4), 4),
        (Operand::MemSP(4294967292), 4),
    ];
    for (from, want) in rows {
        let words = words(rt.alloc(), Op::MovW, &[from, REGISTER])?;
        assert_eq!(rt; words, Some(want));
    }
    Ok(())
}

#[test]
fn products_and_tests(rt: HostRuntime) -> Result<(), Fail> {
    let alloc = rt.alloc();
    for op in [Op::Mul, Op::MulU, Op::Div] {
        let words = words(alloc, op, &[REGISTER, REGISTER])?;
        assert_eq!(rt; words, Some(3));
    }
    for op in [Op::Bgez, Op::Bgtz, Op::Blez, Op::Bltz] {
        let words = words(alloc, op, &[REGISTER, LABEL])?;
        assert_eq!(rt; words, Some(4));
    }
    let unequal = words(alloc, Op::Bne, &[REGISTER, REGISTER, LABEL])?;
    assert_eq!(rt; unequal, Some(4));
    let backwards = words(alloc, Op::Bltz, &[LABEL, REGISTER])?;
    assert_eq!(rt; backwards, None);
    Ok(())
}
