// The weights of all forms, by the table.
use p9_abs::{Abs, Op, Operand, Operands, decoded, weight};
use p9_base::NoMemory;
use std::alloc::Global;
use std::test::Fail;

const REGISTER: Operand = Operand::Reg(1);

const CONSTANT: Operand = Operand::Const(31);

const ADDRESS: Operand = Operand::AddrSP(4294967292);

const MEMORY: Operand = Operand::MemReg(29, 4);

const LABEL: Operand = Operand::Label(0);

// The words of the instruction, where it is a form.
fn words(alloc: Global, op: Op, operands: &[Operand]) -> Result<Option<u32>, NoMemory> {
    let list = operands.to_vec(alloc)?;
    let a = Abs {
        op,
        operands: Operands { list },
    };
    match decoded(&a) {
        Some(_) => Ok(Some(weight(&a))),
        None => Ok(None),
    }
}

#[test]
fn moves(rt: HostRuntime) -> Result<(), Fail> {
    let rows = [
        (Op::MovW, [REGISTER, REGISTER], Some(1)),
        (Op::MovW, [CONSTANT, REGISTER], Some(2)),
        (Op::MovW, [ADDRESS, REGISTER], Some(3)),
        (Op::MovW, [Operand::AutoAddr(0, 0), REGISTER], Some(3)),
        (Op::MovW, [MEMORY, REGISTER], Some(4)),
        (Op::MovW, [Operand::Auto(0, 0), REGISTER], Some(4)),
        (Op::MovW, [REGISTER, MEMORY], Some(3)),
        (Op::MovW, [Operand::Hi, REGISTER], Some(1)),
        (Op::MovW, [REGISTER, Operand::Lo], Some(3)),
        (Op::MovW, [MEMORY, MEMORY], None),
        (Op::MovH, [REGISTER, REGISTER], Some(2)),
        (Op::MovB, [MEMORY, REGISTER], Some(4)),
        (Op::MovB, [REGISTER, Operand::Auto(0, 0)], Some(3)),
        (Op::MovB, [CONSTANT, REGISTER], None),
        (Op::MovHU, [REGISTER, REGISTER], Some(1)),
        (Op::MovBU, [MEMORY, REGISTER], Some(4)),
        (Op::MovBU, [REGISTER, MEMORY], None),
    ];
    for (op, operands, want) in rows {
        let words = words(rt.alloc(), op, &operands)?;
        assert_eq!(rt; words, want);
    }
    Ok(())
}

#[test]
fn arithmetic(rt: HostRuntime) -> Result<(), Fail> {
    let rows = [
        (Op::Add, REGISTER, Some(1)),
        (Op::SgtU, CONSTANT, Some(3)),
        (Op::Nor, MEMORY, None),
        (Op::Sll, REGISTER, Some(1)),
        (Op::Sra, CONSTANT, Some(1)),
        (Op::Srl, Operand::Const(32), None),
        (Op::Mul, REGISTER, None),
    ];
    for (op, first, want) in rows {
        let words = words(rt.alloc(), op, &[first, REGISTER, REGISTER])?;
        assert_eq!(rt; words, want);
    }
    let words = words(rt.alloc(), Op::DivU, &[REGISTER, REGISTER])?;
    assert_eq!(rt; words, Some(3));
    Ok(())
}

#[test]
fn branches(rt: HostRuntime) -> Result<(), Fail> {
    let alloc = rt.alloc();
    let equal = words(alloc, Op::Beq, &[REGISTER, REGISTER, LABEL])?;
    assert_eq!(rt; equal, Some(4));
    let rows = [
        (Op::Jmp, LABEL, Some(2)),
        (Op::Jmp, REGISTER, None),
        (Op::Jal, Operand::Func(0), Some(2)),
        (Op::Jal, REGISTER, Some(2)),
        (Op::Jal, LABEL, None),
    ];
    for (op, to, want) in rows {
        let words = words(alloc, op, &[to])?;
        assert_eq!(rt; words, want);
    }
    for (op, want) in [(Op::Ret, Some(7)), (Op::Syscall, Some(1)), (Op::Jmp, None)] {
        let words = words(alloc, op, &[])?;
        assert_eq!(rt; words, want);
    }
    Ok(())
}
