// Modules that are valid, and next to each one that breaks one rule.
use crate::samples::{Kind, Sample, alone, function, global, symbol};
use p9_abs::{Op, Operand, Symbol};
use p9_base::{Bytes, NoMemory};
use p9_obj::valid;
use std::alloc::Global;
use std::test::Fail;

const REGISTER: Operand = Operand::Reg(1);

// Whether a module is valid whose one function, of frame 8, has this instruction and RET.
fn may_stand(alloc: Global, op: Op, operands: &[Operand]) -> Result<bool, NoMemory> {
    let body = function(alloc, 8, op, operands)?;
    let f = Symbol {
        name: Bytes {
            list: b"f".to_vec(alloc)?,
        },
        local: false,
        sig: Bytes {
            list: Vec::new(alloc),
        },
        body,
    };
    let module = alone(f, alloc)?;
    valid(alloc, &module)
}

#[test]
fn destinations(rt: HostRuntime) -> Result<(), Fail> {
    for (register, want) in [
        (25, true),
        (26, false),
        (29, false),
        (30, false),
        (31, false),
    ] {
        let to = Operand::Reg(register);
        let may = may_stand(rt.alloc(), Op::MovW, &[Operand::Const(1), to])?;
        assert_eq!(rt; may, want);
    }
    let read = may_stand(rt.alloc(), Op::MovW, &[Operand::Reg(29), REGISTER])?;
    assert!(rt; read);
    Ok(())
}

#[test]
fn operands(rt: HostRuntime) -> Result<(), Fail> {
    let rows = [
        (Operand::MemFP(65535), true),
        (Operand::MemFP(65536), false),
        (Operand::MemSP(4294967288), true),
        (Operand::MemSP(4294967287), false),
        (Operand::MemSP(0), false),
        (Operand::MemSB(0, 7), true),
        (Operand::MemSB(1, 0), false),
        (Operand::MemReg(28, 0), false),
        (Operand::Auto(0, 0), false),
        (Operand::Label(0), false),
    ];
    for (from, want) in rows {
        let may = may_stand(rt.alloc(), Op::MovW, &[from, REGISTER])?;
        assert_eq!(rt; may, want);
    }
    Ok(())
}

#[test]
fn shifts_and_labels(rt: HostRuntime) -> Result<(), Fail> {
    for (count, want) in [(31, true), (32, false)] {
        let may = may_stand(
            rt.alloc(),
            Op::Sll,
            &[Operand::Const(count), REGISTER, REGISTER],
        )?;
        assert_eq!(rt; may, want);
    }
    for (label, want) in [(1, true), (2, false)] {
        let may = may_stand(rt.alloc(), Op::Jmp, &[Operand::Label(label)])?;
        assert_eq!(rt; may, want);
    }
    Ok(())
}

#[test]
fn symbols(rt: HostRuntime) -> Result<(), Fail> {
    let rows: [(Sample, bool, bool); 7] = [
        (global(b"x", b"i", Kind::Common(16777216)), false, true),
        (global(b"x", b"i", Kind::Common(16777217)), false, false),
        (global(b"x", b"", Kind::Common(4)), true, true),
        (global(b"x", b"i", Kind::Common(4)), true, false),
        (global(b"x", b"\"", Kind::Used), false, false),
        (global(b"x", b"", Kind::Used), true, false),
        (global(b"x y", b"", Kind::Used), false, false),
    ];
    for (sample, local, want) in rows {
        let symbol = symbol(rt.alloc(), &sample, local)?;
        let module = alone(symbol, rt.alloc())?;
        let valid = valid(rt.alloc(), &module)?;
        assert_eq!(rt; valid, want);
    }
    Ok(())
}

// Each operand by itself may stand in some form.
#[test]
fn wrong_forms(rt: HostRuntime) -> Result<(), Fail> {
    let rows = [
        (Op::MovW, [Operand::MemFP(0), Operand::MemFP(4)]),
        (Op::MovBU, [REGISTER, Operand::MemFP(0)]),
        (Op::Mul, [Operand::Const(3), REGISTER]),
        (Op::Jal, [REGISTER, REGISTER]),
    ];
    for (op, operands) in rows {
        let may = may_stand(rt.alloc(), op, &operands)?;
        assert!(rt; !may);
    }
    Ok(())
}
