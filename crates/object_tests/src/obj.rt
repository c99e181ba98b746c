use p9_abs::{AModule, Abs, Body, Code, Op, Operand, Operands, Symbol, Symbols, TextDef};
use p9_base::{Bytes, Name};
use p9_obj::{valid, write_obj};
use std::alloc::{AllocError, Global};
use std::test::Fail;

fn instruction(alloc: Global, op: Op, operands: &[Operand]) -> Result<Abs, AllocError> {
    let list = Vec::from_slice(alloc, operands)?;
    Ok(Abs {
        op,
        operands: Operands { list },
    })
}

// A module of one function f, of frame 0.
fn function(alloc: Global, code: Vec<Abs>) -> Result<AModule, AllocError> {
    let symbol = Symbol {
        name: Name {
            list: Vec::from_slice(alloc, b"f")?,
        },
        local: false,
        sig: Bytes {
            list: Vec::new(alloc),
        },
        body: Body::Text(TextDef {
            frame: 0,
            code: Code { list: code },
        }),
    };
    let mut list = Vec::new(alloc);
    list.push(symbol)?;
    Ok(AModule {
        symbols: Symbols { list },
    })
}

// TEXT f(SB), $0; RET
#[test]
fn a_return_is_written(rt: HostRuntime) -> Result<(), Fail> {
    let alloc = rt.alloc();
    let mut code = Vec::new(alloc);
    code.push(instruction(alloc, Op::Ret, &[])?)?;
    let m = function(alloc, code)?;
    assert!(rt; valid(alloc, &m)?);
    let bytes = write_obj(alloc, &m)?;
    let object = b"v9o\n\0\0\0\x01\0\0\0\x01\0\x02\0\x01f\0\0\0\0\0\0\0\0\0\0\0\x01\x1f";
    assert_eq!(rt; bytes.list.as_slice(), object.as_slice());
    Ok(())
}

// TEXT f(SB), $0; ADD $1, R2, R2; RET
#[test]
fn a_sum_is_written(rt: HostRuntime) -> Result<(), Fail> {
    let alloc = rt.alloc();
    let operands = [Operand::Const(1), Operand::Reg(2), Operand::Reg(2)];
    let mut code = Vec::new(alloc);
    code.push(instruction(alloc, Op::Add, &operands)?)?;
    code.push(instruction(alloc, Op::Ret, &[])?)?;
    let m = function(alloc, code)?;
    assert!(rt; valid(alloc, &m)?);
    let bytes = write_obj(alloc, &m)?;
    let object =
        b"v9o\n\0\0\0\x01\0\0\0\x01\0\x02\0\x01f\0\0\0\0\0\0\0\0\0\0\0\x02\x06\x02\0\0\0\x01\x01\x02\x01\x02\x1f";
    assert_eq!(rt; bytes.list.as_slice(), object.as_slice());
    Ok(())
}
