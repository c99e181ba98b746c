use p9_base::NoMemory;
use p9_lang::{Bind, CBinary, CType, Kind, Tags};
use p9_operand::{Constant, Operand, constant_at};
use sqlite_items::{Boxed, Items};
use std::alloc::Global;
use std::test::Fail;

fn number(ty: CType, value: u32) -> Operand {
    Operand {
        ty,
        is_lvalue: false,
        constant: Constant::Value(value),
    }
}

// What a node is as a constant, where there are no structures.
fn constant(
    alloc: Global,
    kind: &Kind,
    ty: &CType,
    operands: &[Operand],
) -> Result<Constant, NoMemory> {
    let tags = Tags {
        list: Items::new(alloc),
    };
    constant_at(alloc, &tags, kind, ty, &Bind::Nothing, operands)
}

fn of_two(alloc: Global, op: CBinary, a: Operand, b: Operand) -> Result<Constant, NoMemory> {
    let mut operands = Vec::new(alloc);
    operands.push(a)?;
    operands.push(b)?;
    constant(alloc, &Kind::Binary(op), &CType::Int, operands.as_slice())
}

const MINUS_SEVEN: u32 = 0xFFFF_FFF9;

const MINUS_ONE: u32 = 0xFFFF_FFFF;

const LEAST: u32 = 0x8000_0000;

// Quotients are cut towards 0, and the remainder has the dividend's sign.
#[test]
fn signed_operations(rt: HostRuntime) -> Result<(), Fail> {
    for (op, a, b, want) in [
        (CBinary::Div, MINUS_SEVEN, 2, Constant::Value(0xFFFF_FFFD)),
        (CBinary::Rem, MINUS_SEVEN, 2, Constant::Value(MINUS_ONE)),
        (CBinary::Div, 7, 0, Constant::Undefined),
        (CBinary::Div, LEAST, MINUS_ONE, Constant::Undefined),
        (CBinary::Add, 0x7FFF_FFFF, 1, Constant::Value(LEAST)),
        (CBinary::Mul, 0x1_0001, 0x1_0001, Constant::Value(0x2_0001)),
        (CBinary::Shl, 1, 31, Constant::Value(LEAST)),
        (CBinary::Shl, 1, 32, Constant::Undefined),
        (CBinary::Shr, LEAST, 31, Constant::Value(MINUS_ONE)),
        (CBinary::Lt, MINUS_ONE, 1, Constant::Value(1)),
        (CBinary::Ge, MINUS_ONE, 1, Constant::Value(0)),
        (CBinary::Xor, 0b1100, 0b1010, Constant::Value(0b0110)),
        (CBinary::AndAnd, 0, 5, Constant::Value(0)),
        (CBinary::OrOr, 0, 5, Constant::Value(1)),
    ] {
        let left = number(CType::Int, a);
        let right = number(CType::Int, b);
        let answer = of_two(rt.alloc(), op, left, right)?;
        assert_eq!(rt; answer, want, "{op:?} {a} {b}");
    }
    Ok(())
}

// One unsigned operand makes the operation unsigned, but only the left one that of a shift.
#[test]
fn unsigned_operations(rt: HostRuntime) -> Result<(), Fail> {
    for (op, a, b, want) in [
        (CBinary::Div, MINUS_SEVEN, 2, Constant::Value(0x7FFF_FFFC)),
        (CBinary::Div, LEAST, MINUS_ONE, Constant::Value(0)),
        (CBinary::Lt, MINUS_ONE, 1, Constant::Value(0)),
        (CBinary::Shr, LEAST, 31, Constant::Value(MINUS_ONE)),
    ] {
        let left = number(CType::Int, a);
        let right = number(CType::UInt, b);
        let answer = of_two(rt.alloc(), op, left, right)?;
        assert_eq!(rt; answer, want, "{op:?} {a} {b}");
    }
    Ok(())
}

fn cast(alloc: Global, ty: CType, value: u32) -> Result<Constant, NoMemory> {
    let mut operands = Vec::new(alloc);
    operands.push(number(CType::Int, 0))?;
    operands.push(number(CType::Int, value))?;
    constant(alloc, &Kind::Cast, &ty, operands.as_slice())
}

#[test]
fn casts(rt: HostRuntime) -> Result<(), Fail> {
    let alloc = rt.alloc();
    assert_eq!(rt;
        cast(alloc, CType::Char, 200)?,
        Constant::Value(0xFFFF_FFC8)
    );
    assert_eq!(rt; cast(alloc, CType::UChar, 456)?, Constant::Value(200));
    assert_eq!(rt;
        cast(alloc, CType::Short, 40_000)?,
        Constant::Value(0xFFFF_9C40)
    );
    let void = CType::Pointer(Boxed::new(alloc, CType::Void)?);
    assert_eq!(rt; cast(alloc, void, 0)?, Constant::Null);
    let void = CType::Pointer(Boxed::new(alloc, CType::Void)?);
    assert_eq!(rt; cast(alloc, void, 1)?, Constant::NotConstant);
    Ok(())
}

fn size(alloc: Global, ty: CType) -> Result<Constant, NoMemory> {
    let mut operands = Vec::new(alloc);
    operands.push(number(ty, 0))?;
    constant(alloc, &Kind::SizeofType, &CType::UInt, operands.as_slice())
}

#[test]
fn sizes(rt: HostRuntime) -> Result<(), Fail> {
    let alloc = rt.alloc();
    assert_eq!(rt; size(alloc, CType::Short)?, Constant::Value(2));
    let array = CType::Array(Boxed::new(alloc, CType::Int)?, 3);
    assert_eq!(rt; size(alloc, array)?, Constant::Value(12));
    let array = CType::Array(Boxed::new(alloc, CType::Int)?, 5_000_000);
    assert_eq!(rt; size(alloc, array)?, Constant::NotConstant);
    assert_eq!(rt; size(alloc, CType::Void)?, Constant::NotConstant);
    Ok(())
}
