// Functions with their frames.
use p9_abs::{AFunction, Abs, Autos, Code, Depths, Op, Operand, Operands, TextDef};
use p9_base::NoMemory;
use p9_flow::live;
use p9_frame::settle;
use p9_ready::{has_near_addresses, may_settle};
use p9_region::{assign, regions};
use std::alloc::Global;
use std::test::Fail;

fn push(alloc: Global, code: &mut Vec<Abs>, op: Op, operands: &[Operand]) -> Result<(), NoMemory> {
    let list = operands.to_vec(alloc)?;
    code.push(Abs {
        op,
        operands: Operands { list },
    })?;
    Ok(())
}

fn function(alloc: Global, sizes: &[u32], list: Vec<Abs>) -> Result<AFunction, NoMemory> {
    let depths = vec![in alloc; 0u8; list.len()]?;
    let autos = sizes.to_vec(alloc)?;
    Ok(AFunction {
        autos: Autos { list: autos },
        code: Code { list },
        depth: Depths { list: depths },
    })
}

fn settled(alloc: Global, f: &AFunction) -> Result<Option<TextDef>, NoMemory> {
    if !may_settle(f) {
        return Ok(None);
    }
    let rows = live(alloc, f)?;
    let found = regions(alloc, f, &rows)?;
    let homes = assign(alloc, f, &found)?;
    Ok(Some(settle(alloc, f, &found, &homes)?))
}

// Whether the function with its frame is this code.
fn is_code(def: &Option<TextDef>, frame: u32, code: &[Abs]) -> bool {
    match def {
        None => false,
        Some(def) => def.frame == frame && are_equal(&def.code.list, code),
    }
}

fn are_equal(a: &[Abs], b: &[Abs]) -> bool {
    if a.len() != b.len() {
        return false;
    }
    for i in 0..a.len() {
        let x = &a[i];
        if i < b.len() {
            let y = &b[i];
            if x.op != y.op || x.operands.list.as_slice() != y.operands.list.as_slice() {
                return false;
            }
        }
    }
    true
}

// Stores 1 and reads it: both by the home R9.
#[test]
fn stored_and_read(rt: HostRuntime) -> Result<(), Fail> {
    let alloc = rt.alloc();
    let auto = Operand::Auto(0, 0);
    let (r1, r2, home) = (Operand::Reg(1), Operand::Reg(2), Operand::Reg(9));
    let mut code = Vec::new(alloc);
    push(alloc, &mut code, Op::MovW, &[Operand::Const(1), r1])?;
    push(alloc, &mut code, Op::MovW, &[r1, auto])?;
    push(alloc, &mut code, Op::MovW, &[auto, r2])?;
    push(alloc, &mut code, Op::Ret, &[])?;
    let f = function(alloc, &[4], code)?;
    assert!(rt; has_near_addresses(&f));
    let mut want = Vec::new(alloc);
    push(alloc, &mut want, Op::MovW, &[Operand::Const(1), r1])?;
    push(alloc, &mut want, Op::MovW, &[r1, home])?;
    push(alloc, &mut want, Op::MovW, &[home, r2])?;
    push(alloc, &mut want, Op::Ret, &[])?;
    let def = settled(alloc, &f)?;
    assert!(rt; is_code(&def, 12, &want));
    Ok(())
}

// A word is read behind two calls, to which a branch may go: it is stored before the first one and
// loaded behind it, and so round the second.
#[test]
fn two_calls(rt: HostRuntime) -> Result<(), Fail> {
    let alloc = rt.alloc();
    let auto = Operand::Auto(0, 0);
    let (r1, r2, r3, home) = (
        Operand::Reg(1),
        Operand::Reg(2),
        Operand::Reg(3),
        Operand::Reg(9),
    );
    let word = Operand::MemReg(29, 8);
    let mut code = Vec::new(alloc);
    push(alloc, &mut code, Op::MovW, &[r1, auto])?;
    push(alloc, &mut code, Op::Beq, &[r2, r3, Operand::Label(3)])?;
    push(alloc, &mut code, Op::Jal, &[Operand::Func(0)])?;
    push(alloc, &mut code, Op::Jal, &[Operand::Func(1)])?;
    push(alloc, &mut code, Op::MovW, &[auto, r1])?;
    push(alloc, &mut code, Op::Ret, &[])?;
    let f = function(alloc, &[4], code)?;
    let mut want = Vec::new(alloc);
    push(alloc, &mut want, Op::MovW, &[r1, home])?;
    push(alloc, &mut want, Op::Beq, &[r2, r3, Operand::Label(5)])?;
    push(alloc, &mut want, Op::MovW, &[home, word])?;
    push(alloc, &mut want, Op::Jal, &[Operand::Func(0)])?;
    push(alloc, &mut want, Op::MovW, &[word, home])?;
    push(alloc, &mut want, Op::MovW, &[home, word])?;
    push(alloc, &mut want, Op::Jal, &[Operand::Func(1)])?;
    push(alloc, &mut want, Op::MovW, &[word, home])?;
    push(alloc, &mut want, Op::MovW, &[home, r1])?;
    push(alloc, &mut want, Op::Ret, &[])?;
    let def = settled(alloc, &f)?;
    assert!(rt; is_code(&def, 12, &want));
    Ok(())
}
