// Lines of single instructions.

use p9_abs::Form;
use p9_lines::{Setting, Way, add_lines};
use p9_r3k::Inst;
use std::alloc::Global;
use std::test::Fail;

const LEAF: Setting = Setting {
    unit: 0,
    taken: 0,
    keeps: false,
};

const NEAR: Way = Way {
    next: 8,
    goal: Some(3),
    short: true,
};

fn instructions(alloc: Global, form: Form) -> Result<Vec<Inst>, Fail> {
    let mut lines = Vec::new(alloc);
    add_lines(&mut lines, &LEAF, &NEAR, form)?;
    let mut instructions = Vec::new(alloc);
    for line in lines.iter() {
        instructions.push(line.inst)?;
    }
    Ok(instructions)
}

// Each constant takes the fewest lines: ADDIU from R0, ORI from R0, LUI, or LUI and ORI.
#[test]
fn constants_have_their_forms(rt: HostRuntime) -> Result<(), Fail> {
    let alloc = rt.alloc();
    for (constant, imm) in [(0, 0), (0x7fff, 0x7fff), (0xffff_8000, 0x8000)] {
        let got = instructions(alloc, Form::SetConstant(constant, 2))?;
        let wanted = [Inst::Addiu { rs: 0, rt: 2, imm }];
        assert_eq!(rt; got.as_slice(), wanted.as_slice());
    }
    for imm in [0x8000, 0xffff] {
        let got = instructions(alloc, Form::SetConstant(imm, 2))?;
        let wanted = [Inst::Ori { rs: 0, rt: 2, imm }];
        assert_eq!(rt; got.as_slice(), wanted.as_slice());
    }
    let got = instructions(alloc, Form::SetConstant(0x1_0000, 2))?;
    assert_eq!(rt; got.as_slice(), [Inst::Lui { rt: 2, imm: 1 }].as_slice());
    let got = instructions(alloc, Form::SetConstant(0x1234_5678, 2))?;
    let upper = Inst::Lui {
        rt: 28,
        imm: 0x1234,
    };
    let lower = Inst::Ori {
        rs: 28,
        rt: 2,
        imm: 0x5678,
    };
    assert_eq!(rt; got.as_slice(), [upper, lower].as_slice());
    Ok(())
}
