// Functions of many instructions.

use p9_abs::{Abs, Code, Def, Op, Operand, Operands, TextDef};
use p9_text::{Entries, ExpandFault, Routine, text_words};
use std::alloc::Global;
use std::test::Fail;

// A function of some NORs, of a word each, and of 599,185 RETs, of seven words each.
fn function(alloc: Global, count: u32) -> Result<TextDef, Fail> {
    let mut list = Vec::new(alloc);
    for _ in 0..count {
        let registers = [Operand::Reg(0), Operand::Reg(0), Operand::Reg(0)];
        let operands = Operands {
            list: registers.to_vec(alloc)?,
        };
        list.push(Abs {
            op: Op::Nor,
            operands,
        })?;
    }
    for _ in 0..599_185 {
        let operands = Operands {
            list: Vec::new(alloc),
        };
        list.push(Abs {
            op: Op::Ret,
            operands,
        })?;
    }
    Ok(TextDef {
        frame: 0,
        code: Code { list },
    })
}

// Of the start, an entry, three NORs and the RETs there are as many words as fit, and of one NOR more
// too many.
#[test]
fn text_fits_up_to_the_limit(rt: HostRuntime) -> Result<(), Fail> {
    let alloc = rt.alloc();
    let def = function(alloc, 3)?;
    let mut routines = Vec::new(alloc);
    routines.push(Routine {
        unit: 0,
        symbol: 2,
        def: &def,
    })?;
    let words = text_words(&routines).ok().ok_or("too large")?;
    assert_eq!(rt; words, 4_194_304);
    let entries = Entries::new(alloc, &routines)?;
    let own = Def {
        module: 0,
        symbol: 2,
    };
    assert_eq!(rt; entries.get(own), Some(0));
    let other = Def {
        module: 0,
        symbol: 1,
    };
    assert_eq!(rt; entries.get(other), None);
    Ok(())
}

#[test]
fn text_is_too_large(rt: HostRuntime) -> Result<(), Fail> {
    let alloc = rt.alloc();
    let def = function(alloc, 4)?;
    let mut routines = Vec::new(alloc);
    routines.push(Routine {
        unit: 0,
        symbol: 2,
        def: &def,
    })?;
    match text_words(&routines) {
        Err(ExpandFault::TextTooLarge(words)) => assert_eq!(rt; words, 4_194_305),
        _ => return Err("no refusal".into()),
    }
    Ok(())
}
