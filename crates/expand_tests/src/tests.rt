// The lines of a small program.
use p9_abs::{AModule, Abs, Body, Code, Op, Operand, Operands, Symbol, Symbols, TextDef};
use p9_base::{Bytes, NoMemory};
use p9_expand::expand;
use p9_names::{builtin, resolve};
use p9_obj::{all_numbered, all_valid};
use p9_place::place;
use p9_r3k::{Inst, Lines};
use p9_text::{ExpandFault, routines, text_words};
use std::alloc::Global;
use std::process::Abort;
use std::test::Fail;

// A function main of some NORs and then some RETs.
fn main(alloc: Global, nors: u32, rets: u32) -> Result<Symbol, NoMemory> {
    let mut list = Vec::new(alloc);
    for _ in 0..nors {
        let registers = [Operand::Reg(0), Operand::Reg(0), Operand::Reg(0)];
        let operands = Operands {
            list: registers.to_vec(alloc)?,
        };
        list.push(Abs {
            op: Op::Nor,
            operands,
        })?;
    }
    for _ in 0..rets {
        let operands = Operands {
            list: Vec::new(alloc),
        };
        list.push(Abs {
            op: Op::Ret,
            operands,
        })?;
    }
    let code = Code { list };
    Ok(Symbol {
        name: Bytes {
            list: b"main".to_vec(alloc)?,
        },
        local: false,
        sig: Bytes {
            list: Vec::new(alloc),
        },
        body: Body::Text(TextDef { frame: 0, code }),
    })
}

// A module of main alone.
fn alone(alloc: Global, nors: u32, rets: u32) -> Result<AModule, NoMemory> {
    let symbols = Symbols {
        list: vec![in alloc; main(alloc, nors, rets)?]?,
    };
    Ok(AModule { symbols })
}

// The lines of modules that join and fit.
fn expanded(rt: &impl Abort, alloc: Global, modules: &Vec<AModule>) -> Result<Lines, Fail> {
    let valid = all_valid(alloc, modules)?;
    if !valid {
        panic!(rt; "a module is not valid");
    }
    let numbered = all_numbered(modules);
    assert!(rt; numbered);
    let few = modules.len() < 1000;
    assert!(rt; few);
    let table = resolve(alloc, modules)?;
    let places = place(alloc, modules, &table)?;
    Ok(expand(alloc, modules, &table, &places)?.lines)
}

// The words of a program of main alone, and of the built-in functions.
fn words(
    rt: &impl Abort,
    alloc: Global,
    nors: u32,
    rets: u32,
) -> Result<Result<u32, ExpandFault>, Fail> {
    let modules = vec![in alloc; alone(alloc, nors, rets)?]?;
    let numbered = all_numbered(&modules);
    assert!(rt; numbered);
    let few = modules.len() < 1000;
    assert!(rt; few);
    let last = builtin(alloc)?;
    let routines = routines(alloc, &modules, &last)?;
    Ok(text_words(&routines))
}

fn line(lines: &Lines, number: usize) -> Result<(Inst, Option<u32>), Fail> {
    let line = lines.list.get(number).ok_or("no line")?;
    Ok((line.inst, line.target))
}

// The start has two lines, _main 13, main one, and the built-in functions behind it four each.
#[test]
fn program_has_lines(rt: HostRuntime) -> Result<(), Fail> {
    let alloc = rt.alloc();
    let modules = vec![in alloc; alone(alloc, 0, 1)?]?;
    let lines = expanded(&rt, alloc, &modules)?;
    assert_eq!(rt; lines.list.len(), 28);
    let mut targets = Vec::new(alloc);
    for (i, line) in lines.list.iter().enumerate() {
        if line.is_target {
            targets.push(i)?;
        }
    }
    assert_eq!(rt; targets.as_slice(), [2, 15, 16, 20, 24].as_slice());
    let frame = Inst::Addiu {
        rs: 29,
        rt: 29,
        imm: 0xfff4,
    };
    assert_eq!(rt; line(&lines, 2)?, (frame, None));
    let call = Inst::Jal { index: 0 };
    assert_eq!(rt; line(&lines, 8)?, (call, Some(15)));
    assert_eq!(rt; line(&lines, 11)?, (call, Some(16)));
    assert_eq!(rt; line(&lines, 15)?, (Inst::Jr { rs: 31 }, None));
    let base = lines
        .list
        .get(0)
        .ok_or("no line")?
        .value
        .ok_or("no address")?;
    assert_eq!(rt; (base.module, base.symbol, base.offset), (1, 1, 32_766));
    Ok(())
}

// The start, _main and the built-in functions weigh 83 words, a RET seven, a NOR one.
#[test]
fn text_fits_up_to_the_limit(rt: HostRuntime) -> Result<(), Fail> {
    let alloc = rt.alloc();
    let fitting = words(&rt, alloc, 3, 599_174)?.ok();
    assert_eq!(rt; fitting, Some(4_194_304));
    match words(&rt, alloc, 4, 599_174)? {
        Err(ExpandFault::TextTooLarge(larger)) => assert_eq!(rt; larger, 4_194_305),
        _ => panic!(rt; "no refusal"),
    }
    Ok(())
}
