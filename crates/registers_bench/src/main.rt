//! How quickly registers are given: a function of 100,000 instructions with 10,000 automatics, through
//! liveness, regions, homes and its frame.
#![tactic(auto)]

ghost use Rattle.std.specs.Prelude.{◌<◌};

use p9_abs::{AFunction, Abs, Autos, Code, Depths, Op, Operand, Operands};
use p9_base::NoMemory;
use p9_flow::live;
use p9_frame::settle;
use p9_ready::may_settle;
use p9_region::{assign, regions};
use std::alloc::Global;
use std::io;

const BLOCKS: u32 = 10_000;

const R1: Operand = Operand::Reg(1);

const R2: Operand = Operand::Reg(2);

fn push(alloc: Global, code: &mut Vec<Abs>, op: Op, operands: &[Operand]) -> Result<(), NoMemory> {
    let list = operands.to_vec(alloc)?;
    code.push(Abs {
        op,
        operands: Operands { list },
    })?;
    Ok(())
}

// The first five instructions of a block: its automatic is written, and a loop begins with it.
fn put_head(alloc: Global, code: &mut Vec<Abs>, n: u32) -> Result<(), NoMemory> {
    let own = Operand::Auto(n, 0);
    push(alloc, code, Op::MovW, &[Operand::Const(n), R1])?;
    push(alloc, code, Op::MovW, &[R1, own])?;
    push(alloc, code, Op::MovW, &[own, R2])?;
    push(alloc, code, Op::Add, &[R1, R2, R2])?;
    push(alloc, code, Op::MovW, &[R2, own])
}

// And the last five: behind a call its automatic and that of the block before are read.
fn put_tail(alloc: Global, code: &mut Vec<Abs>, n: u32) -> Result<(), NoMemory>
    requires { n < BLOCKS }
{
    let own = Operand::Auto(n, 0);
    let before = Operand::Auto(if n == 0 { 0 } else { n - 1 }, 0);
    push(alloc, code, Op::Jal, &[Operand::Func(0)])?;
    push(alloc, code, Op::MovW, &[own, R1])?;
    push(alloc, code, Op::MovW, &[before, R2])?;
    push(alloc, code, Op::Bne, &[R1, R2, Operand::Label(10 * n + 2)])?;
    if n + 1 < BLOCKS {
        push(alloc, code, Op::MovW, &[R2, R1])
    } else {
        push(alloc, code, Op::Ret, &[])
    }
}

fn long_function(alloc: Global) -> Result<AFunction, NoMemory> {
    let mut list = Vec::new(alloc);
    for n in 0..BLOCKS {
        put_head(alloc, &mut list, n)?;
        put_tail(alloc, &mut list, n)?;
    }
    let depths = vec![in alloc; 1u8; list.len()]?;
    let words = vec![in alloc; 4u32; BLOCKS as usize]?;
    Ok(AFunction {
        autos: Autos { list: words },
        code: Code { list },
        depth: Depths { list: depths },
    })
}

// What came of the function, in numbers.
#[derive(Drop)]
struct Sizes {
    given: usize,
    regions: usize,
    homed: usize,
    made: usize,
    frame: u32,
}

fn framed_sizes(alloc: Global, f: &AFunction) -> Result<Option<Sizes>, NoMemory> {
    if !may_settle(f) {
        return Ok(None);
    }
    let rows = live(alloc, f)?;
    let found = regions(alloc, f, &rows)?;
    let homes = assign(alloc, f, &found)?;
    let def = settle(alloc, f, &found, &homes)?;
    Ok(Some(Sizes {
        given: f.code.list.len(),
        regions: found.list.len(),
        homed: homes.list.iter().filter(|home| home.is_some()).count(),
        made: def.code.list.len(),
        frame: def.frame,
    }))
}

fn main(rt: HostRuntime) -> io::Result<()> {
    let Ok(f) = long_function(rt.alloc()) else {
        return println!(rt; "no memory");
    };
    let Ok(sizes) = framed_sizes(rt.alloc(), &f) else {
        return println!(rt; "no memory");
    };
    match sizes {
        None => println!(rt; "refused"),
        Some(s) => {
            println!(rt;
                "{} instructions, {} regions, {} homes",
                s.given, s.regions, s.homed
            )?;
            println!(rt;
                "{} instructions with moves, a frame of {} bytes",
                s.made, s.frame
            )
        }
    }
}
