// The modules: each defines some 390 names, and uses some of those of the module before it.
ghost use Rattle.std.specs.Prelude.{◌<◌, ◌≤◌};

use p9_abs::{AModule, Abs, Body, Code, DataPiece, Op, Operands, Pieces, Symbol, Symbols, TextDef};
use p9_base::{Bytes, Name, NoMemory};
use std::alloc::Global;

const MODULES: u32 = 256;

const NAMES: u32 = 100_000;

// Name 0 is main, and the others are made of their number's digits.
fn name(alloc: Global, number: u32) -> Result<Name, NoMemory> {
    if number == 0 {
        return Ok(Bytes {
            list: b"main".to_vec(alloc)?,
        });
    }
    let mut list = b"name".to_vec(alloc)?;
    let mut rest = number;
    for _ in 0..6 {
        list.push(b'0' + (rest % 10) as u8)?;
        rest /= 10;
    }
    Ok(Bytes { list })
}

// A function that only returns.
fn text(alloc: Global) -> Result<Body, NoMemory> {
    let operands = Operands {
        list: Vec::new(alloc),
    };
    let mut list = Vec::new(alloc);
    list.push(Abs {
        op: Op::Ret,
        operands,
    })?;
    Ok(Body::Text(TextDef {
        frame: 0,
        code: Code { list },
    }))
}

fn data(alloc: Global) -> Result<Body, NoMemory> {
    let bytes = Bytes {
        list: b"four".to_vec(alloc)?,
    };
    let mut list = Vec::new(alloc);
    list.push(DataPiece::Raw(bytes))?;
    Ok(Body::Data(Pieces { list }))
}

fn body(alloc: Global, number: u32) -> Result<Body, NoMemory> {
    match number % 4 {
        0 => text(alloc),
        1 => data(alloc),
        _ => Ok(Body::Common(4)),
    }
}

fn symbol(alloc: Global, number: u32, body: Body) -> Result<Symbol, NoMemory> {
    let name = name(alloc, number)?;
    Ok(Symbol {
        name,
        local: false,
        sig: Bytes {
            list: Vec::new(alloc),
        },
        body,
    })
}

// The first name of a module.
fn first_name(number: u32) -> u32
    requires { number ≤ MODULES }
{
    number * NAMES / MODULES
}

// The module of that number: it defines its names, and uses each eighth of those of the one before.
fn module(alloc: Global, number: u32) -> Result<AModule, NoMemory>
    requires { number < MODULES }
{
    let first = first_name(number);
    let mut list = Vec::new(alloc);
    for defined in first..first_name(number + 1) {
        let body = body(alloc, defined)?;
        list.push(symbol(alloc, defined, body)?)?;
    }
    for used in first_name(number.saturating_sub(1))..first {
        if used % 8 == 0 {
            list.push(symbol(alloc, used, Body::Used)?)?;
        }
    }
    Ok(AModule {
        symbols: Symbols { list },
    })
}

/// All of the modules.
pub(crate) fn modules(alloc: Global) -> Result<Vec<AModule>, NoMemory> {
    let mut modules = Vec::new(alloc);
    for number in 0..MODULES {
        modules.push(module(alloc, number)?)?;
    }
    Ok(modules)
}
