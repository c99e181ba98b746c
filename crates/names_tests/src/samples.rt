// Small modules for tests, and what their joining answered.
use indexmap::IndexMap;
use p9_abs::{
    AModule, Abs, Body, Code, DataPiece, Op, Operand, Operands, Pieces, Symbol, Symbols, TextDef,
};
use p9_base::{Bytes, NoMemory};
use p9_names::{Def, LinkFault, Table, resolve};
use p9_obj::{all_numbered, all_valid};
use std::alloc::Global;
use std::process::Abort;

/// What a sample symbol stands for: a function that only returns, one that calls a symbol first, or
/// one that takes a symbol's address; data of these bytes, or of a symbol's address.
#[derive(Clone, Copy)]
pub(crate) enum Kind<'a> {
    Declared,
    Used,
    Returns,
    Calls(u32),
    Takes(u32),
    Data(&'a [u8]),
    Points(u32),
    Common(u32),
}

/// A sample of a global symbol.
#[derive(Clone, Copy)]
pub(crate) struct Sample<'a> {
    pub(crate) name: &'a [u8],
    pub(crate) sig: &'a [u8],
    pub(crate) kind: Kind<'a>,
}

pub(crate) fn global<'a>(name: &'a [u8], sig: &'a [u8], kind: Kind<'a>) -> Sample<'a> {
    Sample { name, sig, kind }
}

/// A main of the right type that only returns.
pub(crate) fn main<'a>() -> Sample<'a> {
    global(b"main", b"()v", Kind::Returns)
}

pub(crate) fn data<'a>(name: &'a [u8], bytes: &'a [u8]) -> Sample<'a> {
    global(name, b"", Kind::Data(bytes))
}

pub(crate) fn common<'a>(name: &'a [u8], size: u32) -> Sample<'a> {
    global(name, b"", Kind::Common(size))
}

fn bytes(alloc: Global, list: &[u8]) -> Result<Bytes, NoMemory> {
    Ok(Bytes {
        list: list.to_vec(alloc)?,
    })
}

fn add(alloc: Global, code: &mut Vec<Abs>, op: Op, operands: &[Operand]) -> Result<(), NoMemory> {
    let operands = Operands {
        list: operands.to_vec(alloc)?,
    };
    code.push(Abs { op, operands })?;
    Ok(())
}

/// A function of this instruction and RET.
pub(crate) fn function(
    alloc: Global,
    frame: u32,
    op: Op,
    operands: &[Operand],
) -> Result<Body, NoMemory> {
    let mut list = Vec::new(alloc);
    add(alloc, &mut list, op, operands)?;
    add(alloc, &mut list, Op::Ret, &[])?;
    Ok(Body::Text(TextDef {
        frame,
        code: Code { list },
    }))
}

fn pointer(alloc: Global, symbol: u32) -> Result<Body, NoMemory> {
    let mut list = Vec::new(alloc);
    list.push(DataPiece::Address { symbol, offset: 0 })?;
    Ok(Body::Data(Pieces { list }))
}

fn raw(alloc: Global, list: &[u8]) -> Result<Body, NoMemory> {
    let bytes = bytes(alloc, list)?;
    let mut list = Vec::new(alloc);
    list.push(DataPiece::Raw(bytes))?;
    Ok(Body::Data(Pieces { list }))
}

fn body(alloc: Global, kind: Kind) -> Result<Body, NoMemory> {
    match kind {
        Kind::Declared => Ok(Body::Declared),
        Kind::Used => Ok(Body::Used),
        Kind::Returns => function(alloc, 0, Op::Ret, &[]),
        Kind::Calls(symbol) => function(alloc, 0, Op::Jal, &[Operand::Func(symbol)]),
        Kind::Takes(symbol) => {
            let operands = [Operand::AddrSB(symbol, 0), Operand::Reg(1)];
            function(alloc, 0, Op::MovW, &operands)
        }
        Kind::Data(list) => raw(alloc, list),
        Kind::Points(symbol) => pointer(alloc, symbol),
        Kind::Common(size) => Ok(Body::Common(size)),
    }
}

pub(crate) fn symbol(alloc: Global, sample: &Sample, local: bool) -> Result<Symbol, NoMemory> {
    let name = bytes(alloc, sample.name)?;
    let sig = bytes(alloc, sample.sig)?;
    let body = body(alloc, sample.kind)?;
    Ok(Symbol {
        name,
        local,
        sig,
        body,
    })
}

pub(crate) fn module(alloc: Global, samples: &[Sample]) -> Result<AModule, NoMemory> {
    let mut list = Vec::new(alloc);
    for sample in samples {
        list.push(symbol(alloc, sample, false)?)?;
    }
    Ok(AModule {
        symbols: Symbols { list },
    })
}

/// A module of one symbol.
pub(crate) fn alone(symbol: Symbol, alloc: Global) -> Result<AModule, NoMemory> {
    let mut list = Vec::new(alloc);
    list.push(symbol)?;
    Ok(AModule {
        symbols: Symbols { list },
    })
}

/// Two modules of these symbols.
pub(crate) fn two(
    alloc: Global,
    first: &[Sample],
    second: &[Sample],
) -> Result<Vec<AModule>, NoMemory> {
    let mut modules = Vec::new(alloc);
    modules.push(module(alloc, first)?)?;
    modules.push(module(alloc, second)?)?;
    Ok(modules)
}

/// What the modules join to. They have to be valid.
pub(crate) fn joined(
    rt: &impl Abort,
    alloc: Global,
    modules: &Vec<AModule>,
) -> Result<Table, LinkFault> {
    let valid = all_valid(alloc, modules)?;
    if !valid {
        panic!(rt; "a module is not valid");
    }
    let numbered = all_numbered(modules);
    assert!(rt; numbered);
    let few = modules.len() < 1000;
    assert!(rt; few);
    resolve(alloc, modules)
}

/// Where the name is defined among modules that join.
pub(crate) fn place(
    rt: &impl Abort,
    alloc: Global,
    modules: &Vec<AModule>,
    name: &[u8],
) -> Result<Option<Def>, LinkFault> {
    let table = joined(rt, alloc, modules)?;
    let name = bytes(alloc, name)?;
    Ok(table.defs.get(&name).copied())
}

/// A cause of a refusal.
#[derive(Clone, Copy, Debug, PartialEq, Eq)]
pub(crate) enum Cause {
    Twice,
    NoMain,
    MainType,
    Unresolved,
    Disagree,
    Memory,
}

fn cause_of(fault: &LinkFault) -> Cause {
    match fault {
        LinkFault::Twice { .. } => Cause::Twice,
        LinkFault::NoMain => Cause::NoMain,
        LinkFault::MainType { .. } => Cause::MainType,
        LinkFault::Unresolved { .. } => Cause::Unresolved,
        LinkFault::Disagree { .. } => Cause::Disagree,
        LinkFault::Memory => Cause::Memory,
    }
}

// Whether the fault has this name, where it has one, and these modules, where it has them.
fn has_fields(fault: &LinkFault, name: &[u8], first: u32, second: u32) -> bool {
    match fault {
        LinkFault::Twice { name: n, i, j } | LinkFault::Disagree { name: n, i, j } => {
            n.list.as_slice() == name && *i == first && *j == second
        }
        LinkFault::Unresolved { name: n, i } => n.list.as_slice() == name && *i == first,
        LinkFault::MainType { i } => *i == first,
        LinkFault::NoMain | LinkFault::Memory => true,
    }
}

/// The modules are refused for this cause, with this name and these modules.
pub(crate) fn refused(
    rt: &impl Abort,
    alloc: Global,
    modules: &Vec<AModule>,
    want: Cause,
    name: &[u8],
    first: u32,
    second: u32,
) {
    match joined(rt, alloc, modules) {
        Ok(_) => panic!(rt; "the modules join"),
        Err(fault) => {
            assert_eq!(rt; cause_of(&fault), want);
            assert!(rt; has_fields(&fault, name, first, second), "{fault}");
        }
    }
}
