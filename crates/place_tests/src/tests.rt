// Modules of data, and their places.
use p9_abs::{AModule, Abs, Body, Code, DataPiece, Op, Operands, Pieces, Symbol, Symbols, TextDef};
use p9_base::{Bytes, NoMemory};
use p9_names::resolve;
use p9_obj::{all_numbered, all_valid};
use p9_place::{PlaceFault, Places, Spot, place};
use std::alloc::Global;
use std::process::Abort;
use std::test::Fail;

fn bytes(alloc: Global, list: &[u8]) -> Result<Bytes, NoMemory> {
    Ok(Bytes {
        list: list.to_vec(alloc)?,
    })
}

fn symbol(alloc: Global, name: &[u8], body: Body) -> Result<Symbol, NoMemory> {
    Ok(Symbol {
        name: bytes(alloc, name)?,
        local: false,
        sig: bytes(alloc, b"")?,
        body,
    })
}

// A function main that only returns.
fn main(alloc: Global) -> Result<Symbol, NoMemory> {
    let operands = Operands {
        list: Vec::new(alloc),
    };
    let mut list = Vec::new(alloc);
    list.push(Abs {
        op: Op::Ret,
        operands,
    })?;
    let code = Code { list };
    symbol(alloc, b"main", Body::Text(TextDef { frame: 0, code }))
}

fn data(alloc: Global, name: &[u8], raw: &[u8]) -> Result<Symbol, NoMemory> {
    let mut list = Vec::new(alloc);
    list.push(DataPiece::Raw(bytes(alloc, raw)?))?;
    symbol(alloc, name, Body::Data(Pieces { list }))
}

fn alone(list: Vec<Symbol>) -> AModule {
    AModule {
        symbols: Symbols { list },
    }
}

// The places of modules that join; none where data are too large, with their size.
fn placed(
    rt: &impl Abort,
    alloc: Global,
    modules: &Vec<AModule>,
) -> Result<Result<Places, u64>, Fail> {
    let valid = all_valid(alloc, modules)?;
    if !valid {
        panic!(rt; "a module is not valid");
    }
    let numbered = all_numbered(modules);
    assert!(rt; numbered);
    let few = modules.len() < 1000;
    assert!(rt; few);
    let table = resolve(alloc, modules)?;
    match place(alloc, modules, &table) {
        Ok(places) => Ok(Ok(places)),
        Err(PlaceFault::DataTooLarge(size)) => Ok(Err(size)),
        Err(PlaceFault::Memory) => Err("no memory".into()),
    }
}

fn spot(module: u32, symbol: u32, offset: u32) -> Spot {
    Spot {
        module,
        symbol,
        offset,
    }
}

// The built-in module's data have 24 bytes.
#[test]
fn data_fit_up_to_the_limit(rt: HostRuntime) -> Result<(), Fail> {
    let alloc = rt.alloc();
    let mut large = vec![in alloc; main(alloc)?]?;
    large.push(symbol(alloc, b"a", Body::Common(16_777_216))?)?;
    large.push(symbol(alloc, b"b", Body::Common(1))?)?;
    let modules = vec![in alloc; alone(large)]?;
    let answer = placed(&rt, alloc, &modules)?;
    assert_eq!(rt; answer.err(), Some(16_777_244));
    let mut fitting = vec![in alloc; main(alloc)?]?;
    fitting.push(symbol(alloc, b"a", Body::Common(16_777_192))?)?;
    let modules = vec![in alloc; alone(fitting)]?;
    let places = placed(&rt, alloc, &modules)?.ok().ok_or("too large")?;
    assert_eq!(rt; places.data_size, 24);
    assert_eq!(rt; places.bss_size, 16_777_192);
    assert_eq!(rt; places.bss.as_slice(), [spot(0, 1, 24)].as_slice());
    Ok(())
}

#[test]
fn objects_lie_in_order(rt: HostRuntime) -> Result<(), Fail> {
    let alloc = rt.alloc();
    let mut first = vec![in alloc; main(alloc)?]?;
    first.push(symbol(alloc, b"c", Body::Common(5))?)?;
    first.push(data(alloc, b"x", b"five5")?)?;
    let mut second = vec![in alloc; symbol(alloc, b"c", Body::Common(5))?]?;
    second.push(data(alloc, b"y", b"1")?)?;
    second.push(symbol(alloc, b"d", Body::Common(4))?)?;
    let mut modules = vec![in alloc; alone(first)]?;
    modules.push(alone(second))?;
    let places = placed(&rt, alloc, &modules)?.ok().ok_or("too large")?;
    // _argv, _end and _vout of the built-in module come last.
    let inits = [
        spot(0, 2, 0),
        spot(1, 1, 8),
        spot(2, 1, 12),
        spot(2, 3, 20),
        spot(2, 7, 28),
    ];
    assert_eq!(rt; places.inits.as_slice(), inits.as_slice());
    assert_eq!(rt; places.data_size, 36);
    let bss = [spot(0, 1, 36), spot(1, 2, 44)];
    assert_eq!(rt; places.bss.as_slice(), bss.as_slice());
    assert_eq!(rt; places.bss_size, 12);
    Ok(())
}
