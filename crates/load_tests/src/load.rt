// Modules that are loaded, and modules that are refused.
use p9_abs::{AModule, Abs, Body, Code, Op, Operands, Symbol, Symbols, TextDef};
use p9_base::{Bytes, NoMemory};
use p9_load::{Expansion, LoadFault, expand_modules};
use p9_obj::{all_numbered, all_valid};
use std::alloc::Global;
use std::process::Abort;
use std::test::Fail;

fn symbol(alloc: Global, name: &[u8], body: Body) -> Result<Symbol, NoMemory> {
    let list = name.to_vec(alloc)?;
    Ok(Symbol {
        name: Bytes { list },
        local: false,
        sig: Bytes {
            list: Vec::new(alloc),
        },
        body,
    })
}

// A function main that only returns.
fn main(alloc: Global) -> Result<Symbol, NoMemory> {
    let operands = Operands {
        list: Vec::new(alloc),
    };
    let mut list = Vec::new(alloc);
    list.push(Abs {
        op: Op::Ret,
        operands,
    })?;
    let code = Code { list };
    symbol(alloc, b"main", Body::Text(TextDef { frame: 0, code }))
}

fn alone(list: Vec<Symbol>) -> AModule {
    AModule {
        symbols: Symbols { list },
    }
}

fn expanded(
    rt: &impl Abort,
    alloc: Global,
    modules: &Vec<AModule>,
) -> Result<Result<Expansion, LoadFault>, Fail> {
    let valid = all_valid(alloc, modules)?;
    if !valid {
        panic!(rt; "a module is not valid");
    }
    let numbered = all_numbered(modules);
    assert!(rt; numbered);
    let few = modules.len() < 1000;
    assert!(rt; few);
    Ok(expand_modules(alloc, modules))
}

// The built-in module's data have 24 bytes.
#[test]
fn a_main_is_enough(rt: HostRuntime) -> Result<(), Fail> {
    let alloc = rt.alloc();
    let mut modules = Vec::new(alloc);
    let none = expanded(&rt, alloc, &modules)?;
    assert!(rt; matches!(&none, Err(LoadFault::NoMain)));
    modules.push(alone(vec![in alloc; main(alloc)?]?))?;
    let expansion = expanded(&rt, alloc, &modules)?.ok().ok_or("refused")?;
    assert_eq!(rt; expansion.places.data_size, 24);
    assert_eq!(rt; expansion.places.bss_size, 0);
    modules.push(alone(vec![in alloc; main(alloc)?]?))?;
    let twice = expanded(&rt, alloc, &modules)?;
    assert!(rt; matches!(&twice, Err(LoadFault::Twice { i: 0, j: 1, .. })));
    Ok(())
}

#[test]
fn data_have_a_limit(rt: HostRuntime) -> Result<(), Fail> {
    let alloc = rt.alloc();
    let mut large = vec![in alloc; main(alloc)?]?;
    large.push(symbol(alloc, b"a", Body::Common(16_777_216))?)?;
    large.push(symbol(alloc, b"b", Body::Common(1))?)?;
    let modules = vec![in alloc; alone(large)]?;
    let refused = expanded(&rt, alloc, &modules)?;
    assert!(rt; matches!(&refused, Err(LoadFault::DataTooLarge(16_777_244))));
    Ok(())
}
