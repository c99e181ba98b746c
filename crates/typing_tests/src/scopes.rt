use p9_base::NoMemory;
use p9_lang::{Bind, CType, Ident};
use p9_scopes::{Declared, Known, NameLevel, Names};
use std::alloc::Global;
use std::test::Fail;

fn ident(alloc: Global, name: &[u8]) -> Result<Ident, NoMemory> {
    Ok(Ident {
        list: Vec::from_slice(alloc, name)?,
    })
}

// What is known at first of a file in which `f` has a body.
fn first(alloc: Global) -> Result<Known, NoMemory> {
    let bodies = Names::new(alloc).with(alloc, ident(alloc, b"f")?)?;
    Known::new(alloc, bodies)
}

fn automatic(alloc: Global, name: &[u8], ty: CType) -> Result<Declared, NoMemory> {
    Ok(Declared {
        name: ident(alloc, name)?,
        ty,
        means: Bind::Auto(0),
        is_static: false,
        is_filled: false,
    })
}

fn type_letter(declared: Option<&Declared>) -> u8 {
    match declared {
        Some(declared) => match declared.ty {
            CType::Char => b'c',
            CType::Int => b'i',
            CType::Long => b'l',
            _ => b'?',
        },
        None => b'-',
    }
}

#[test]
fn lists_of_names(rt: HostRuntime) -> Result<(), Fail> {
    let f = ident(rt.alloc(), b"f")?;
    let g = ident(rt.alloc(), b"g")?;
    let names = Names::new(rt.alloc()).with(rt.alloc(), ident(rt.alloc(), b"f")?)?;
    assert!(rt; names.has(rt.alloc(), &f)?);
    assert!(rt; !names.has(rt.alloc(), &g)?);
    assert_eq!(rt; names.as_slice().len(), 1);
    Ok(())
}

// `x` is declared as a `char`, then as an `int`.
fn level(alloc: Global) -> Result<NameLevel, NoMemory> {
    NameLevel::new(alloc)
        .declared(alloc, automatic(alloc, b"x", CType::Char)?)?
        .declared(alloc, automatic(alloc, b"x", CType::Int)?)
}

#[test]
fn levels(rt: HostRuntime) -> Result<(), Fail> {
    let x = ident(rt.alloc(), b"x")?;
    let declared = level(rt.alloc())?;
    assert_eq!(rt; type_letter(declared.newest(&x)), b'i');
    assert_eq!(rt; type_letter(declared.before_newest(&x)), b'c');
    let retyped = declared.retyped(&x, CType::Long);
    assert_eq!(rt; type_letter(retyped.newest(&x)), b'l');
    assert_eq!(rt; retyped.as_slice().len(), 2);
    Ok(())
}

#[test]
fn blocks(rt: HostRuntime) -> Result<(), Fail> {
    let x = ident(rt.alloc(), b"x")?;
    let mut known = first(rt.alloc())?;
    known.open_block(rt.alloc())?;
    known.declare(rt.alloc(), automatic(rt.alloc(), b"x", CType::Char)?)?;
    assert_eq!(rt; type_letter(known.find(&x)), b'c');
    known.close_block();
    assert_eq!(rt; type_letter(known.find(&x)), b'-');
    Ok(())
}

#[test]
fn nodes(rt: HostRuntime) -> Result<(), Fail> {
    let mut known = first(rt.alloc())?;
    known.add_node(CType::Int, Bind::Nothing)?;
    assert_eq!(rt; known.next_node(), 1);
    known.set_type(0, CType::Char);
    known.set_meaning(0, Bind::Auto(3));
    assert!(rt; matches!(known.meaning(0), Some(Bind::Auto(3))));
    Ok(())
}

#[test]
fn counters(rt: HostRuntime) -> Result<(), Fail> {
    let f = ident(rt.alloc(), b"f")?;
    let mut known = first(rt.alloc())?;
    assert!(rt; known.has_body(rt.alloc(), &f)?);
    assert_eq!(rt; known.take_static()?, 0);
    assert_eq!(rt; known.take_auto()?, 0);
    assert_eq!(rt; known.next_auto(), 1);
    known.set_autos(5);
    assert_eq!(rt; known.next_auto(), 5);
    Ok(())
}
