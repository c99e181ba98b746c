use crate::samples::{
    Cause, Kind, common, data, global, joined, main, module, place, refused, symbol, two,
};
use p9_abs::{AModule, Symbols};
use p9_names::Def;
use p9_obj::valid;
use std::test::Fail;

// Modules are numbered from 0, and the built-in one is the last.

#[test]
fn types_differ(rt: HostRuntime) -> Result<(), Fail> {
    let first = [main(), global(b"x", b"i", Kind::Common(4))];
    let second = [global(b"x", b"l", Kind::Used)];
    let modules = two(rt.alloc(), &first, &second)?;
    refused(&rt, rt.alloc(), &modules, Cause::Disagree, b"x", 0, 1);
    Ok(())
}

#[test]
fn sizes_differ(rt: HostRuntime) -> Result<(), Fail> {
    let first = [main(), common(b"x", 4)];
    let second = [data(b"x", b"eight of")];
    let modules = two(rt.alloc(), &first, &second)?;
    refused(&rt, rt.alloc(), &modules, Cause::Disagree, b"x", 0, 1);
    Ok(())
}

#[test]
fn data_twice(rt: HostRuntime) -> Result<(), Fail> {
    let first = [main(), data(b"x", b"four")];
    let second = [data(b"x", b"four")];
    let modules = two(rt.alloc(), &first, &second)?;
    refused(&rt, rt.alloc(), &modules, Cause::Twice, b"x", 0, 1);
    Ok(())
}

#[test]
fn data_before_common(rt: HostRuntime) -> Result<(), Fail> {
    let alloc = rt.alloc();
    let mut modules = two(alloc, &[main(), common(b"x", 4)], &[common(b"x", 4)])?;
    let without = place(&rt, alloc, &modules, b"x")?;
    assert_eq!(rt;
        without,
        Some(Def {
            module: 0,
            symbol: 1
        })
    );
    modules.push(module(alloc, &[data(b"x", b"four")])?)?;
    let with = place(&rt, alloc, &modules, b"x")?;
    assert_eq!(rt;
        with,
        Some(Def {
            module: 2,
            symbol: 0
        })
    );
    Ok(())
}

// The names of the table are main and the three functions of the built-in module.
#[test]
fn declared_and_not_used(rt: HostRuntime) -> Result<(), Fail> {
    let first = [main(), global(b"f", b"()v", Kind::Declared)];
    let modules = two(rt.alloc(), &first, &[])?;
    let table = joined(&rt, rt.alloc(), &modules)?;
    assert_eq!(rt; table.defs.len(), 4);
    Ok(())
}

#[test]
fn declared_and_called(rt: HostRuntime) -> Result<(), Fail> {
    let first = [
        global(b"main", b"()v", Kind::Calls(1)),
        global(b"f", b"()v", Kind::Declared),
    ];
    let modules = two(rt.alloc(), &first, &[])?;
    refused(&rt, rt.alloc(), &modules, Cause::Unresolved, b"f", 0, 0);
    Ok(())
}

#[test]
fn declared_and_named_by_an_address(rt: HostRuntime) -> Result<(), Fail> {
    for user in [Kind::Takes(1), Kind::Points(1)] {
        let first = [global(b"g", b"", user), global(b"x", b"i", Kind::Declared)];
        let modules = two(rt.alloc(), &[main()], &first)?;
        refused(&rt, rt.alloc(), &modules, Cause::Unresolved, b"x", 1, 0);
    }
    Ok(())
}

#[test]
fn main_is_missing(rt: HostRuntime) -> Result<(), Fail> {
    let modules = two(rt.alloc(), &[common(b"x", 4)], &[])?;
    refused(&rt, rt.alloc(), &modules, Cause::NoMain, b"", 0, 0);
    Ok(())
}

#[test]
fn main_of_another_type(rt: HostRuntime) -> Result<(), Fail> {
    let second = [global(b"main", b"()i", Kind::Returns)];
    let modules = two(rt.alloc(), &[], &second)?;
    refused(&rt, rt.alloc(), &modules, Cause::MainType, b"", 1, 0);
    Ok(())
}

#[test]
fn main_with_arguments(rt: HostRuntime) -> Result<(), Fail> {
    let first = [global(b"main", b"(i;**c;)v", Kind::Returns)];
    let modules = two(rt.alloc(), &first, &[])?;
    let table = joined(&rt, rt.alloc(), &modules)?;
    assert_eq!(rt; table.defs.len(), 4);
    Ok(())
}

#[test]
fn main_as_data(rt: HostRuntime) -> Result<(), Fail> {
    let modules = two(rt.alloc(), &[], &[data(b"main", b"four")])?;
    refused(&rt, rt.alloc(), &modules, Cause::MainType, b"", 1, 0);
    Ok(())
}

// The least second module counts, there the first symbol, and then the least first module.
#[test]
fn least_fields(rt: HostRuntime) -> Result<(), Fail> {
    let alloc = rt.alloc();
    let mut modules = two(
        alloc,
        &[main(), data(b"x", b"four")],
        &[data(b"y", b"four")],
    )?;
    let third = [data(b"y", b"four"), data(b"x", b"four")];
    modules.push(module(alloc, &third)?)?;
    refused(&rt, alloc, &modules, Cause::Twice, b"y", 1, 2);
    let mut modules = two(alloc, &[main(), common(b"x", 4)], &[common(b"x", 4)])?;
    modules.push(module(alloc, &[common(b"x", 8)])?)?;
    refused(&rt, alloc, &modules, Cause::Disagree, b"x", 0, 2);
    Ok(())
}

// The built-in module is module 2 here.
#[test]
fn exits_of_another_type(rt: HostRuntime) -> Result<(), Fail> {
    let second = [global(b"exits", b"(i;)v", Kind::Used)];
    let modules = two(rt.alloc(), &[main()], &second)?;
    refused(&rt, rt.alloc(), &modules, Cause::Disagree, b"exits", 1, 2);
    Ok(())
}

#[test]
fn own_read(rt: HostRuntime) -> Result<(), Fail> {
    let first = [global(b"read", b"(i;*v;l;)l", Kind::Returns)];
    let modules = two(rt.alloc(), &first, &[main()])?;
    refused(&rt, rt.alloc(), &modules, Cause::Twice, b"read", 0, 2);
    Ok(())
}

// Of two causes the first in the order is told: a name defined twice, no main, main of another
// type, a name that is not defined, records that disagree.

#[test]
fn twice_before_main(rt: HostRuntime) -> Result<(), Fail> {
    let alloc = rt.alloc();
    let modules = two(alloc, &[data(b"x", b"four")], &[data(b"x", b"four")])?;
    refused(&rt, alloc, &modules, Cause::Twice, b"x", 0, 1);
    let wrong_main = global(b"main", b"()i", Kind::Returns);
    let modules = two(
        alloc,
        &[data(b"x", b"four"), wrong_main],
        &[data(b"x", b"four")],
    )?;
    refused(&rt, alloc, &modules, Cause::Twice, b"x", 0, 1);
    Ok(())
}

#[test]
fn main_before_unresolved(rt: HostRuntime) -> Result<(), Fail> {
    let alloc = rt.alloc();
    let used = global(b"f", b"", Kind::Used);
    let modules = two(alloc, &[used], &[])?;
    refused(&rt, alloc, &modules, Cause::NoMain, b"", 0, 0);
    let wrong_main = global(b"main", b"()i", Kind::Returns);
    let modules = two(alloc, &[wrong_main, used], &[])?;
    refused(&rt, alloc, &modules, Cause::MainType, b"", 0, 0);
    Ok(())
}

#[test]
fn unresolved_before_disagreement(rt: HostRuntime) -> Result<(), Fail> {
    let first = [main(), common(b"x", 4)];
    let second = [common(b"x", 8), global(b"f", b"", Kind::Used)];
    let modules = two(rt.alloc(), &first, &second)?;
    refused(&rt, rt.alloc(), &modules, Cause::Unresolved, b"f", 1, 0);
    Ok(())
}

// A local and a global symbol may have the same name, and two global ones may not.
#[test]
fn names_are_distinct(rt: HostRuntime) -> Result<(), Fail> {
    let alloc = rt.alloc();
    for (local, want) in [(true, true), (false, false)] {
        let mut list = Vec::new(alloc);
        list.push(symbol(alloc, &common(b"x", 4), false)?)?;
        list.push(symbol(alloc, &common(b"x", 4), local)?)?;
        let m = AModule {
            symbols: Symbols { list },
        };
        assert_eq!(rt; valid(alloc, &m)?, want);
    }
    Ok(())
}
