use p9_lang::Ident;
use p9_tree_build::{Level, Pile, Scope};
use std::test::Fail;

#[test]
fn inner_names_hide_outer_ones(rt: HostRuntime) -> Result<(), Fail> {
    let alloc = rt.alloc();
    let mut scope = Scope {
        levels: Pile::new(alloc),
    };
    for is_type in [true, false] {
        scope.enter(Level::new(alloc))?;
        let name = Ident {
            list: b"T".to_vec(alloc)?,
        };
        scope.declare(alloc, name, is_type)?;
        assert_eq!(rt; scope.is_type(b"T"), is_type);
    }
    let _inner = scope.leave(alloc);
    assert!(rt; scope.is_type(b"T") && !scope.is_type(b"U"));
    Ok(())
}
