use p9_lang::Ident;
use std::alloc::AllocError;

#[test]
fn a_copied_name_has_the_same_bytes(rt: HostRuntime) -> Result<(), AllocError> {
    let alloc = rt.alloc();
    let name = Ident {
        list: b"main".to_vec(alloc)?,
    };
    let copy = name.copied(alloc)?;
    assert!(rt; copy.list.as_slice() == b"main".as_slice());
    Ok(())
}
