// Executables of assembled modules, with words encoded by the manual.
use p9_asm::assemble;
use p9_load::{LoadFault, Loaded, load};
use std::alloc::Global;
use std::test::Fail;

fn loaded(alloc: Global, text: &str) -> Result<Result<Loaded, LoadFault>, Fail> {
    let module = assemble(alloc, text.as_bytes())?;
    let mut modules = Vec::new(alloc);
    modules.push(module)?;
    Ok(load(alloc, &modules))
}

fn word(bytes: &[u8], place: usize) -> Result<u32, Fail> {
    let (_, rest) = bytes.split_at_checked(place).ok_or("short")?;
    match rest {
        [a, b, c, d, ..] => Ok(u32::from_be_bytes([*a, *b, *c, *d])),
        _ => Err(Fail::from("short")),
    }
}

// The text has 16 lines before main, and the data begin at 0x2000 with _argv, which names _vout.
#[test]
fn a_main_that_returns(rt: HostRuntime) -> Result<(), Fail> {
    let alloc = rt.alloc();
    let image = loaded(alloc, "TEXT main(SB), $0\nRET\n")?
        .ok()
        .ok_or("refused")?;
    assert_eq!(rt; image.entry, 0x1020);
    let bytes = image.bytes.list.as_slice();
    let header = [0x407, image.text_size, 24, 0];
    for (k, want) in header.iter().enumerate() {
        let place = 4 * k;
        assert_eq!(rt; word(bytes, place)?, *want);
    }
    assert_eq!(rt; word(bytes, 20)?, 0x1020);
    let text = [
        0x3c1e_0000,
        0x37de_9ffe,
        0x27bd_fff4,
        0xafbf_0000,
        0x3c1c_0000,
        0x3782_2000,
        0xafa2_0008,
        0x0c00_0418,
        0x2401_0001,
    ];
    for (k, want) in text.iter().enumerate() {
        let place = 32 + 4 * k;
        assert_eq!(rt; word(bytes, place)?, *want);
    }
    assert_eq!(rt; image.places.as_slice().first(), Some(&0x1028));
    assert_eq!(rt; image.places.as_slice().get(8), Some(&0x1060));
    assert_eq!(rt; word(bytes, 32 + 64)?, 0x03e0_0008);
    Ok(())
}

// The data of the module come before the built-in module's.
#[test]
fn data_have_addresses(rt: HostRuntime) -> Result<(), Fail> {
    let alloc = rt.alloc();
    let text =
        "GLOBL t(SB), $4\nDATA t+0(SB)/4, $u+2(SB)\nGLOBL u(SB), $6\nTEXT main(SB), $0\nRET\n";
    let image = loaded(alloc, text)?.ok().ok_or("refused")?;
    let bytes = image.bytes.list.as_slice();
    assert_eq!(rt; word(bytes, 8)?, 28);
    assert_eq!(rt; word(bytes, 12)?, 8);
    let start = 32 + image.text_size as usize;
    let data = [0x201e, 0x2014, 0, 0x6d61_696e, 0, 0x762e_6f75, 0x7400_0000];
    for (k, want) in data.iter().enumerate() {
        let place = start + 4 * k;
        assert_eq!(rt; word(bytes, place)?, *want);
    }
    let symbols = bytes.get(start + 28..).ok_or("short")?;
    let first = [
        0, 0, 0x10, 0x28, 0xf4, b'_', b'm', b'a', b'i', b'n', 0, 0, 0, 0x10, 0x60, 0xd4,
    ];
    assert_eq!(rt; symbols.get(..16), Some(first.as_slice()));
    let last = [0, 0, 0x20, 0x1c, 0xc2, b'u', 0];
    assert_eq!(rt;
        symbols.get(symbols.len().saturating_sub(7)..),
        Some(last.as_slice())
    );
    Ok(())
}

#[test]
fn no_main(rt: HostRuntime) -> Result<(), Fail> {
    let alloc = rt.alloc();
    let refused = loaded(alloc, "TEXT f(SB), $0\nRET\n")?;
    assert!(rt; matches!(&refused, Err(LoadFault::NoMain)));
    Ok(())
}
