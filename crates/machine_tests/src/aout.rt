use p9_aout::{AoutFault, AoutSym, Image, read_aout, read_with_magic, write_aout};
use p9_base::Bytes;
use std::test::Fail;

// Three instructions, no data, and twelve bytes of a table for debuggers.
const EXITS: [u8; 56] = [
    0, 0, 4, 7, 0, 0, 0, 12, 0, 0, 0, 0, 0, 0, 0, 0, // magic, text, data, bss
    0, 0, 0, 0, 0, 0, 0x10, 0x20, 0, 0, 0, 0, 0, 0, 0, 12, // symbols, entry, two tables
    0x27, 0xbd, 0xff, 0xf0, 0x24, 1, 0, 8, 0, 0, 0, 12, // ADDIU, ADDIU, SYSCALL
    0, 0, 0, 0, 0, 0, 0, 0, 0, 0, 0, 0,
];

#[test]
fn reads_whole_and_writes_again(rt: HostRuntime) -> Result<(), Fail> {
    let image = read_aout(rt.alloc(), &EXITS)?;
    assert_eq!(rt; image.entry, 0x1020);
    assert_eq!(rt; image.text.list.as_slice(), &EXITS[32..44]);
    assert_eq!(rt; image.init.list.len(), 0);
    assert_eq!(rt; image.bss, 0);
    assert_eq!(rt; image.syms.len(), 0);
    let bytes = write_aout(rt.alloc(), &image).ok().ok_or("no memory")?;
    let (header, rest) = bytes.list.split_at_checked(28).ok_or("short")?;
    assert_eq!(rt; header, &EXITS[..28]);
    assert_eq!(rt;
        rest,
        [
            0, 0, 0, 0, 0x27, 0xbd, 0xff, 0xf0, 0x24, 1, 0, 8, 0, 0, 0, 12
        ]
        .as_slice()
    );
    Ok(())
}

#[test]
fn refuses_by_the_first_fault(rt: HostRuntime) -> Result<(), Fail> {
    let table = [
        (55, 3, 7, AoutFault::ShortFile(56)),
        (31, 3, 7, AoutFault::ShortFile(32)),
        (56, 3, 8, AoutFault::BadMagic(0x408)),
        (56, 7, 10, AoutFault::BadSegment),
        (40, 7, 10, AoutFault::BadSegment),
        (56, 23, 0x2c, AoutFault::BadSegment),
        (56, 19, 1, AoutFault::ShortFile(57)),
    ];
    for (length, place, byte, fault) in table {
        let mut bytes = EXITS;
        bytes[place] = byte;
        let answer = read_aout(rt.alloc(), &bytes[..length]);
        assert_eq!(rt; answer.err(), Some(fault), "at {place}");
    }
    let mut bytes = EXITS;
    bytes[2] = 0x01;
    bytes[3] = 0xeb;
    assert_eq!(rt;
        read_aout(rt.alloc(), &bytes).err(),
        Some(AoutFault::BadMagic(491))
    );
    Ok(())
}

#[test]
fn reads_for_another_machine(rt: HostRuntime) -> Result<(), Fail> {
    // The magic number of the little-endian R3000.
    let mut bytes = EXITS;
    bytes[2] = 9;
    let image = read_with_magic(rt.alloc(), 0x907, &bytes)?;
    assert_eq!(rt; image.entry, 0x1020);
    assert_eq!(rt;
        read_with_magic(rt.alloc(), 0x907, &EXITS).err(),
        Some(AoutFault::BadMagic(0x407))
    );
    Ok(())
}

#[test]
fn writes_a_symbol(rt: HostRuntime) -> Result<(), Fail> {
    let mut image = read_aout(rt.alloc(), &EXITS)?;
    let name = Bytes {
        list: b"main".to_vec(rt.alloc())?,
    };
    let mut syms = Vec::new(rt.alloc());
    syms.push(AoutSym {
        value: 0x1020,
        letter: b'T',
        name,
    })
    .ok()
    .ok_or("no memory")?;
    image.syms = syms;
    let bytes = write_aout(rt.alloc(), &image).ok().ok_or("no memory")?;
    let (header, rest) = bytes.list.split_at_checked(44).ok_or("short")?;
    assert_eq!(rt; &header[16..20], [0, 0, 0, 10].as_slice());
    assert_eq!(rt;
        rest,
        [0, 0, 0x10, 0x20, 0xd4, b'm', b'a', b'i', b'n', 0].as_slice()
    );
    Ok(())
}
