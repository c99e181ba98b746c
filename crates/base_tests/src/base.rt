use p9_base::{
    ByteOrder, Bytes, Calls, Entry, FileFault, Files, Got, HostFiles, MemFiles, MemSink, MemSource,
    Put, ReadSource, Sink, Source, Took, WriteSink, field, fill, fill_at, get32, is_negative,
    is_signed_less, low8, low16, put_all, put32, sext8, sext16, shift_left, shift_right,
    shift_right_signed, signed_product, signed_quotient, signed_remainder, unsigned_product,
    word_and, word_complement, word_difference, word_negation, word_nor, word_or, word_product,
    word_sum, word_xor,
};
use std::alloc::{AllocError, Global};
use std::fs;
use std::test::Fail;

fn bytes(alloc: Global, text: &[u8]) -> Result<Bytes, AllocError> {
    Ok(Bytes {
        list: text.to_vec(alloc)?,
    })
}

fn calls(alloc: Global, numbers: &[u64]) -> Result<Calls, AllocError> {
    Ok(Calls {
        list: numbers.to_vec(alloc)?,
    })
}

// What each operation is by the R3000 manual and by C.

#[test]
fn fields_and_signs(rt: HostRuntime) {
    for (got, want) in [
        (sext8(0x1234_5680), 0xFFFF_FF80),
        (sext8(0x17F), 0x7F),
        (sext16(0x8000), 0xFFFF_8000),
        (sext16(0x7_7FFF), 0x7FFF),
        (field(0x8FA1_FFFC, 26, 6), 35),
        (field(0xFFFF_FFFF, 0, 32), 0xFFFF_FFFF),
        (low8(0x1234), 0x34),
        (low16(0x7_1234), 0x1234),
    ] {
        assert_eq!(rt; got, want);
    }
}

#[test]
fn words_by_their_byte_order(rt: HostRuntime) {
    for (order, half, word, written) in [
        (ByteOrder::Big, 0x0203, 0x0102_0304, [1, 2, 3, 4]),
        (ByteOrder::Little, 0x0302, 0x0403_0201, [4, 3, 2, 1]),
    ] {
        let mut bytes = [1, 2, 3, 4];
        assert_eq!(rt; order.half(&bytes, 1), half);
        assert_eq!(rt; order.word(&bytes, 0), word);
        order.set_word(&mut bytes, 0, 0x0102_0304);
        assert_eq!(rt; bytes, written);
        order.set_half(&mut bytes, 2, half);
        assert_eq!(rt; &bytes[2..], [2, 3].as_slice());
    }
}

#[test]
fn sums_and_products(rt: HostRuntime) {
    for (got, want) in [
        (word_sum(0xFFFF_FFFF, 2), 1),
        (word_difference(1, 2), 0xFFFF_FFFF),
        (word_negation(1), 0xFFFF_FFFF),
        (word_negation(0), 0),
        (word_product(0x10001, 0x10001), 0x20001),
    ] {
        assert_eq!(rt; got, want);
    }
    assert_eq!(rt; unsigned_product(0xFFFF_FFFF, 2), 0x1_FFFF_FFFE);
    assert_eq!(rt; signed_product(0xFFFF_FFFF, 2), 0xFFFF_FFFF_FFFF_FFFE);
}

// -7 / 2 is -3, and -7 % 2 is -1.
#[test]
fn signed_order_and_division(rt: HostRuntime) {
    assert!(rt; is_negative(0x8000_0000));
    assert!(rt; is_signed_less(0xFFFF_FFFF, 0));
    assert!(rt; !is_signed_less(1, 0xFFFF_FFFF));
    for (got, want) in [
        (signed_quotient(0xFFFF_FFF9, 2), 0xFFFF_FFFD),
        (signed_remainder(0xFFFF_FFF9, 2), 0xFFFF_FFFF),
        (signed_quotient(0x8000_0000, 0xFFFF_FFFF), 0x8000_0000),
    ] {
        assert_eq!(rt; got, want);
    }
}

#[test]
fn shifts_and_bits(rt: HostRuntime) {
    for (got, want) in [
        (shift_left(0x8000_0001, 4), 16),
        (shift_right(0x8000_0001, 4), 0x0800_0000),
        (shift_right_signed(0x8000_0001, 4), 0xF800_0000),
        (shift_right_signed(0x8000_0001, 0), 0x8000_0001),
        (word_and(12, 10), 8),
        (word_or(12, 10), 14),
        (word_xor(12, 10), 6),
        (word_complement(0), 0xFFFF_FFFF),
        (word_nor(12, 10), 0xFFFF_FFF1),
    ] {
        assert_eq!(rt; got, want);
    }
}

#[test]
fn words_in_bytes(rt: HostRuntime) {
    let mut memory = [9, 9, 9, 9, 9, 9];
    put32(&mut memory, 1, 0x1234_5678);
    assert_eq!(rt;
        memory.as_slice(),
        [9, 0x12, 0x34, 0x56, 0x78, 9].as_slice()
    );
    assert_eq!(rt; get32(&memory, 1), 0x1234_5678);
}

#[test]
fn memory_source_gives_its_bytes(rt: HostRuntime) -> Result<(), Fail> {
    let alloc = rt.alloc();
    let mut source = MemSource::new(bytes(alloc, b"abc")?, calls(alloc, &[1])?);
    let mut room = [0; 2];
    assert_eq!(rt; source.take(&mut room), Took::Got(2));
    assert_eq!(rt; room.as_slice(), b"ab".as_slice());
    assert_eq!(rt; source.take(&mut room), Took::Failed);
    assert_eq!(rt; source.take(&mut room), Took::Got(1));
    assert_eq!(rt; source.take(&mut room), Took::End);
    Ok(())
}

#[test]
fn memory_sink_takes_what_fits(rt: HostRuntime) -> Result<(), Fail> {
    let alloc = rt.alloc();
    let mut sink = MemSink::new(alloc, 3, calls(alloc, &[0])?)
        .ok()
        .ok_or("no memory")?;
    assert_eq!(rt; sink.put(b"ab"), Put::Failed);
    assert_eq!(rt; sink.put(b"ab"), Put::Wrote(2));
    assert_eq!(rt; sink.put(b"cd"), Put::Wrote(1));
    assert_eq!(rt; sink.put(b"d"), Put::Failed);
    assert_eq!(rt; sink.bytes(), b"abc".as_slice());
    Ok(())
}

#[test]
fn whole_rooms_and_pieces(rt: HostRuntime) -> Result<(), Fail> {
    let alloc = rt.alloc();
    let mut source = MemSource::new(bytes(alloc, b"abcdef")?, calls(alloc, &[])?);
    let mut room = [b'.'; 4];
    assert_eq!(rt; fill(&mut source, &mut room), Some(4));
    assert_eq!(rt; room, *b"abcd");
    assert_eq!(rt; fill_at(&mut source, &mut room, 1, 3), Some(2));
    assert_eq!(rt; room, *b"aefd");
    let mut sink = MemSink::new(alloc, 3, calls(alloc, &[])?)
        .ok()
        .ok_or("no memory")?;
    assert!(rt; put_all(&mut sink, b"ab"));
    assert!(rt; !put_all(&mut sink, b"cd"));
    assert_eq!(rt; sink.bytes(), b"abc".as_slice());
    Ok(())
}

#[test]
fn memory_files_keep_what_is_written(rt: HostRuntime) -> Result<(), Fail> {
    let alloc = rt.alloc();
    let entry = Entry {
        name: bytes(alloc, b"a")?,
        bytes: bytes(alloc, b"1")?,
    };
    let mut files = MemFiles::new(vec![in alloc; entry]?, calls(alloc, &[1])?);
    let (a, b, one) = (
        bytes(alloc, b"a")?,
        bytes(alloc, b"b")?,
        bytes(alloc, b"1")?,
    );
    assert!(rt; a == bytes(alloc, b"a")? && a != b);
    assert!(rt; matches!(files.write(alloc, &b, &a), Ok(())));
    assert!(rt; matches!(files.write(alloc, &b, &b), Err(FileFault::Failed)));
    assert!(rt; matches!(files.read(alloc, &b), Got::Found(found) if found == a));
    assert!(rt; matches!(files.read(alloc, &a), Got::Found(found) if found == one));
    assert!(rt; matches!(files.read(alloc, &bytes(alloc, b"c")?), Got::Absent));
    Ok(())
}

// A real reader, a real writer and the system's files give and get the same bytes.

#[test]
fn read_source_passes_the_right_bytes(rt: HostRuntime) {
    let mut source = ReadSource::new(b"xyz".as_slice());
    let mut room = [0; 8];
    assert_eq!(rt; source.take(&mut room), Took::Got(3));
    assert_eq!(rt; &room[..3], b"xyz".as_slice());
    assert_eq!(rt; source.take(&mut room), Took::End);
}

#[test]
fn write_sink_passes_the_right_bytes(rt: HostRuntime) {
    let mut written = [0; 4];
    let mut sink = WriteSink::new(written.as_mut_slice());
    assert_eq!(rt; sink.put(b"pqrstu"), Put::Wrote(4));
    // Nothing more fits, which counts as a failure.
    assert_eq!(rt; sink.put(b"tu"), Put::Failed);
    assert_eq!(rt; written.as_slice(), b"pqrs".as_slice());
}

#[test]
fn host_files_pass_the_right_bytes(rt: HostRuntime) -> Result<(), Fail> {
    let alloc = rt.alloc();
    let mut files = HostFiles::new(&rt);
    let name = bytes(alloc, b"p9_base.adapter.test")?;
    let held = bytes(alloc, b"held\n")?;
    assert!(rt; matches!(files.write(alloc, &name, &held), Ok(())));
    assert!(rt; matches!(files.read(alloc, &name), Got::Found(found) if found == held));
    fs::remove_file(&rt, "p9_base.adapter.test")?;
    assert!(rt; matches!(files.read(alloc, &name), Got::Absent));
    assert!(rt; matches!(files.read(alloc, &bytes(alloc, b"\xff")?), Got::Failed));
    Ok(())
}
