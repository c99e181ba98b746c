use p9_obj::write_obj;
use p9_reader::{ObjFault, ObjReader, read_obj};
use std::alloc::Global;
use std::test::Fail;

// TEXT f(SB), $0; RET
const RETURN: &[u8] = b"v9o\n\0\0\0\x01\0\0\0\x01\0\x02\0\x01f\0\0\0\0\0\0\0\0\0\0\0\x01\x1f";

// TEXT f(SB), $0; ADD $1, R2; RET
const SUM: &[u8] =
    b"v9o\n\0\0\0\x01\0\0\0\x01\0\x02\0\x01f\0\0\0\0\0\0\0\0\0\0\0\x02\x06\x02\0\0\0\x01\x01\x02\x01\x02\x1f";

// The fault that the bytes are refused with, or none.
fn refused(alloc: Global, bytes: &[u8]) -> Option<ObjFault> {
    read_obj(alloc, bytes).err()
}

#[test]
fn what_is_read_is_written_again(rt: HostRuntime) -> Result<(), Fail> {
    let alloc = rt.alloc();
    for object in [RETURN, SUM] {
        match read_obj(alloc, object) {
            Ok(module) => {
                let again = write_obj(alloc, &module)?;
                assert_eq!(rt; again.list.as_slice(), object);
            }
            Err(_) => assert!(rt; false),
        }
    }
    Ok(())
}

#[test]
fn cut_objects_are_refused_at_their_end(rt: HostRuntime) -> Result<(), Fail> {
    let alloc = rt.alloc();
    for size in 0..RETURN.len() {
        assert_eq!(rt;
            refused(alloc, &RETURN[..size]),
            Some(ObjFault::BadObject(size))
        );
    }
    Ok(())
}

#[test]
fn other_bytes_are_refused(rt: HostRuntime) -> Result<(), Fail> {
    let alloc = rt.alloc();
    let longer = b"v9o\n\0\0\0\x01\0\0\0\x01\0\x02\0\x01f\0\0\0\0\0\0\0\0\0\0\0\x01\x1f\0";
    let name_twice = b"v9o\n\0\0\0\x01\0\0\0\x02\0\x01\0\x01f\0\0\0\0\0\x01\0\x01f";
    let raw_twice = b"v9o\n\0\0\0\x01\0\0\0\x01\0\x03\0\x01f\0\0\0\0\0\0\0\x02\0\0\0\0\x04abcd\0";
    let table: [(&[u8], ObjFault); 8] = [
        (longer, ObjFault::BadObject(30)),
        (b"u9o\n\0\0\0\x01\0\0\0\x01\0\x02", ObjFault::BadObject(0)),
        (b"u", ObjFault::BadObject(1)),
        (name_twice, ObjFault::BadObject(25)),
        (raw_twice, ObjFault::BadObject(34)),
        (b"v9o\n\0\0\0\x09\0\0\0\x01\0\x02", ObjFault::Version(9)),
        (b"v9o\n\0\0\0\x09", ObjFault::Version(9)),
        (b"v9o\n\0\0\0\x01\0\0\0\x01\x02", ObjFault::BadObject(12)),
    ];
    for (bytes, fault) in table {
        assert_eq!(rt; refused(alloc, bytes), Some(fault));
    }
    Ok(())
}

#[test]
fn bytes_come_one_by_one(rt: HostRuntime) -> Result<(), Fail> {
    let alloc = rt.alloc();
    let mut reader = ObjReader::new(alloc)?;
    for byte in RETURN {
        assert_eq!(rt; reader.feed(alloc, &[*byte]), Ok(()));
    }
    assert_eq!(rt; reader.feed(alloc, &[0]), Err(ObjFault::BadObject(30)));
    assert_eq!(rt; reader.feed(alloc, &[0]), Err(ObjFault::BadObject(30)));
    assert_eq!(rt; reader.finish().err(), Some(ObjFault::BadObject(30)));
    Ok(())
}
