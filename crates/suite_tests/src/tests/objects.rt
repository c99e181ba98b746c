// Objects of assembler files.
use super::{bytes, calls, words};
use p9_base::{Files, Got, MemFiles, MemSink, MemSource};
use p9_suite::suite;
use std::alloc::Global;
use std::test::Fail;

const ONE: &[u8] = b"TEXT f(SB), $0\nRET\n";

const OBJECT: &[u8] =
    b"v9o\n\x00\x00\x00\x01\x00\x00\x00\x01\x00\x02\x00\x01f\x00\x00\x00\x00\x00\x00\x00\x00\x00\x00\x00\x01\x1f";

// A line over a file, the calls on the store that fail, its answer, and the file that then has the
// object, if one has.
#[derive(Clone, Copy)]
struct Row<'a> {
    line: &'a [u8],
    text: &'a [u8],
    fails: &'a [u64],
    status: u8,
    err: &'a [u8],
    object: Option<&'a [u8]>,
}

fn answered<'a>(
    line: &'a [u8],
    text: &'a [u8],
    status: u8,
    err: &'a [u8],
    object: Option<&'a [u8]>,
) -> Row<'a> {
    Row {
        line,
        text,
        fails: &[],
        status,
        err,
        object,
    }
}

// Does the line, where `f.s` has the text, and compares what it comes to.
fn is_answered(alloc: Global, row: &Row<'_>) -> Result<bool, Fail> {
    let words = words(alloc, row.line)?;
    let mut input = MemSource::new(bytes(alloc, b"input")?, calls(alloc, &[])?);
    let mut out = MemSink::new(alloc, 100, calls(alloc, &[])?)?;
    let mut err = MemSink::new(alloc, 300, calls(alloc, &[])?)?;
    let mut files = MemFiles::new(Vec::new(alloc), calls(alloc, row.fails)?);
    files
        .write(alloc, &bytes(alloc, b"f.s")?, &bytes(alloc, row.text)?)
        .map_err(|_| "not written")?;
    let status = suite(alloc, &words, &mut input, &mut out, &mut err, &mut files);
    let is_object = match row.object {
        Some(name) => match files.read(alloc, &bytes(alloc, name)?) {
            Got::Found(object) => object.list.as_slice() == OBJECT,
            _ => false,
        },
        None => match files.read(alloc, &bytes(alloc, b"f.v")?) {
            Got::Absent => true,
            _ => false,
        },
    };
    Ok(status == row.status && err.bytes() == row.err && out.bytes().is_empty() && is_object)
}

#[test]
fn objects(rt: HostRuntime) -> Result<(), Fail> {
    let rows = [
        answered(b"va f.s", ONE, 0, b"", Some(b"f.v")),
        answered(b"va -o g.v f.s", ONE, 0, b"", Some(b"g.v")),
        answered(
            b"va f.s",
            b"TEXT f(SB), $0\nJMP a\n",
            3,
            b"f.s:2: 34 NoLabel a\n",
            None,
        ),
        answered(
            b"va f.s",
            b"TEXT f(SB), $0\nMOVW $1, R28\nRET\n",
            3,
            b"f.s:2: 33 Reserved 28\n",
            None,
        ),
        answered(b"va f.s", b"MOVW '\n", 3, b"f.s:1: 3 OpenText 5\n", None),
        answered(b"va f.s", b"RET\n", 3, b"f.s:1: 32 AsmSyntax\n", None),
        answered(b"va g.s", ONE, 6, b"g.s: absent\n", None),
        answered(b"va f.c", ONE, 2, b"usage\n", None),
        answered(b"va -o f.s", ONE, 2, b"usage\n", None),
        answered(b"va f.s f.s", ONE, 2, b"usage\n", None),
        Row {
            fails: &[1],
            ..answered(b"va f.s", ONE, 9, b"f.s: store fault\n", None)
        },
        Row {
            fails: &[2],
            ..answered(b"va f.s", ONE, 9, b"f.v: store fault\n", None)
        },
    ];
    for row in rows {
        assert!(rt; is_answered(rt.alloc(), &row)?);
    }
    Ok(())
}
