// Assembler files and objects that are loaded.
use super::{Fails, NONE, Row, Source, refusal, result_of, run};
use p9_base::Bytes;
use std::alloc::{AllocError, Global};
use std::test::Fail;

// Writes `hi` and a newline, and exits with the empty text.
const HI: &[u8] = b"GLOBL t(SB), $4\nDATA t+0(SB)/4, $0x68690a00\nTEXT main(SB), $12\nMOVW $1, R1\n\
MOVW $t+0(SB), R2\nMOVW R2, 8(R29)\nMOVW $3, R2\nMOVW R2, 12(R29)\nJAL write(SB)\nMOVW $0, R1\n\
JAL exits(SB)\nRET\n";

const MAIN: &[u8] = b"TEXT main(SB), $0\nRET\n";

// The object of `TEXT f(SB), $0` and `RET`, and that of `main` with the same body.
const OBJECT: &[u8] =
    b"v9o\n\x00\x00\x00\x01\x00\x00\x00\x01\x00\x02\x00\x01f\x00\x00\x00\x00\x00\x00\x00\x00\x00\x00\x00\x01\x1f";

const MAIN_OBJECT: &[u8] =
    b"v9o\n\x00\x00\x00\x01\x00\x00\x00\x01\x00\x02\x00\x04main\x00\x00\x00\x00\x00\x00\x00\x00\x00\x00\x00\x01\x1f";

// Does a row's line, and tells whether it comes to what the row says.
fn is_answered(alloc: Global, row: Row<'_>) -> Result<bool, Fail> {
    let outcome = result_of(alloc, row.line, row.sources, row.fails)?;
    Ok(
        outcome.status == row.status
            && outcome.out.as_slice() == row.out
            && outcome.err.as_slice() == row.err
            && outcome.executable.is_some() == row.built,
    )
}

// Programs that run.
#[test]
fn programs(rt: HostRuntime) -> Result<(), Fail> {
    let hi = [(b"h.s".as_slice(), HI)];
    let main = [(b"m.s".as_slice(), MAIN)];
    let rows = [
        run(b"run h.s", &hi, 0, b"hi\n", b""),
        run(b"run m.s", &main, 1, b"", b"main\n"),
        run(b"run -o v.out -n 0 m.s", &main, 12, b"", b"budget 0\n"),
    ];
    for row in rows {
        assert!(rt; is_answered(rt.alloc(), row)?);
    }
    Ok(())
}

// Executables that are written and not run, and files that are refused.
#[test]
fn files(rt: HostRuntime) -> Result<(), Fail> {
    let main = [(b"m.s".as_slice(), MAIN)];
    let rows = [
        run(b"build m.s", &main, 0, b"", b""),
        run(b"build -o v.out m.s", &main, 0, b"", b""),
        refusal(b"build -o p.out m.s", &main, 0, b""),
        refusal(b"run m.s m.s", &main, 5, b"vl: 40 Twice main 0 1\n"),
        refusal(b"run m.s no.s", &main, 6, b"no.s: absent\n"),
        refusal(b"run m.s a.c b.c", &main, 16, b"a.c: not built\n"),
        refusal(b"build no.s a.c", &main, 16, b"a.c: not built\n"),
        refusal(b"vl m.s", &main, 4, b"m.s: 30 BadObject 0\n"),
    ];
    for row in rows {
        assert!(rt; is_answered(rt.alloc(), row)?);
    }
    Ok(())
}

#[test]
fn words_of_commands(rt: HostRuntime) -> Result<(), Fail> {
    let main = [(b"m.s".as_slice(), MAIN)];
    let lines: [&[u8]; 10] = [
        b"vl",
        b"build",
        b"vl -n 1 m.s",
        b"build -n 1 m.s",
        b"run -n 4294967296 m.s",
        b"run -n 1 -n 1 m.s",
        b"run -o v.out -o v.out m.s",
        b"run -o -x m.s",
        b"run -n m.s",
        b"run m.s -n 1",
    ];
    for line in lines {
        assert!(rt; is_answered(rt.alloc(), refusal(line, &main, 2, b"usage\n"))?);
    }
    Ok(())
}

#[test]
fn failing_calls(rt: HostRuntime) -> Result<(), Fail> {
    let hi = [(b"h.s".as_slice(), HI)];
    let read = Fails {
        files: &[1],
        ..NONE
    };
    let written = Fails {
        files: &[2],
        ..NONE
    };
    let put = Fails { out: &[0], ..NONE };
    let rows = [
        Row {
            fails: read,
            ..refusal(b"run h.s", &hi, 9, b"h.s: store fault\n")
        },
        Row {
            fails: written,
            ..refusal(b"run h.s", &hi, 9, b"v.out: store fault\n")
        },
        Row {
            fails: put,
            ..run(b"run h.s", &hi, 8, b"", b"write fault\n")
        },
    ];
    for row in rows {
        assert!(rt; is_answered(rt.alloc(), row)?);
    }
    Ok(())
}

// The line of an object that breaks at this byte.
fn broken_at(alloc: Global, at: usize) -> Result<String, AllocError> {
    format!(in alloc; "f.v: 30 BadObject {at}\n")
}

// An object that is cut at any byte is refused there, and no file is written.
#[test]
fn cut_objects(rt: HostRuntime) -> Result<(), Fail> {
    let alloc = rt.alloc();
    for size in 0..OBJECT.len() {
        let files = [(b"f.v".as_slice(), &OBJECT[..size])];
        let line = broken_at(alloc, size)?;
        assert!(rt; is_answered(alloc, refusal(b"vl f.v", &files, 4, line.as_bytes()))?);
    }
    Ok(())
}

// The bytes that a line writes as `v.out`, where it writes them.
fn written(alloc: Global, line: &[u8], sources: &[Source<'_>]) -> Result<Option<Bytes>, Fail> {
    Ok(result_of(alloc, line, sources, NONE)?.executable)
}

// So is the object of a program with data.
#[test]
fn cut_programs(rt: HostRuntime) -> Result<(), Fail> {
    let alloc = rt.alloc();
    let object = written(alloc, b"va -o v.out h.s", &[(b"h.s", HI)])?.ok_or("not written")?;
    for size in 0..object.list.len() {
        let files = [(b"f.v".as_slice(), &object.list[..size])];
        let line = broken_at(alloc, size)?;
        assert!(rt; is_answered(alloc, refusal(b"vl f.v", &files, 4, line.as_bytes()))?);
    }
    Ok(())
}

#[test]
fn objects(rt: HostRuntime) -> Result<(), Fail> {
    let version = [(b"f.v".as_slice(), b"v9o\n\x00\x00\x00\x02".as_slice())];
    let main = [
        (b"m.v".as_slice(), MAIN_OBJECT),
        (b"f.v".as_slice(), OBJECT),
    ];
    let rows = [
        refusal(b"vl f.v", &main, 5, b"vl: 43 NoMain\n"),
        refusal(b"vl f.v", &version, 4, b"f.v: 31 Version 2\n"),
        run(b"vl m.v", &main, 0, b"", b""),
        run(b"vl m.v f.v", &main, 0, b"", b""),
        run(b"run m.v f.v", &main, 1, b"", b"main\n"),
    ];
    for row in rows {
        assert!(rt; is_answered(rt.alloc(), row)?);
    }
    Ok(())
}

// A byte behind an object.
#[test]
fn longer_object(rt: HostRuntime) -> Result<(), Fail> {
    let alloc = rt.alloc();
    let mut object = OBJECT.to_vec(alloc)?;
    object.push(0)?;
    let files = [(b"f.v".as_slice(), object.as_slice())];
    assert!(rt;
        is_answered(
            alloc,
            refusal(b"vl f.v", &files, 4, b"f.v: 30 BadObject 30\n")
        )?
    );
    Ok(())
}

// `run` of this file so many times.
fn line_of(alloc: Global, count: usize) -> Result<Vec<u8>, AllocError> {
    let mut line = b"run".to_vec(alloc)?;
    for _word in 0..count {
        line.extend_from_slice(b" m.s")?;
    }
    Ok(line)
}

#[test]
fn many_files(rt: HostRuntime) -> Result<(), Fail> {
    let alloc = rt.alloc();
    let main = [(b"m.s".as_slice(), MAIN)];
    let most = line_of(alloc, 256)?;
    let more = line_of(alloc, 257)?;
    assert!(rt; is_answered(alloc, refusal(&most, &main, 5, b"vl: 40 Twice main 0 1\n"))?);
    assert!(rt; is_answered(alloc, refusal(&more, &main, 2, b"usage\n"))?);
    Ok(())
}

// `build` of an assembler file and `vl` of its object write the same bytes.
#[test]
fn one_executable(rt: HostRuntime) -> Result<(), Fail> {
    let alloc = rt.alloc();
    let built = written(alloc, b"build m.s", &[(b"m.s", MAIN)])?;
    let loaded = written(alloc, b"vl m.v", &[(b"m.v", MAIN_OBJECT)])?;
    assert!(rt; built.is_some() && built == loaded);
    Ok(())
}
