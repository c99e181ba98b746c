// Commands over memory.
mod loading;
mod objects;

use p9_base::{Bytes, Calls, Files, Got, MemFiles, MemSink, MemSource, Words};
use p9_suite::suite;
use std::alloc::{AllocError, Global};
use std::test::Fail;

const TEXT: &[u8] = b"void main(void){ exits(\"text\"); }";

const HI: &[u8] = b"void main(void){ write(1, \"hi\\n\", 3); exits(0); }";

const INT: &[u8] = b"int x; void main(void){ write(1, \"abc\", x); exits(0); }";

const ONE: &[u8] = b"int x = 1; void main(void){ exits(0); }";

const SUM: &[u8] =
    b"extern int y; int x; void main(void){ x = y + 1; write(1, \"abcdef\", x); exits(0); }";

const NONE: Fails<'static> = Fails {
    input: &[],
    out: &[],
    files: &[],
};

fn bytes(alloc: Global, text: &[u8]) -> Result<Bytes, AllocError> {
    Ok(Bytes {
        list: text.to_vec(alloc)?,
    })
}

fn calls(alloc: Global, numbers: &[u64]) -> Result<Calls, AllocError> {
    Ok(Calls {
        list: numbers.to_vec(alloc)?,
    })
}

// The words of a line that has single blanks between them.
fn words(alloc: Global, line: &[u8]) -> Result<Words, AllocError> {
    let mut list = Vec::new(alloc);
    for word in line.split(|b| *b == b' ') {
        list.push(bytes(alloc, word)?)?;
    }
    Ok(Words { list })
}

// What a command line comes to.
#[derive(Drop)]
struct Outcome {
    status: u8,
    out: Vec<u8>,
    err: Vec<u8>,
    executable: Option<Bytes>,
}

// The numbers of the calls that fail. The first calls on the store write its files.
#[derive(Clone, Copy)]
struct Fails<'a> {
    input: &'a [u64],
    out: &'a [u64],
    files: &'a [u64],
}

// A store's file.
type Source<'a> = (&'a [u8], &'a [u8]);

// Does the line where these files are in the store and these calls fail.
fn result_of(
    alloc: Global,
    line: &[u8],
    sources: &[Source<'_>],
    fails: Fails<'_>,
) -> Result<Outcome, Fail> {
    let words = words(alloc, line)?;
    let mut input = MemSource::new(bytes(alloc, b"input")?, calls(alloc, fails.input)?);
    let mut out = MemSink::new(alloc, 100, calls(alloc, fails.out)?)?;
    let mut err = MemSink::new(alloc, 300, calls(alloc, &[])?)?;
    let mut files = MemFiles::new(Vec::new(alloc), calls(alloc, fails.files)?);
    for (name, file) in sources {
        files
            .write(alloc, &bytes(alloc, name)?, &bytes(alloc, file)?)
            .map_err(|_| "not written")?;
    }
    let status = suite(alloc, &words, &mut input, &mut out, &mut err, &mut files);
    let executable = match files.read(alloc, &bytes(alloc, b"v.out")?) {
        Got::Found(bytes) => Some(bytes),
        _ => None,
    };
    Ok(Outcome {
        status,
        out: out.bytes().to_vec(alloc)?,
        err: err.bytes().to_vec(alloc)?,
        executable,
    })
}

// A line over a store, with the calls that fail, and what it comes to. The executable stands in the
// store where the files are compiled, and nowhere else.
#[derive(Clone, Copy)]
struct Row<'a> {
    line: &'a [u8],
    sources: &'a [Source<'a>],
    fails: Fails<'a>,
    status: u8,
    out: &'a [u8],
    err: &'a [u8],
    built: bool,
}

// A line that comes to a run.
fn run<'a>(
    line: &'a [u8],
    sources: &'a [Source<'a>],
    status: u8,
    out: &'a [u8],
    err: &'a [u8],
) -> Row<'a> {
    Row {
        line,
        sources,
        fails: NONE,
        status,
        out,
        err,
        built: true,
    }
}

// A line that is refused.
fn refusal<'a>(line: &'a [u8], sources: &'a [Source<'a>], status: u8, err: &'a [u8]) -> Row<'a> {
    Row {
        line,
        sources,
        fails: NONE,
        status,
        out: b"",
        err,
        built: false,
    }
}

#[test]
fn runs(rt: HostRuntime) -> Result<(), Fail> {
    let text = [(b"x.c".as_slice(), TEXT)];
    let empty = [(
        b"x.c".as_slice(),
        b"void main(void){ exits(\"\"); }\n".as_slice(),
    )];
    let zero = [(
        b"x.c".as_slice(),
        b"void main(void){ exits(0); }".as_slice(),
    )];
    let none = [(b"x.c".as_slice(), b"void main(void){}".as_slice())];
    let hi = [(b"x.c".as_slice(), HI)];
    let rows = [
        run(b"run x.c", &text, 1, b"", b"text\n"),
        run(b"run x.c", &empty, 0, b"", b""),
        run(b"run x.c", &zero, 0, b"", b""),
        run(b"run x.c", &none, 1, b"", b"main\n"),
        run(b"run x.c", &hi, 0, b"hi\n", b""),
    ];
    for row in rows {
        let outcome = result_of(rt.alloc(), row.line, row.sources, row.fails)?;
        assert_eq!(rt; outcome.status, row.status);
        assert_eq!(rt; outcome.out.as_slice(), row.out);
        assert_eq!(rt; outcome.err.as_slice(), row.err);
        assert_eq!(rt; outcome.executable.is_some(), row.built);
    }
    Ok(())
}

#[test]
fn faults(rt: HostRuntime) -> Result<(), Fail> {
    let text = [(b"x.c".as_slice(), TEXT)];
    let hi = [(b"x.c".as_slice(), HI)];
    let put = Fails {
        input: &[],
        out: &[0],
        files: &[],
    };
    let read = Fails {
        input: &[],
        out: &[],
        files: &[1],
    };
    let written = Fails {
        input: &[],
        out: &[],
        files: &[2],
    };
    let rows = [
        Row {
            fails: put,
            ..run(b"run x.c", &hi, 8, b"", b"write fault\n")
        },
        Row {
            fails: read,
            ..refusal(b"run x.c", &text, 9, b"x.c: store fault\n")
        },
        Row {
            fails: written,
            ..refusal(b"run x.c", &text, 9, b"v.out: store fault\n")
        },
    ];
    for row in rows {
        let outcome = result_of(rt.alloc(), row.line, row.sources, row.fails)?;
        assert_eq!(rt; outcome.status, row.status);
        assert_eq!(rt; outcome.out.as_slice(), row.out);
        assert_eq!(rt; outcome.err.as_slice(), row.err);
        assert_eq!(rt; outcome.executable.is_some(), row.built);
    }
    Ok(())
}

#[test]
fn refused(rt: HostRuntime) -> Result<(), Fail> {
    let text = [(b"x.c".as_slice(), TEXT)];
    let only = [(
        b"x.c".as_slice(),
        b"extern int x; void main(void){ x = 1; }".as_slice(),
    )];
    let no_main = [(b"x.c".as_slice(), b"int x;".as_slice())];
    let argument = [(b"x.c".as_slice(), b"void main(int a){ }".as_slice())];
    let rows = [
        refusal(b"run x.c", &only, 5, b"vl: 41 Unresolved x 0\n"),
        refusal(b"run x.c", &no_main, 5, b"vl: 43 NoMain\n"),
        refusal(b"run x.c", &argument, 16, b"x.c: not built\n"),
        refusal(b"run no.c", &text, 6, b"no.c: absent\n"),
        refusal(b"run x.c no.c", &text, 6, b"no.c: absent\n"),
        refusal(b"run", &text, 2, b"usage\n"),
        refusal(b"vc", &text, 2, b"usage\n"),
        refusal(b"run -x.c", &text, 2, b"usage\n"),
        refusal(b"run x.c x", &text, 16, b"x.c: not built\n"),
    ];
    for row in rows {
        let outcome = result_of(rt.alloc(), row.line, row.sources, row.fails)?;
        assert_eq!(rt; outcome.status, row.status);
        assert_eq!(rt; outcome.out.as_slice(), row.out);
        assert_eq!(rt; outcome.err.as_slice(), row.err);
        assert_eq!(rt; outcome.executable.is_some(), row.built);
    }
    Ok(())
}

// Files that share variables.
#[test]
fn shared(rt: HostRuntime) -> Result<(), Fail> {
    let sums = [
        (b"a.c".as_slice(), SUM),
        (b"b.c".as_slice(), b"int y = 2;".as_slice()),
    ];
    let types = [
        (b"a.c".as_slice(), INT),
        (b"b.c".as_slice(), b"extern long x;".as_slice()),
    ];
    let twice = [
        (b"a.c".as_slice(), ONE),
        (b"b.c".as_slice(), b"int x = 1;".as_slice()),
    ];
    let rows = [
        run(b"run a.c b.c", &sums, 0, b"abc", b""),
        run(b"run b.c a.c", &sums, 0, b"abc", b""),
        refusal(b"run a.c b.c", &types, 5, b"vl: 42 Disagree x 0 1\n"),
        refusal(b"run a.c b.c", &twice, 5, b"vl: 40 Twice x 0 1\n"),
    ];
    for row in rows {
        let outcome = result_of(rt.alloc(), row.line, row.sources, row.fails)?;
        assert_eq!(rt; outcome.status, row.status);
        assert_eq!(rt; outcome.out.as_slice(), row.out);
        assert_eq!(rt; outcome.err.as_slice(), row.err);
        assert_eq!(rt; outcome.executable.is_some(), row.built);
    }
    Ok(())
}

// A variable without a value in two files, and with one in a third, is one variable.
#[test]
fn common(rt: HostRuntime) -> Result<(), Fail> {
    let sources = [
        (b"a.c".as_slice(), INT),
        (b"b.c".as_slice(), b"int x;".as_slice()),
        (b"c.c".as_slice(), b"int x = 1;".as_slice()),
    ];
    let rows = [
        run(b"run a.c b.c c.c", &sources, 0, b"a", b""),
        run(b"run c.c b.c a.c", &sources, 0, b"a", b""),
        run(b"run b.c c.c a.c", &sources, 0, b"a", b""),
    ];
    for row in rows {
        let outcome = result_of(rt.alloc(), row.line, row.sources, row.fails)?;
        assert_eq!(rt; outcome.status, row.status);
        assert_eq!(rt; outcome.out.as_slice(), row.out);
        assert_eq!(rt; outcome.err.as_slice(), row.err);
        assert_eq!(rt; outcome.executable.is_some(), row.built);
    }
    Ok(())
}

// 16 files run, and 17 are no command.
#[test]
fn many(rt: HostRuntime) -> Result<(), Fail> {
    let sources = [
        (b"a.c".as_slice(), INT),
        (b"b.c".as_slice(), b"int x;".as_slice()),
    ];
    let most = b"run a.c b.c b.c b.c b.c b.c b.c b.c b.c b.c b.c b.c b.c b.c b.c b.c";
    let more = b"run a.c b.c b.c b.c b.c b.c b.c b.c b.c b.c b.c b.c b.c b.c b.c b.c b.c";
    let rows = [
        run(most, &sources, 0, b"", b""),
        refusal(more, &sources, 2, b"usage\n"),
    ];
    for row in rows {
        let outcome = result_of(rt.alloc(), row.line, row.sources, row.fails)?;
        assert_eq!(rt; outcome.status, row.status);
        assert_eq!(rt; outcome.out.as_slice(), row.out);
        assert_eq!(rt; outcome.err.as_slice(), row.err);
        assert_eq!(rt; outcome.executable.is_some(), row.built);
    }
    Ok(())
}

// An executable with this magic number, this size of the text in its header, these instructions, and
// so many bytes behind them where its header has another number of them.
#[derive(Clone, Copy)]
struct Parts<'a> {
    magic: u32,
    size: u32,
    text: &'a [u32],
    lines: u32,
    behind: usize,
}

// An executable with nothing behind its instructions, which have so many bytes.
fn plain(size: u32, text: &[u32]) -> Parts<'_> {
    Parts {
        magic: 0x407,
        size,
        text,
        lines: 0,
        behind: 0,
    }
}

fn file_of(alloc: Global, parts: Parts<'_>) -> Result<Vec<u8>, AllocError> {
    let header = [parts.magic, parts.size, 0, 0, 0, 0x1020, 0, parts.lines];
    let mut file = Vec::new(alloc);
    for word in header.iter().chain(parts.text) {
        file.extend_from_slice(&word.to_be_bytes())?;
    }
    for _byte in 0..parts.behind {
        file.push(0)?;
    }
    Ok(file)
}

const GOOD: Parts<'static> = Parts {
    magic: 0x407,
    size: 12,
    text: &[0x27BD_FFF0, 0x2401_0008, 0xC],
    lines: 12,
    behind: 12,
};

#[test]
fn refusals(rt: HostRuntime) -> Result<(), Fail> {
    let alloc = rt.alloc();
    let short = Parts { behind: 11, ..GOOD };
    let other = Parts {
        magic: 0x1EB,
        ..GOOD
    };
    let odd = Parts { size: 10, ..GOOD };
    let rows: [(&[u8], Parts<'_>, u8, &[u8]); 10] = [
        (b"vi p.out", GOOD, 0, b""),
        (b"vi -n 1 p.out", GOOD, 12, b"budget 1\n"),
        (b"vi p.out", short, 13, b"p.out: 51 ShortFile 56\n"),
        (b"vi p.out", other, 13, b"p.out: 50 BadMagic 491\n"),
        (b"vi p.out", odd, 13, b"p.out: 52 BadSegment\n"),
        (b"vi -n 4294967296 p.out", GOOD, 2, b"usage\n"),
        (b"vi -n 1 -n 1 p.out", GOOD, 2, b"usage\n"),
        (b"vi -n p.out", GOOD, 2, b"usage\n"),
        (b"vi p.out p.out", GOOD, 2, b"usage\n"),
        (b"vi q.out", GOOD, 6, b"q.out: absent\n"),
    ];
    for (line, parts, status, err) in rows {
        let file = file_of(alloc, parts)?;
        let outcome = result_of(alloc, line, &[(b"p.out", &file)], NONE)?;
        assert_eq!(rt; outcome.status, status);
        assert_eq!(rt; outcome.err.as_slice(), err);
    }
    Ok(())
}

#[test]
fn halts(rt: HostRuntime) -> Result<(), Fail> {
    let alloc = rt.alloc();
    let rows: [(u32, &[u32], &[u8]); 6] = [
        (
            12,
            &[0x27BD_FFF0, 0x2401_0009, 0xC],
            b"halt BadCall 9 00001028\n",
        ),
        (8, &[0x8FA1_FFFC, 0x20_0821], b"halt LoadHazard 00001024\n"),
        (12, &[0x812, 0, 0x18], b"halt HiLoHazard 00001028\n"),
        (8, &[0x800_0408, 0x800_0408], b"halt SlotBranch 00001024\n"),
        (4, &[0x8C01_0000], b"halt BadAddress 00000000 00001020\n"),
        (4, &[0x1A], b"halt Divide 00001020\n"),
    ];
    for (size, text, err) in rows {
        let file = file_of(alloc, plain(size, text))?;
        let outcome = result_of(alloc, b"vi p.out", &[(b"p.out", &file)], NONE)?;
        assert_eq!(rt; outcome.status, 11);
        assert_eq!(rt; outcome.err.as_slice(), err);
    }
    Ok(())
}

// A program that reads four bytes, and one that writes its first instruction.
#[test]
fn streams(rt: HostRuntime) -> Result<(), Fail> {
    let alloc = rt.alloc();
    let reads = [
        0x27BD_FFF0u32,
        0xAFA0_0004,
        0xAFBD_0008,
        0x2402_0004,
        0xAFA2_000C,
        0x2401_000F,
        0xC,
        0x2401_0008,
        0xC,
    ];
    let writes = [
        0x27BD_FFF0u32,
        0x2402_0001,
        0xAFA2_0004,
        0x2402_1020,
        0xAFA2_0008,
        0x2402_0004,
        0xAFA2_000C,
        0x2401_0014,
        0xC,
        0x2401_0008,
        0xAFA0_0004,
        0xC,
    ];
    let first: &[u64] = &[0];
    let rows: [(u32, &[u32], &[u64], &[u64], u8, &[u8], &[u8]); 4] = [
        (36, &reads, &[], first, 0, b"", b""),
        (36, &reads, first, &[], 7, b"read fault\n", b""),
        (48, &writes, first, &[], 0, b"", b"\x27\xBD\xFF\xF0"),
        (48, &writes, &[], first, 8, b"write fault\n", b""),
    ];
    for (size, text, input, out, status, err, written) in rows {
        let file = file_of(alloc, plain(size, text))?;
        let fails = Fails {
            input,
            out,
            files: &[],
        };
        let outcome = result_of(alloc, b"vi p.out", &[(b"p.out", &file)], fails)?;
        assert_eq!(rt; outcome.status, status);
        assert_eq!(rt; outcome.err.as_slice(), err);
        assert_eq!(rt; outcome.out.as_slice(), written);
    }
    Ok(())
}
