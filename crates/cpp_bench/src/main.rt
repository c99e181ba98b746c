//! How quickly directives and macros are dealt with: it preprocesses a unit of 10,000 lines, each with
//! three uses of macros from an included file, as often as it takes to come to 200,000 lines.
#![tactic(auto)]

use p9_base::{Bytes, Calls, FileFault, Files, MemFiles};
use p9_cpp::preprocess;
use std::alloc::{AllocError, Global};
use std::io;

const UNITS: u32 = 20;

const LINES: u32 = 10_000;

const HEADER: &[u8] = b"#define ONE 1
#define TWO (ONE + ONE)
#define NEXT(n) (n + 1)
";

const LINE: &[u8] = b"x = NEXT(y) - ONE * TWO; /* three uses */
";

fn bytes(alloc: Global, text: &[u8]) -> Result<Bytes, AllocError> {
    Ok(Bytes {
        list: text.to_vec(alloc)?,
    })
}

// A file that includes the header, and has so many lines behind that.
fn unit(alloc: Global) -> Result<Bytes, AllocError> {
    let mut list = b"#include \"macros.h\"\n".as_slice().to_vec(alloc)?;
    for _ in 0..LINES {
        list.extend_from_slice(LINE)?;
    }
    Ok(Bytes { list })
}

// The store of the unit and its header.
fn store(alloc: Global) -> Result<MemFiles, FileFault> {
    let no_calls = Calls {
        list: Vec::new(alloc),
    };
    let mut files = MemFiles::new(Vec::new(alloc), no_calls);
    for (name, text) in [
        (bytes(alloc, b"macros.h"), bytes(alloc, HEADER)),
        (bytes(alloc, b"unit.c"), unit(alloc)),
    ] {
        let (Ok(name), Ok(text)) = (name, text) else {
            return Err(FileFault::NoMemory);
        };
        files.write(alloc, &name, &text)?;
    }
    Ok(files)
}

fn main(rt: HostRuntime) -> io::Result<()> {
    let alloc = rt.alloc();
    let (Ok(mut files), Ok(name)) = (store(alloc), bytes(alloc, b"unit.c")) else {
        return println!(rt; "no memory");
    };
    for _ in 0..UNITS {
        match preprocess(alloc, &name, &mut files) {
            Ok(tokens) => {
                let count = tokens.list.len();
                println!(rt; "{count} tokens")?;
            }
            Err(_) => println!(rt; "refused")?,
        }
    }
    let lines = UNITS * LINES;
    println!(rt; "{lines} lines")
}
