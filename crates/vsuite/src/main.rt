//! Plan 9's C suite for MIPS, as one program.
#![tactic(auto)]

use p9_base::{Bytes, HostFiles, NoMemory, ReadSource, Words, WriteSink};
use p9_suite::suite;
use std::alloc::Global;
use std::env::FillError;
use std::process::ExitCode;
use std::rt;

// The program's argument of this number, whatever its bytes. Number 0 is the program's own name.
fn word(alloc: Global, rt: &impl rt::Env, i: usize) -> Result<Option<Bytes>, NoMemory> {
    let mut size: usize = 256;
    for _ in 0..usize::BITS {
        let mut list = vec![in alloc; 0; size]?;
        match rt.arg(i, &mut list) {
            Ok(len) => {
                list.truncate(len);
                return Ok(Some(Bytes { list }));
            }
            Err(FillError::NotPresent) => return Ok(None),
            Err(FillError::TooLong) => size = size.saturating_add(size),
        }
    }
    Err(NoMemory)
}

// The words behind the program's name.
fn words(alloc: Global, rt: &impl rt::Env) -> Result<Words, NoMemory> {
    let mut list = Vec::new(alloc);
    for i in 1..usize::MAX {
        match word(alloc, rt, i)? {
            Some(word) => list.push(word)?,
            None => break,
        }
    }
    Ok(Words { list })
}

// The status of want of memory.
const NO_MEMORY: u8 = 10;

fn main(rt: HostRuntime) -> ExitCode {
    let alloc = rt.alloc();
    let Ok(words) = words(alloc, &rt) else {
        let _ = rt.eprintln("no memory");
        return ExitCode::from(NO_MEMORY);
    };
    let mut input = ReadSource::new(rt.stdin());
    let mut out = WriteSink::new(rt.stdout());
    let mut err = WriteSink::new(rt.stderr());
    let mut files = HostFiles::new(rt);
    let status = suite(alloc, &words, &mut input, &mut out, &mut err, &mut files);
    ExitCode::from(status)
}
