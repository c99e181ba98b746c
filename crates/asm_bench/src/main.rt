//! How quickly a file is assembled: a text of 200,000 lines, whose object is made too. Before that,
//! the objects of two small files are printed.
#![tactic(auto)]

use p9_abs::AModule;
use p9_asm::assemble;
use p9_base::Bytes;
use p9_obj::write_obj;
use std::alloc::{AllocError, Global};
use std::io;

const BLOCKS: u32 = 20_000;

const SMALL: [&str; 2] = ["TEXT f(SB), $0\nRET\n", "TEXT f(SB), $0\nADD $1, R2\nRET\n"];

// Ten lines: a function with a loop, and data that have its address.
fn put_block(text: &mut String, n: u32) -> Result<(), AllocError> {
    write!(
        text,
        "TEXT f{n}(SB), $8\n\tMOVW $x{n}+4(SB), R1 // the second word\n"
    )?;
    write!(text, "again:\n\tADD $1, R1, R2\n\tBNE R1, R2, again\n")?;
    write!(text, "\tMOVW R2, t-4(SP)\n\tJAL f{n}(SB)\n\tRET\n")?;
    write!(text, "GLOBL x{n}(SB), $8\nDATA x{n}+0(SB)/4, $f{n}(SB)\n")
}

fn long_text(alloc: Global) -> Result<String, AllocError> {
    let mut text = String::new(alloc);
    for n in 0..BLOCKS {
        put_block(&mut text, n)?;
    }
    Ok(text)
}

fn object(alloc: Global, text: &str) -> Option<Bytes> {
    let made = assemble(alloc, text.as_bytes()).ok()?;
    write_obj(alloc, &made).ok()
}

fn print_object(rt: &HostRuntime, text: &str) -> io::Result<()> {
    let Some(bytes) = object(rt.alloc(), text) else {
        return println!(rt; "refused");
    };
    for byte in &bytes.list {
        print!(rt; "{byte:02x}")?;
    }
    println!(rt; "")
}

fn print_sizes(rt: &HostRuntime, made: &AModule, bytes: &Bytes) -> io::Result<()> {
    let symbols = made.symbols.list.len();
    let size = bytes.list.len();
    println!(rt; "{symbols} symbols, {size} bytes")
}

fn main(rt: HostRuntime) -> io::Result<()> {
    for text in SMALL {
        print_object(&rt, text)?;
    }
    let alloc = rt.alloc();
    let Ok(text) = long_text(alloc) else {
        return println!(rt; "no memory");
    };
    let Ok(made) = assemble(alloc, text.as_bytes()) else {
        return println!(rt; "refused");
    };
    let Ok(bytes) = write_obj(alloc, &made) else {
        return println!(rt; "no memory");
    };
    print_sizes(&rt, &made, &bytes)
}
