//! How quick the lexer is: it reads the tokens of some ten million bytes of C, twice.
#![tactic(auto)]

use p9_lex::{Dialect, lex};
use std::alloc::{AllocError, Global};
use std::io;

const COPIES: usize = 40_000;

const SAMPLE: &[u8] = b"static int sum(struct node *p, unsigned long count) /* the sum of a list */
{
    int total = 0;
    for (; p != nil && count > 0; p = p->next, count--) {
        total += p->value[0x1F] * 10 - 'a'; // one more
        print(\"%d\\n\", total);
    }
    return total <<= 2, total;
}
";

// Many copies of the sample, one after the other.
fn file(alloc: Global) -> Result<Vec<u8>, AllocError> {
    let mut bytes = Vec::new(alloc);
    for _ in 0..COPIES {
        bytes.extend_from_slice(SAMPLE)?;
    }
    Ok(bytes)
}

fn main(rt: HostRuntime) -> io::Result<()> {
    let Ok(bytes) = file(rt.alloc()) else {
        return println!(rt; "no memory");
    };
    let count = bytes.len();
    println!(rt; "{count} bytes")?;
    for _ in 0..2 {
        match lex(rt.alloc(), bytes.as_slice(), Dialect::C) {
            Ok(tokens) => {
                let count = tokens.list.len();
                println!(rt; "{count} tokens")?;
            }
            Err(_) => println!(rt; "refused")?,
        }
    }
    Ok(())
}
