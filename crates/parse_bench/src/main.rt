//! How quick the reader of C's trees is: it reads the tokens and the tree of a unit with as many nodes
//! as one may have, thirty times.
#![tactic(auto)]

use p9_lex::{Dialect, lex};
use p9_parse::parse;
use std::alloc::{AllocError, Global};
use std::io;

const COPIES: usize = 1_300;

const SAMPLE: &[u8] = b"static int sum(struct node *p, unsigned long count) /* the sum of a list */
{
    int total = 0;
    for (; p != nil && count > 0; p = p->next, count--) {
        total += p->value[0x1F] * 10 - 'a'; // one more
        print(\"%d\\n\", total);
    }
    return total <<= 2, total;
}
";

// Many copies of the sample, one after the other.
fn file(alloc: Global) -> Result<Vec<u8>, AllocError> {
    let mut bytes = Vec::new(alloc);
    for _ in 0..COPIES {
        bytes.extend_from_slice(SAMPLE)?;
    }
    Ok(bytes)
}

// The number of the items that the text has.
fn items(alloc: Global, text: &[u8]) -> Option<usize> {
    let Ok(tokens) = lex(alloc, text, Dialect::C) else {
        return None;
    };
    match parse(alloc, &tokens) {
        Ok(tree) => Some(tree.items.len()),
        Err(_) => None,
    }
}

fn main(rt: HostRuntime) -> io::Result<()> {
    let Ok(bytes) = file(rt.alloc()) else {
        return println!(rt; "no memory");
    };
    let count = bytes.len();
    println!(rt; "{count} bytes")?;
    for _ in 0..30 {
        match items(rt.alloc(), bytes.as_slice()) {
            Some(count) => println!(rt; "{count} items")?,
            None => println!(rt; "refused")?,
        }
    }
    Ok(())
}
