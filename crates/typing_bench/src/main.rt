//! How quick types are found: the tokens, the tree and the types of a unit with nearly as many nodes as
//! one may have, ten times.
#![tactic(auto)]

use p9_judge::type_file;
use p9_lex::{Dialect, lex};
use p9_parse::parse;
use std::alloc::{AllocError, Global};
use std::io;

const COPIES: usize = 1_900;

const HEAD: &[u8] = b"struct node { struct node *next; int value[64]; };
extern void print(char *text, int number);
";

const BODY: &[u8] = b"(struct node *p, unsigned long count) /* the sum of a list */
{
    int total = 0;
    for (; p != 0 && count > 0; p = p->next, count--) {
        total += p->value[0x1F] * 10 - 'a'; // one more
        print(\"%d\\n\", total);
    }
    return total <<= 2, total;
}
";

// Three letters for a number.
const fn letter(number: usize) -> u8 {
    b'a' + (number % 26) as u8
}

// Many functions, each with a name of its own.
fn file(alloc: Global) -> Result<Vec<u8>, AllocError> {
    let mut bytes = Vec::new(alloc);
    bytes.extend_from_slice(HEAD)?;
    for copy in 0..COPIES {
        bytes.extend_from_slice(b"int sum")?;
        bytes.push(letter(copy / 676))?;
        bytes.push(letter(copy / 26))?;
        bytes.push(letter(copy))?;
        bytes.extend_from_slice(BODY)?;
    }
    Ok(bytes)
}

// The number of the nodes that have types.
fn nodes(alloc: Global, text: &[u8]) -> Option<usize> {
    let Ok(tokens) = lex(alloc, text, Dialect::C) else {
        return None;
    };
    let Ok(tree) = parse(alloc, &tokens) else {
        return None;
    };
    match type_file(alloc, tree) {
        Ok(module) => Some(module.types.len()),
        Err(_) => None,
    }
}

fn main(rt: HostRuntime) -> io::Result<()> {
    let Ok(bytes) = file(rt.alloc()) else {
        return println!(rt; "no memory");
    };
    let count = bytes.len();
    println!(rt; "{count} bytes")?;
    for _ in 0..10 {
        match nodes(rt.alloc(), bytes.as_slice()) {
            Some(count) => println!(rt; "{count} nodes")?,
            None => println!(rt; "refused")?,
        }
    }
    Ok(())
}
