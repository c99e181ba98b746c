// Files and their tokens.
ghost use Rattle.p9_parse.specs.Units.{EndsInEnd};
ghost use Rattle.std.specs.Prelude.{IsTrue};

use p9_base::{Bytes, Calls, Files, MemFiles};
use p9_cpp::preprocess;
use p9_lang::Tree;
use p9_lex::{Dialect, Token, TokenKind, Tokens, lex};
use p9_parse::{ParseFault, parse};
use std::alloc::{AllocError, Global};
use std::test::Fail;

fn bytes(alloc: Global, text: &str) -> Result<Bytes, AllocError> {
    Ok(Bytes {
        list: text.as_bytes().to_vec(alloc)?,
    })
}

fn write(alloc: Global, files: &mut MemFiles, name: &str, text: &str) -> Result<(), Fail> {
    files
        .write(alloc, &bytes(alloc, name)?, &bytes(alloc, text)?)
        .map_err(|_| "not written")?;
    Ok(())
}

/// A store with these files.
pub fn store(alloc: Global, files: &[(&str, &str)]) -> Result<MemFiles, Fail> {
    let fails = Calls {
        list: Vec::new(alloc),
    };
    let mut store = MemFiles::new(Vec::new(alloc), fails);
    for (name, text) in files {
        write(alloc, &mut store, name, text)?;
    }
    Ok(store)
}

fn is_last(tokens: &[Token]) -> bool
    ensures { IsTrue result → EndsInEnd tokens.now }
{
    match tokens.split_last() {
        Some((last, _)) => match last.kind {
            TokenKind::End => true,
            _ => false,
        },
        None => false,
    }
}

fn tree(alloc: Global, tokens: &Tokens) -> Result<Result<Tree, ParseFault>, Fail> {
    if is_last(tokens.list.as_slice()) {
        return Ok(parse(alloc, tokens));
    }
    Err(Fail::from("no end"))
}

/// What a.c of the store gives.
pub fn read(alloc: Global, files: &mut MemFiles) -> Result<Result<Tree, ParseFault>, Fail> {
    let tokens = preprocess(alloc, &bytes(alloc, "a.c")?, files).map_err(|_| "no tokens")?;
    tree(alloc, &tokens)
}

/// What a text without directives gives.
pub fn read_text(alloc: Global, text: &str) -> Result<Result<Tree, ParseFault>, Fail> {
    tree(alloc, &lex(alloc, text.as_bytes(), Dialect::C)?)
}
