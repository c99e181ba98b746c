// Bodies of macros, with the arguments put in.
ghost use Rattle.std.specs.Prelude.{◌≡◌, ◌++◌, List, Some, None, MatchOption, IfOk, OnOk};
ghost use Rattle.p9_cpp.specs.Macros.{all_at_line, argument_of, piece_of, put_in};

use crate::macros::{copied_at, word_at};
use crate::row::Row;
use p9_base::{Name, NoMemory};
use p9_lex::Token;
use std::alloc::Global;

// A longer list is answered by want of memory.
const MAX_TOKENS: usize = 0x100_0000;

// Adds copies of tokens, in another line.
fn push_copies(
    alloc: Global,
    out: &mut Row<Token>,
    line: u32,
    tokens: &[Token],
) -> Result<(), NoMemory>
    ensures { OnOk result (out.new ≡ out.old ++ all_at_line line tokens.now) }
{
    let mut rest = tokens;
    while let [token, after @ ..] = rest {
        out.push(copied_at(alloc, token, line)?)?;
        rest = after;
    }
    Ok(())
}

fn argument_of<'a>(params: &[Name], args: &'a [Row<Token>], name: &Name) -> Option<&'a Row<Token>>
    ensures { MatchOption result (argument_of params.now args.now name.now ≡ None) (λ a. argument_of params.now args.now name.now ≡ Some a.now) }
{
    let mut names = params;
    let mut values = args;
    while let [param, more @ ..] = names {
        if let [value, rest @ ..] = values {
            if *param == *name {
                return Some(value);
            }
            names = more;
            values = rest;
        } else {
            return None;
        }
    }
    None
}

// Adds what a token of the body stands for.
fn push_piece(
    alloc: Global,
    out: &mut Row<Token>,
    params: &[Name],
    args: &[Row<Token>],
    line: u32,
    t: &Token,
) -> Result<(), NoMemory>
    ensures { OnOk result (out.new ≡ out.old ++ all_at_line line (piece_of params.now args.now t.now)) }
{
    if let Some(name) = word_at(&t.kind) {
        if let Some(argument) = argument_of(params, args, name) {
            return push_copies(alloc, out, line, argument.as_slice());
        }
    }
    out.push(copied_at(alloc, t, line)?)
}

/// A body with the arguments put in.
pub fn put_in(
    alloc: Global,
    params: &[Name],
    args: &[Row<Token>],
    line: u32,
    body: &[Token],
) -> Result<Row<Token>, NoMemory>
    ensures { IfOk result (λ r. r ≡ put_in params.now args.now line body.now) }
{
    let mut out = Row::new(alloc);
    let mut rest = body;
    while let [t, after @ ..] = rest {
        push_piece(alloc, &mut out, params, args, line, t)?;
        if out.len() > MAX_TOKENS {
            return Err(NoMemory);
        }
        rest = after;
    }
    Ok(out)
}
