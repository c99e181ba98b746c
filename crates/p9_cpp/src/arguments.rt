// The arguments of a macro's use.
ghost use Rattle.std.specs.Prelude.{◌≡◌, ◌+◌, ◌<◌, ◌^◌, [], zero};
ghost use Rattle.p9_cpp.specs.Macros.{turn_of, taken, fitting};
ghost use Rattle.p9_cpp.specs.Reading.{IsTaken};

use crate::brackets::{Bracket, bracket_of};
use crate::pile::Pile;
use crate::row::Row;
use p9_base::NoMemory;
use p9_lex::Token;
use std::alloc::Global;

/// What a token does to an argument: it stands in it, where so many parentheses are open behind the
/// token, or splits it from the next, or closes the list.
#[derive(Clone, Copy, Debug, PartialEq, Eq, Drop)]
pub enum Turn {
    Inside(usize),
    Splits,
    Closes,
}

fn turn_of(bracket: Bracket, depth: usize) -> Turn
    requires { depth + 1 < 2 ^ 64 }
    ensures { result ≡ turn_of bracket depth }
{
    match bracket {
        Bracket::Open => Turn::Inside(depth + 1),
        Bracket::Close => {
            if depth == 0 {
                Turn::Closes
            } else {
                Turn::Inside(depth - 1)
            }
        }
        Bracket::Comma => {
            if depth == 0 {
                Turn::Splits
            } else {
                Turn::Inside(depth)
            }
        }
        Bracket::Other => Turn::Inside(depth),
    }
}

/// Takes the arguments up to the matching parenthesis, if there is one.
pub fn taken(alloc: Global, left: &mut Pile<Token>) -> Result<Option<Row<Pile<Token>>>, NoMemory>
    ensures { IsTaken (taken zero [] [] left.old) result left.new }
{
    let _total = left.len();
    let mut depth = 0;
    let mut part = Row::new(alloc);
    let mut args = Row::new(alloc);
    while let Some(t) = left.pop() {
        match turn_of(bracket_of(&t.kind), depth) {
            Turn::Inside(inside) => {
                part.push(t)?;
                depth = inside;
            }
            Turn::Splits => {
                args.push(Pile::of_row(part))?;
                part = Row::new(alloc);
                depth = 0;
            }
            Turn::Closes => {
                args.push(Pile::of_row(part))?;
                return Ok(Some(args));
            }
        }
    }
    Ok(None)
}

/// The arguments, if they are as many as the parameters.
pub fn fitting(alloc: Global, params: usize, args: Row<Pile<Token>>) -> Option<Row<Pile<Token>>>
    ensures { result ≡ fitting params args }
{
    if params == 0 {
        if let [only] = args.as_slice() {
            if only.is_empty() {
                return Some(Row::new(alloc));
            }
        }
        return None;
    }
    if args.len() == params {
        Some(args)
    } else {
        None
    }
}
