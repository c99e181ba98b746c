// Tokens, one after the other, within the limits.
ghost use Rattle.std.specs.Prelude.{◌≡◌, ◌+◌, ◌≤◌, IfOk};
ghost use Rattle.p9_grammar.specs.Machine.{step};
ghost use Rattle.p9_prefix.specs.Ends.{is_end};
ghost use Rattle.p9_tree_reader.specs.Reading.{state_of, Steps};
ghost use Rattle.p9_decl.specs.Walks.{HasRead, IfPasses, IfStopped, IsWithin, Limits, Reaches, ReadsOne};

use crate::ParseFault;
use crate::limits::{height_so_far, item_start, nodes_so_far};
use p9_grammar::Terminal;
use p9_lex::Token;
use p9_terminal::terminal;
use p9_tree_reader::{ReadFault, Reader};
use std::alloc::{AllocError, Global};

const MAX_HEIGHT: u32 = 100;

const MAX_NODES: u32 = 100_000;

fn keep_limits(reader: &Reader) -> Result<(), ParseFault>
    ensures { Limits result (state_of reader.now) }
{
    if MAX_HEIGHT < height_so_far(reader)? {
        return Err(ParseFault::TooDeep {
            limit: MAX_HEIGHT,
            item: item_start(reader),
        });
    }
    if MAX_NODES < nodes_so_far(reader)? {
        return Err(ParseFault::TooManyNodes {
            limit: MAX_NODES,
            item: item_start(reader),
        });
    }
    Ok(())
}

fn read_one(
    alloc: Global,
    reader: &mut Reader,
    token: &Terminal,
    place: u32,
) -> Result<(), ParseFault>
    ensures { ReadsOne (step (state_of reader.old) token.now) place result (state_of reader.new) }
{
    match reader.step(alloc, token) {
        Ok(()) => keep_limits(reader),
        Err(ReadFault::Refused) => Err(ParseFault::Syntax(place)),
        Err(ReadFault::Memory) => Err(ParseFault::Memory),
    }
}

/// The place of the token with this number in a list that begins at a place.
pub fn place_in(from: u32, number: usize) -> Result<u32, AllocError>
    ensures { IfOk result (λ place. place ≡ from + number) }
{
    let number = u32::try_from(number).map_err(|_| AllocError)?;
    from.checked_add(number).ok_or(AllocError)
}

/// Reads all tokens, the first of which has this place, from where the reader stands.
pub fn read_all(
    alloc: Global,
    start: Reader,
    tokens: &[Token],
    from: u32,
) -> Result<Reader, ParseFault>
    requires { IsWithin (state_of start) }
    ensures read { IfOk result (λ r. HasRead (state_of start) tokens.now (state_of r)) }
    ensures stopped { IfStopped (state_of start) tokens.now from result }
{
    let mut reader = start;
    for (i, token) in tokens.iter().enumerate() {
        let place = place_in(from, i)?;
        let terminal = terminal(alloc, &token.kind)?;
        match read_one(alloc, &mut reader, &terminal, place) {
            Ok(()) => {}
            Err(fault) => return Err(fault),
        }
    }
    Ok(reader)
}

fn is_end(token: &Terminal) -> bool
    ensures { result ≡ is_end token.now }
{
    match token {
        Terminal::End => true,
        _ => false,
    }
}

/// How many tokens the reader takes, up to the first that it refuses, or up to the end.
pub fn reach(alloc: Global, start: Reader, tokens: &[Token]) -> Result<usize, ParseFault>
    requires { IsWithin (state_of start) }
    ensures reached { IfOk result (λ count. Reaches (state_of start) tokens.now count) }
    ensures passed { IfPasses (state_of start) tokens.now result }
{
    let mut reader = start;
    for (i, token) in tokens.iter().enumerate() {
        let terminal = terminal(alloc, &token.kind)?;
        if is_end(&terminal) {
            return Ok(i);
        }
        match read_one(alloc, &mut reader, &terminal, 0) {
            Ok(()) => {}
            Err(fault) => match fault {
                ParseFault::Syntax(_) => return Ok(i),
                passed => return Err(passed),
            },
        }
    }
    Ok(tokens.len())
}
