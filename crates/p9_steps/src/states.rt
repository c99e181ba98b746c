// What a field makes of a reader's state.
ghost use Rattle.std.specs.Prelude.{◌≡◌, length, Some, IfOk};
ghost use Rattle.p9_object.specs.Fields.{Chars, Word};
ghost use Rattle.p9_object.specs.Bytes.{width_bytes, symbol_width};
ghost use Rattle.p9_object.specs.Machine.{step, behind_symbol, Whole, AtMagic, AtVersion, AtCount};
ghost use Rattle.p9_steps.specs.Places.{symbol_place, symbol_turn, symbols_state, state, next_state, state_read, wanted};

use crate::places::{Found, State, Step, SymbolPlace, SymbolTurn, SymbolsPart};
use crate::symbols::symbol_step;
use p9_abs::{Symbol, Symbols};
use p9_base::NoMemory;
use p9_instr::word;
use std::alloc::Global;

const MAGIC: &[u8] = b"v9o\n";

const VERSION: u32 = 1;

fn magic_step(field: &[u8]) -> Step
    ensures { next_state result ≡ step AtMagic (Chars field.now) }
{
    if field == MAGIC {
        Step::Next(State::Version)
    } else {
        Step::NoObject
    }
}

fn version_step(version: u32) -> Step
    ensures { next_state result ≡ step AtVersion (Word version) }
{
    if version == VERSION {
        Step::Next(State::Count)
    } else {
        Step::OtherVersion(version)
    }
}

fn count_step(alloc: Global, count: u32) -> Step
    ensures { next_state result ≡ step AtCount (Word count) }
{
    if count == 0 {
        Step::Next(State::Done(Symbols {
            list: Vec::new(alloc),
        }))
    } else {
        Step::Next(State::InSymbols(SymbolsPart {
            count,
            found: Found::new(alloc),
            place: SymbolPlace::Binding,
        }))
    }
}

fn with_symbol(alloc: Global, count: u32, found: Found, symbol: Symbol) -> Result<Step, NoMemory>
    ensures { IfOk result (λ next.
        next_state next ≡ behind_symbol count found.symbols (Whole symbol)) }
{
    let more = found.symbols.list.len() + 1 < count as usize;
    let found = found.with(alloc, symbol)?;
    if more {
        Ok(Step::Next(State::InSymbols(SymbolsPart {
            count,
            found,
            place: SymbolPlace::Binding,
        })))
    } else {
        Ok(Step::Next(State::Done(found.symbols)))
    }
}

fn behind_symbol(
    alloc: Global,
    count: u32,
    found: Found,
    turn: SymbolTurn,
) -> Result<Step, NoMemory>
    ensures { IfOk result (λ next.
        next_state next ≡ behind_symbol count found.symbols (symbol_turn turn)) }
{
    match turn {
        SymbolTurn::Bad => Ok(Step::NoObject),
        SymbolTurn::Stay(place) => Ok(Step::Next(State::InSymbols(SymbolsPart {
            count,
            found,
            place,
        }))),
        SymbolTurn::Whole(symbol) => with_symbol(alloc, count, found, symbol),
    }
}

fn symbols_step(alloc: Global, part: SymbolsPart, field: &[u8]) -> Result<Step, NoMemory>
    requires { length field.now ≡ width_bytes (symbol_width (symbol_place part.place)) }
    ensures { IfOk result (λ next.
        next_state next ≡ state_read (symbols_state part) field.now) }
{
    let SymbolsPart {
        count,
        found,
        place,
    } = part;
    let turn = symbol_step(alloc, count, &found, place, field)?;
    behind_symbol(alloc, count, found, turn)
}

/// What the bytes of a field make of the state, before a whole object.
pub fn step(alloc: Global, from: State, field: &[u8]) -> Result<Step, NoMemory>
    requires { wanted (state from) ≡ Some (length field.now) }
    ensures { IfOk result (λ next. next_state next ≡ state_read (state from) field.now) }
{
    match from {
        State::Magic => Ok(magic_step(field)),
        State::Version => Ok(version_step(word(field))),
        State::Count => Ok(count_step(alloc, word(field))),
        State::InSymbols(part) => symbols_step(alloc, part, field),
        State::Done(_) => Ok(Step::NoObject),
    }
}
