// Breaks that a line shows with the lines before it.
ghost use Rattle.std.specs.Prelude.{◌≡◌, ◌+◌, ◌<◌, ◌^◌, ◌||◌};
ghost use Rattle.std.specs.List.{list_all};
ghost use Rattle.p9_facts.specs.Facts.{word_facts, datum_bytes};
ghost use Rattle.p9_asm.specs.Files.{file_in};
ghost use Rattle.p9_asm.specs.Breaks.{width_of, is_new, is_smaller, was_smaller, is_broken, is_label_outside, reserved_in, label_twice, shown_by, shown};

use crate::breaks::{Break, end_of, is_new, size_at};
use crate::tables::Tables;
use p9_facts::Fact;
use p9_rows::{Place, Row};
use p9_statement::{Datum, Line, Statement, SymbolName, fits_frame, reserved_register};

fn is_new_word(tables: &Tables, index: u32, symbol: SymbolName, at: u64) -> bool
    requires { at < 2 ^ 32 }
    ensures { result ≡ list_all (is_new (file_in tables.now) index) (word_facts symbol at) }
{
    is_new(tables, index, Fact::byte_of(symbol, at))
        && is_new(tables, index, Fact::byte_of(symbol, at + 1))
        && is_new(tables, index, Fact::byte_of(symbol, at + 2))
        && is_new(tables, index, Fact::byte_of(symbol, at + 3))
}

// Whether no line before gives one of the bytes a value.
fn are_new_bytes(tables: &Tables, index: u32, symbol: SymbolName, offset: u32, datum: Datum) -> bool
    ensures { result ≡ list_all (is_new (file_in tables.now) index) (datum_bytes symbol offset datum) }
{
    let at = u64::from(offset);
    match datum {
        Datum::Byte(_) => is_new(tables, index, Fact::byte_of(symbol, at)),
        Datum::Half(_) => {
            is_new(tables, index, Fact::byte_of(symbol, at))
                && is_new(tables, index, Fact::byte_of(symbol, at + 1))
        }
        Datum::Word(_) | Datum::Address(_, _) => is_new_word(tables, index, symbol, at),
    }
}

fn is_smaller(size: Option<u32>, end: u64) -> bool
    ensures { result ≡ is_smaller size end }
{
    match size {
        Some(size) => u64::from(size) < end,
        None => false,
    }
}

// Whether a line before gives the symbol a size that is smaller.
fn was_smaller(tables: &Tables, index: u32, end: u64, defined: Option<u32>) -> bool
    ensures { result ≡ was_smaller (file_in tables.now) index end defined }
{
    match defined {
        Some(row) => row < index && is_smaller(size_at(tables, row), end),
        None => false,
    }
}

// Whether the statement breaks a rule on statements.
fn is_broken(tables: &Tables, index: u32, place: Place, statement: Option<Statement>) -> bool
    ensures { result ≡ is_broken (file_in tables.now) index place statement }
{
    match statement {
        None => false,
        Some(Statement::Text(symbol, _)) => !is_new(tables, index, Fact::definition(symbol)),
        Some(Statement::Globl(symbol, _)) => !is_new(tables, index, Fact::definition(symbol)),
        Some(Statement::Signature(symbol, _)) => !is_new(tables, index, Fact::signature(symbol)),
        Some(Statement::Data(symbol, offset, datum)) => {
            let defined = tables.facts.first(Fact::definition(symbol));
            !are_new_bytes(tables, index, symbol, offset, datum)
                || was_smaller(tables, index, end_of(offset, datum), defined)
        }
        Some(Statement::Instruction(op, given)) => {
            place.function.is_none() || !fits_frame(place.frame, Statement::Instruction(op, given))
        }
    }
}

fn is_label_outside(label: Option<u32>, function: Option<u32>) -> bool
    ensures { result ≡ is_label_outside label function }
{
    label.is_some() && function.is_none()
}

// The first reserved register that the statement names.
fn reserved_in(statement: Option<Statement>) -> Option<Break>
    ensures { result ≡ reserved_in statement }
{
    let register = reserved_register(statement?)?;
    Some(Break::Reserved(register))
}

// A label that the function has already.
fn label_twice(
    tables: &Tables,
    index: u32,
    label: Option<u32>,
    function: Option<u32>,
) -> Option<Break>
    ensures { result ≡ label_twice (file_in tables.now) index label function }
{
    match (label, function) {
        (Some(word), Some(function)) => {
            if is_new(tables, index, Fact::Label { function, word }) {
                None
            } else {
                Some(Break::LabelTwice(word))
            }
        }
        _ => None,
    }
}

fn is_syntax(tables: &Tables, index: u32, place: Place, line: Line) -> bool
    ensures { result ≡ (is_label_outside line.label place.function || is_broken (file_in tables.now) index place line.statement) }
{
    is_label_outside(line.label, place.function) || is_broken(tables, index, place, line.statement)
}

// The break of the least number on a line.
fn shown_by(tables: &Tables, index: u32, place: Place, content: Option<Line>) -> Option<Break>
    ensures { result ≡ shown_by (file_in tables.now) index place content }
{
    let Some(line) = content else {
        return Some(Break::Syntax);
    };
    if is_syntax(tables, index, place, line) {
        return Some(Break::Syntax);
    }
    match reserved_in(line.statement) {
        Some(reserved) => Some(reserved),
        None => label_twice(tables, index, line.label, place.function),
    }
}

/// The break that a line shows with the lines before it.
#[tactic(auto, unfolding(crate::specs::Breaks::shown))]
pub(crate) fn shown(tables: &Tables, index: u32, row: &Row) -> Option<Break>
    ensures { result ≡ shown (file_in tables.now) index row.now }
{
    shown_by(tables, index, row.place, row.content)
}
