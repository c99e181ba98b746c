// Breaks of a line that later lines, or the end of the file, show.
ghost use Rattle.std.specs.Prelude.{◌≡◌, ◌+◌, ◌||◌, ◌&&◌, ◌<◌, ◌^◌, not, option_to_list};
ghost use Rattle.std.specs.List.{list_any};
ghost use Rattle.std.specs.Option.{option_or};
ghost use Rattle.p9_statement.specs.Statements.{listed};
ghost use Rattle.p9_facts.specs.Facts.{symbol_in, symbol_at};
ghost use Rattle.p9_facts.specs.Names.{names_in, names_of_statement};
ghost use Rattle.p9_asm.specs.Files.{file_in};
ghost use Rattle.p9_asm.specs.Breaks.{is_past, is_outside_size, is_outside, is_undefined, may_end, is_unended, names_nothing, label_in, missing_label, missing_among, no_label, unfinished_by, unfinished};

use crate::breaks::{Break, end_of, size_at};
use crate::tables::Tables;
use p9_abs::Op;
use p9_facts::{Fact, symbol_at, symbol_in};
use p9_rows::{Place, Row};
use p9_statement::{Argument, Arguments, Line, Statement, SymbolName};

// Whether the function has no instruction of that number.
fn is_past(tables: &Tables, function: Option<u32>, number: u64) -> bool
    ensures { result ≡ is_past (file_in tables.now) function number }
{
    match function {
        Some(function) => {
            let fact = Fact::Instruction { function, number };
            tables.facts.first(fact).is_none()
        }
        None => false,
    }
}

fn is_outside_size(size: Option<u32>, end: u64) -> bool
    ensures { result ≡ is_outside_size size end }
{
    match size {
        Some(size) => u64::from(size) < end,
        None => true,
    }
}

// Whether the place is behind all data of the symbol.
fn is_outside(tables: &Tables, end: u64, defined: Option<u32>) -> bool
    ensures { result ≡ is_outside (file_in tables.now) end defined }
{
    match defined {
        Some(row) => is_outside_size(size_at(tables, row), end),
        None => true,
    }
}

// Whether the symbol is local to the file and the file doesn't define it.
fn is_undefined(tables: &Tables, symbol: SymbolName) -> bool
    ensures { result ≡ is_undefined (file_in tables.now) symbol }
{
    symbol.local && tables.facts.first(Fact::definition(symbol)).is_none()
}

fn is_any_undefined(tables: &Tables, symbol: Option<SymbolName>) -> bool
    ensures { result ≡ list_any (is_undefined (file_in tables.now)) (option_to_list symbol) }
{
    match symbol {
        Some(symbol) => is_undefined(tables, symbol),
        None => false,
    }
}

fn is_undefined_in(tables: &Tables, argument: Argument) -> bool
    ensures { result ≡ list_any (is_undefined (file_in tables.now)) (option_to_list (symbol_in argument)) }
{
    is_any_undefined(tables, symbol_in(argument))
}

#[tactic(auto, using(crate::proofs::Naming::any_append))]
fn are_undefined(tables: &Tables, given: Arguments) -> bool
    ensures { result ≡ list_any (is_undefined (file_in tables.now)) (names_in given) }
{
    match given {
        Arguments::Zero => false,
        Arguments::One(a) => is_undefined_in(tables, a),
        Arguments::Two(a, b) => is_undefined_in(tables, a) || is_undefined_in(tables, b),
        Arguments::Three(a, b, c) => {
            is_undefined_in(tables, a) || is_undefined_in(tables, b) || is_undefined_in(tables, c)
        }
    }
}

fn names_undefined(tables: &Tables, statement: Option<Statement>) -> bool
    ensures { result ≡ list_any (is_undefined (file_in tables.now)) (names_of_statement statement) }
{
    match statement {
        None => false,
        Some(Statement::Text(symbol, _)) => is_undefined(tables, symbol),
        Some(Statement::Globl(symbol, _)) => is_undefined(tables, symbol),
        Some(Statement::Signature(symbol, _)) => is_undefined(tables, symbol),
        Some(Statement::Data(symbol, _, datum)) => {
            is_undefined(tables, symbol) || is_any_undefined(tables, symbol_at(datum))
        }
        Some(Statement::Instruction(_, given)) => are_undefined(tables, given),
    }
}

fn may_end(op: Op) -> bool
    ensures { result ≡ may_end op }
{
    match op {
        Op::Ret | Op::Jmp => true,
        _ => false,
    }
}

// Whether the function or the data of the statement end where they may not.
fn is_unended(tables: &Tables, index: u32, place: Place, statement: Option<Statement>) -> bool
    ensures { result ≡ is_unended (file_in tables.now) index place statement }
{
    match statement {
        Some(Statement::Text(_, _)) => is_past(tables, Some(index), 0),
        Some(Statement::Data(symbol, offset, datum)) => {
            let defined = tables.facts.first(Fact::definition(symbol));
            is_outside(tables, end_of(offset, datum), defined)
        }
        Some(Statement::Instruction(op, _)) => {
            is_past(tables, place.function, u64::from(place.number) + 1) && !may_end(op)
        }
        None | Some(Statement::Globl(_, _)) | Some(Statement::Signature(_, _)) => false,
    }
}

// Whether the line's label names no instruction.
fn names_nothing(tables: &Tables, place: Place, label: Option<u32>) -> bool
    ensures { result ≡ names_nothing (file_in tables.now) place label }
{
    label.is_some() && is_past(tables, place.function, u64::from(place.number))
}

fn label_in(argument: Argument) -> Option<u32>
    ensures { result ≡ label_in argument }
{
    match argument {
        Argument::Label(word) => Some(word),
        _ => None,
    }
}

fn missing_label(tables: &Tables, target: Option<u32>, function: Option<u32>) -> Option<Break>
    ensures { result ≡ missing_label (file_in tables.now) target function }
{
    match (target, function) {
        (Some(word), Some(function)) => match tables.facts.first(Fact::Label { function, word }) {
            Some(_) => None,
            None => Some(Break::NoLabel(word)),
        },
        _ => None,
    }
}

fn label_or(
    tables: &Tables,
    function: Option<u32>,
    argument: Argument,
    later: Option<Break>,
) -> Option<Break>
    ensures { result ≡ option_or (missing_label (file_in tables.now) (label_in argument) function) later }
{
    match missing_label(tables, label_in(argument), function) {
        Some(missing) => Some(missing),
        None => later,
    }
}

// The first label among the operands that the function doesn't have.
fn missing_among(tables: &Tables, function: Option<u32>, given: Arguments) -> Option<Break>
    ensures { result ≡ missing_among (file_in tables.now) function (listed given) }
{
    match given {
        Arguments::Zero => None,
        Arguments::One(a) => label_or(tables, function, a, None),
        Arguments::Two(a, b) => {
            let last = label_or(tables, function, b, None);
            label_or(tables, function, a, last)
        }
        Arguments::Three(a, b, c) => {
            let last = label_or(tables, function, c, None);
            let later = label_or(tables, function, b, last);
            label_or(tables, function, a, later)
        }
    }
}

fn no_label(tables: &Tables, function: Option<u32>, statement: Option<Statement>) -> Option<Break>
    ensures { result ≡ no_label (file_in tables.now) function statement }
{
    match statement {
        Some(Statement::Instruction(_, given)) => missing_among(tables, function, given),
        _ => None,
    }
}

fn is_missing(tables: &Tables, index: u32, place: Place, statement: Option<Statement>) -> bool
    ensures { result ≡ (is_unended (file_in tables.now) index place statement || list_any (is_undefined (file_in tables.now)) (names_of_statement statement)) }
{
    is_unended(tables, index, place, statement) || names_undefined(tables, statement)
}

fn is_incomplete(tables: &Tables, index: u32, place: Place, line: Line) -> bool
    ensures { result ≡ (names_nothing (file_in tables.now) place line.label || (is_unended (file_in tables.now) index place line.statement || list_any (is_undefined (file_in tables.now)) (names_of_statement line.statement))) }
{
    names_nothing(tables, place, line.label) || is_missing(tables, index, place, line.statement)
}

fn unfinished_by(tables: &Tables, index: u32, place: Place, content: Option<Line>) -> Option<Break>
    ensures { result ≡ unfinished_by (file_in tables.now) index place content }
{
    let line = content?;
    if is_incomplete(tables, index, place, line) {
        Some(Break::Syntax)
    } else {
        no_label(tables, place.function, line.statement)
    }
}

/// The break of a line that later lines, or the end of the file, show.
#[tactic(auto, unfolding(crate::specs::Breaks::unfinished))]
pub(crate) fn unfinished(tables: &Tables, index: u32, row: &Row) -> Option<Break>
    ensures { result ≡ unfinished (file_in tables.now) index row.now }
{
    unfinished_by(tables, index, row.place, row.content)
}
