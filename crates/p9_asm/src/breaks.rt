// Rules that a line breaks, and questions that several rules ask.
ghost use Rattle.std.specs.Prelude.{◌≡◌, ◌+◌};
ghost use Rattle.p9_asm.specs.Files.{file_in};
ghost use Rattle.p9_asm.specs.Breaks.{size_in, size_at, width_of, is_at, is_new};

use crate::tables::Tables;
use p9_facts::Fact;
use p9_statement::{Datum, Statement};

/// How a line breaks a rule.
#[derive(Clone, Copy, Debug)]
pub enum Break {
    Syntax,
    Reserved(u8),
    NoLabel(u32),
    LabelTwice(u32),
}

fn size_in(statement: Option<Statement>) -> Option<u32>
    ensures { result ≡ size_in statement }
{
    match statement {
        Some(Statement::Globl(_, size)) => Some(size),
        _ => None,
    }
}

/// The size that the line of that number gives its symbol.
pub(crate) fn size_at(tables: &Tables, index: u32) -> Option<u32>
    ensures { result ≡ size_at (file_in tables.now) index }
{
    size_in(tables.statement_at(index))
}

fn width_of(datum: Datum) -> u64
    ensures { result ≡ width_of datum }
{
    match datum {
        Datum::Byte(_) => 1,
        Datum::Half(_) => 2,
        Datum::Word(_) | Datum::Address(_, _) => 4,
    }
}

/// The place behind the value.
pub(crate) fn end_of(offset: u32, datum: Datum) -> u64
    ensures { result ≡ offset + width_of datum }
{
    u64::from(offset) + width_of(datum)
}

fn is_at(first: Option<u32>, index: u32) -> bool
    ensures { result ≡ is_at first index }
{
    match first {
        Some(row) => row == index,
        None => false,
    }
}

/// Whether no line before says the fact that this one says.
pub(crate) fn is_new(tables: &Tables, index: u32, fact: Fact) -> bool
    ensures { result ≡ is_new (file_in tables.now) index fact }
{
    is_at(tables.facts.first(fact), index)
}
