// What is known of a file once it is read.
ghost use Rattle.std.specs.Prelude.{◌≡◌, ◌≤◌, ◌<◌, ◌^◌, length, IfOk, option_and_then};
ghost use Rattle.p9_rows.specs.Rows.{rows_of, lexemes_of};
ghost use Rattle.p9_facts.specs.Names.{symbols_of};
ghost use Rattle.p9_asm.specs.Files.{file_of, file_in, number_of, statement_in, statement_at};

use p9_base::NoMemory;
use p9_facts::{Facts, Names};
use p9_lex::Token;
use p9_rows::{Row, lexemes_of, rows_of};
use p9_statement::{Line, Statement, SymbolName};
use std::alloc::Global;

/// The lines of a file, what they say, and the symbols that they name.
#[derive(Drop)]
pub struct Tables {
    pub(crate) rows: Vec<Row>,
    pub(crate) facts: Facts,
    pub(crate) names: Names,
}

pub(crate) fn statement_in(content: Option<Line>) -> Option<Statement>
    ensures { result ≡ statement_in content }
{
    content?.statement
}

impl Tables {
    /// The tables of a file of these lines.
    fn of_rows(alloc: Global, rows: Vec<Row>) -> Result<Tables, NoMemory>
        requires { length rows.items < 2 ^ 32 }
        ensures file { IfOk result (λ tables. file_in tables ≡ file_of rows.items) }
        ensures names { IfOk result (λ tables. tables.names.list.items ≡ symbols_of rows.items) }
    {
        let facts = Facts::new(alloc, &rows)?;
        let names = Names::new(alloc, &rows)?;
        Ok(Tables { rows, facts, names })
    }

    /// The tables of a file of these tokens.
    pub(crate) fn new(alloc: Global, tokens: &[Token]) -> Result<Tables, NoMemory>
        requires { length tokens.now ≤ 2 ^ 25 }
        ensures file { IfOk result (λ tables. file_in tables ≡ file_of (rows_of (lexemes_of tokens.now))) }
        ensures names { IfOk result (λ tables. tables.names.list.items ≡ symbols_of (rows_of (lexemes_of tokens.now))) }
        ensures few { IfOk result (λ tables. length tables.rows.items < 2 ^ 32) }
    {
        let lexemes = lexemes_of(alloc, tokens)?;
        let rows = rows_of(alloc, &lexemes)?;
        Tables::of_rows(alloc, rows)
    }

    /// The symbol's number in its module.
    pub(crate) fn number_of(&self, symbol: SymbolName) -> u32
        ensures { result ≡ number_of (file_in self.now) symbol }
    {
        self.names.number(symbol).unwrap_or(0)
    }

    /// The statement of the line of that number.
    pub(crate) fn statement_at(&self, index: u32) -> Option<Statement>
        ensures { result ≡ statement_at (file_in self.now) index }
    {
        let row = self.rows.get(index as usize)?;
        statement_in(row.content)
    }

    /// The statement of a line, if there is one.
    pub(crate) fn statement_by(&self, row: Option<u32>) -> Option<Statement>
        ensures { result ≡ option_and_then (statement_at (file_in self.now)) row }
    {
        self.statement_at(row?)
    }
}
