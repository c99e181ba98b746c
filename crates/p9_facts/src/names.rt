// The symbols that a file names, in the order of their first lines.
ghost use Rattle.std.specs.Prelude.{◌≡◌, IfOk, OnOk, [], ◌∷◌, ◌++◌, option_to_list};
ghost use Rattle.p9_facts.specs.Facts.{symbol_in, symbol_at};
ghost use Rattle.p9_facts.specs.Names.{key_of, number_held, number_in, with_name, with_names, names_in, names_of_statement, names_of, symbols_of, IsNumbered};

use crate::facts::{symbol_at, symbol_in};
use p9_base::NoMemory;
use p9_rows::Row;
use p9_statement::{Argument, Arguments, Statement, SymbolName};
use std::alloc::Global;
use std::collections::HashMap;

#[derive(Clone, Copy, PartialEq, Eq, Hash)]
struct Key {
    word: u32,
    local: bool,
}

/// The symbols that a file names, each once, in the order of their first lines; on one line from left
/// to right.
#[derive(Drop)]
pub struct Names {
    list: Vec<SymbolName>,
    numbers: HashMap<Key, u32>,
}

fn key_of(symbol: SymbolName) -> Key
    ensures { result ≡ key_of symbol }
{
    Key {
        word: symbol.word,
        local: symbol.local,
    }
}

// Adds a symbol that has no number.
fn append(names: &mut Names, symbol: SymbolName) -> Result<(), NoMemory>
    requires numbered { IsNumbered names.old }
    requires new { number_in names.old.list.items symbol ≡ None }
    ensures list { OnOk result (names.new.list.items ≡ names.old.list.items ++ symbol ∷ []) }
    ensures numbered { OnOk result (IsNumbered names.new) }
{
    let number = u32::try_from(names.list.len()).map_err(|_| NoMemory)?;
    names.numbers.insert(key_of(symbol), number)?;
    names.list.push(symbol)?;
    Ok(())
}

fn add(names: &mut Names, symbol: SymbolName) -> Result<(), NoMemory>
    requires { IsNumbered names.old }
    ensures list { OnOk result (names.new.list.items ≡ with_name names.old.list.items symbol) }
    ensures numbered { OnOk result (IsNumbered names.new) }
{
    match names.number(symbol) {
        Some(_) => Ok(()),
        None => append(names, symbol),
    }
}

fn add_named(names: &mut Names, symbol: Option<SymbolName>) -> Result<(), NoMemory>
    requires { IsNumbered names.old }
    ensures list { OnOk result (names.new.list.items ≡ with_names names.old.list.items (option_to_list symbol)) }
    ensures numbered { OnOk result (IsNumbered names.new) }
{
    match symbol {
        Some(symbol) => add(names, symbol),
        None => Ok(()),
    }
}

fn add_argument(names: &mut Names, argument: Argument) -> Result<(), NoMemory>
    requires { IsNumbered names.old }
    ensures list { OnOk result (names.new.list.items ≡ with_names names.old.list.items (option_to_list (symbol_in argument))) }
    ensures numbered { OnOk result (IsNumbered names.new) }
{
    add_named(names, symbol_in(argument))
}

#[tactic(auto, using(crate::proofs::Listing::with_append))]
fn add_arguments(names: &mut Names, given: Arguments) -> Result<(), NoMemory>
    requires { IsNumbered names.old }
    ensures list { OnOk result (names.new.list.items ≡ with_names names.old.list.items (names_in given)) }
    ensures numbered { OnOk result (IsNumbered names.new) }
{
    match given {
        Arguments::Zero => Ok(()),
        Arguments::One(a) => add_argument(names, a),
        Arguments::Two(a, b) => {
            add_argument(names, a)?;
            add_argument(names, b)
        }
        Arguments::Three(a, b, c) => {
            add_argument(names, a)?;
            add_argument(names, b)?;
            add_argument(names, c)
        }
    }
}

fn add_statement(names: &mut Names, statement: Option<Statement>) -> Result<(), NoMemory>
    requires { IsNumbered names.old }
    ensures list { OnOk result (names.new.list.items ≡ with_names names.old.list.items (names_of_statement statement)) }
    ensures numbered { OnOk result (IsNumbered names.new) }
{
    match statement {
        None => Ok(()),
        Some(Statement::Text(symbol, _)) => add(names, symbol),
        Some(Statement::Globl(symbol, _)) => add(names, symbol),
        Some(Statement::Signature(symbol, _)) => add(names, symbol),
        Some(Statement::Data(symbol, _, datum)) => {
            add(names, symbol)?;
            add_named(names, symbol_at(datum))
        }
        Some(Statement::Instruction(_, given)) => add_arguments(names, given),
    }
}

fn add_row(names: &mut Names, row: &Row) -> Result<(), NoMemory>
    requires { IsNumbered names.old }
    ensures list { OnOk result (names.new.list.items ≡ with_names names.old.list.items (names_of row.now)) }
    ensures numbered { OnOk result (IsNumbered names.new) }
{
    match row.content {
        None => Ok(()),
        Some(line) => add_statement(names, line.statement),
    }
}

impl Names {
    /// The symbols that the rows name.
    #[tactic(auto, using(crate::proofs::Listing::with_append))]
    pub fn new(alloc: Global, rows: &[Row]) -> Result<Names, NoMemory>
        ensures list { IfOk result (λ names. names.list.items ≡ symbols_of rows.now) }
        ensures numbered { IfOk result IsNumbered }
    {
        let mut names = Names {
            list: Vec::new(alloc),
            numbers: HashMap::new(alloc),
        };
        let mut rest = rows;
        while let [row, after @ ..] = rest {
            add_row(&mut names, row)?;
            rest = after;
        }
        Ok(names)
    }

    /// The symbols in order.
    pub fn list(&self) -> &[SymbolName]
        ensures { result.now ≡ self.now.list.items }
    {
        self.list.as_slice()
    }

    /// The symbol's number among them.
    pub fn number(&self, symbol: SymbolName) -> Option<u32>
        ensures { result ≡ number_held self.now symbol }
    {
        self.numbers.get(&key_of(symbol)).copied()
    }
}
