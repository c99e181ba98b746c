// What the lines of a file say of symbols, functions and bytes.
ghost use Rattle.std.specs.Prelude.{◌≡◌, ◌<◌, ◌≤◌, ◌+◌, ◌^◌, ℕ, List, ◌++◌, length, IfOk, OnOk, Some, None, if◌then◌else◌};
ghost use Rattle.std.specs.HashMap.{get};
ghost use Rattle.std.specs.Option.{option_or};
ghost use Rattle.p9_facts.specs.declared.facts.Fact.{Fact};
ghost use Rattle.p9_facts.specs.Facts.{same_fact, among, noted, held, definition, signature, use_of, value_of, byte_of, symbol_in, symbol_at, used, label_facts, counted, argument_facts, arguments_facts, word_facts, datum_bytes, datum_facts, statement_facts, says, first_row};

use p9_base::NoMemory;
use p9_rows::{Place, Row};
use p9_statement::{Argument, Arguments, Datum, Statement, SymbolName};
use std::alloc::Global;
use std::collections::HashMap;

/// A fact that a line may say. Functions go by the row of their TEXT line, and names by the token
/// where they stand first.
#[derive(Clone, Copy, PartialEq, Eq, Hash, Debug)]
pub enum Fact {
    /// The function has a label of that name.
    Label { function: u32, word: u32 },
    /// The function has an instruction of that number.
    Instruction { function: u32, number: u64 },
    /// The symbol is a function, or data of a size.
    Definition { word: u32, local: bool },
    /// The symbol has a signature.
    Signature { word: u32, local: bool },
    /// The symbol stands in an operand, or in a value of data.
    Use { word: u32, local: bool },
    /// The symbol has a value.
    Value { word: u32, local: bool },
    /// The byte at that place of the symbol has a value.
    Byte { word: u32, local: bool, place: u64 },
}

impl Fact {
    /// The symbol is a function, or data of a size.
    pub fn definition(symbol: SymbolName) -> Fact
        ensures { result ≡ definition symbol }
    {
        Fact::Definition {
            word: symbol.word,
            local: symbol.local,
        }
    }

    /// The symbol has a signature.
    pub fn signature(symbol: SymbolName) -> Fact
        ensures { result ≡ signature symbol }
    {
        Fact::Signature {
            word: symbol.word,
            local: symbol.local,
        }
    }

    /// The symbol stands in an operand, or in a value of data.
    pub fn use_of(symbol: SymbolName) -> Fact
        ensures { result ≡ use_of symbol }
    {
        Fact::Use {
            word: symbol.word,
            local: symbol.local,
        }
    }

    /// The symbol has a value.
    pub fn value_of(symbol: SymbolName) -> Fact
        ensures { result ≡ value_of symbol }
    {
        Fact::Value {
            word: symbol.word,
            local: symbol.local,
        }
    }

    /// The byte at that place of the symbol has a value.
    pub fn byte_of(symbol: SymbolName, place: u64) -> Fact
        ensures { result ≡ byte_of symbol place }
    {
        Fact::Byte {
            word: symbol.word,
            local: symbol.local,
            place,
        }
    }
}

/// The row that says each fact first.
#[derive(Drop)]
pub struct Facts {
    map: HashMap<Fact, u32>,
}

// Notes that a row says a fact, if none before it does.
fn note(map: &mut HashMap<Fact, u32>, fact: Fact, row: u32) -> Result<(), NoMemory>
    ensures { OnOk result ((q : Fact) → get same_fact map.new q ≡ noted (get same_fact map.old q) row (same_fact fact q)) }
{
    if !map.contains_key(&fact) {
        map.insert(fact, row)?;
    }
    Ok(())
}

// Notes that a row says these facts.
fn note_all(map: &mut HashMap<Fact, u32>, facts: &[Fact], row: u32) -> Result<(), NoMemory>
    ensures { OnOk result ((q : Fact) → get same_fact map.new q ≡ noted (get same_fact map.old q) row (among q facts.now)) }
{
    let mut rest = facts;
    while let [fact, after @ ..] = rest {
        note(map, *fact, row)?;
        rest = after;
    }
    Ok(())
}

/// The symbol that an operand names.
pub fn symbol_in(argument: Argument) -> Option<SymbolName>
    ensures { result ≡ symbol_in argument }
{
    match argument {
        Argument::Address(symbol, _) | Argument::Memory(symbol, _) | Argument::Function(symbol) => {
            Some(symbol)
        }
        _ => None,
    }
}

/// The symbol that a value is the address of.
pub fn symbol_at(datum: Datum) -> Option<SymbolName>
    ensures { result ≡ symbol_at datum }
{
    match datum {
        Datum::Address(symbol, _) => Some(symbol),
        Datum::Byte(_) | Datum::Half(_) | Datum::Word(_) => None,
    }
}

fn note_label(
    map: &mut HashMap<Fact, u32>,
    label: Option<u32>,
    function: Option<u32>,
    row: u32,
) -> Result<(), NoMemory>
    ensures { OnOk result ((q : Fact) → get same_fact map.new q ≡ noted (get same_fact map.old q) row (among q (label_facts label function))) }
{
    match (label, function) {
        (Some(word), Some(function)) => note(map, Fact::Label { function, word }, row),
        _ => Ok(()),
    }
}

fn note_used(
    map: &mut HashMap<Fact, u32>,
    symbol: Option<SymbolName>,
    row: u32,
) -> Result<(), NoMemory>
    ensures { OnOk result ((q : Fact) → get same_fact map.new q ≡ noted (get same_fact map.old q) row (among q (used symbol))) }
{
    match symbol {
        Some(symbol) => note(map, Fact::use_of(symbol), row),
        None => Ok(()),
    }
}

fn note_argument(map: &mut HashMap<Fact, u32>, argument: Argument, row: u32) -> Result<(), NoMemory>
    ensures { OnOk result ((q : Fact) → get same_fact map.new q ≡ noted (get same_fact map.old q) row (among q (argument_facts argument))) }
{
    note_used(map, symbol_in(argument), row)
}

fn note_arguments(map: &mut HashMap<Fact, u32>, given: Arguments, row: u32) -> Result<(), NoMemory>
    ensures { OnOk result ((q : Fact) → get same_fact map.new q ≡ noted (get same_fact map.old q) row (among q (arguments_facts given))) }
{
    match given {
        Arguments::Zero => Ok(()),
        Arguments::One(a) => note_argument(map, a, row),
        Arguments::Two(a, b) => {
            note_argument(map, a, row)?;
            note_argument(map, b, row)
        }
        Arguments::Three(a, b, c) => {
            note_argument(map, a, row)?;
            note_argument(map, b, row)?;
            note_argument(map, c, row)
        }
    }
}

fn note_instruction(map: &mut HashMap<Fact, u32>, place: Place, row: u32) -> Result<(), NoMemory>
    ensures { OnOk result ((q : Fact) → get same_fact map.new q ≡ noted (get same_fact map.old q) row (among q (counted place.function place.number))) }
{
    match place.function {
        Some(function) => {
            let number = u64::from(place.number);
            note(map, Fact::Instruction { function, number }, row)
        }
        None => Ok(()),
    }
}

fn note_word(
    map: &mut HashMap<Fact, u32>,
    symbol: SymbolName,
    at: u64,
    row: u32,
) -> Result<(), NoMemory>
    requires { at < 2 ^ 32 }
    ensures { OnOk result ((q : Fact) → get same_fact map.new q ≡ noted (get same_fact map.old q) row (among q (word_facts symbol at))) }
{
    let facts = [
        Fact::byte_of(symbol, at),
        Fact::byte_of(symbol, at + 1),
        Fact::byte_of(symbol, at + 2),
        Fact::byte_of(symbol, at + 3),
    ];
    note_all(map, &facts, row)
}

fn note_bytes(
    map: &mut HashMap<Fact, u32>,
    symbol: SymbolName,
    offset: u32,
    datum: Datum,
    row: u32,
) -> Result<(), NoMemory>
    ensures { OnOk result ((q : Fact) → get same_fact map.new q ≡ noted (get same_fact map.old q) row (among q (datum_bytes symbol offset datum))) }
{
    let at = u64::from(offset);
    match datum {
        Datum::Byte(_) => note(map, Fact::byte_of(symbol, at), row),
        Datum::Half(_) => {
            let facts = [Fact::byte_of(symbol, at), Fact::byte_of(symbol, at + 1)];
            note_all(map, &facts, row)
        }
        Datum::Word(_) | Datum::Address(_, _) => note_word(map, symbol, at, row),
    }
}

#[tactic(auto, using(crate::proofs::Noting::on_both))]
fn note_datum(
    map: &mut HashMap<Fact, u32>,
    symbol: SymbolName,
    offset: u32,
    datum: Datum,
    row: u32,
) -> Result<(), NoMemory>
    ensures { OnOk result ((q : Fact) → get same_fact map.new q ≡ noted (get same_fact map.old q) row (among q (datum_facts symbol offset datum))) }
{
    note_bytes(map, symbol, offset, datum, row)?;
    note_used(map, symbol_at(datum), row)
}

fn note_operation(
    map: &mut HashMap<Fact, u32>,
    place: Place,
    given: Arguments,
    row: u32,
) -> Result<(), NoMemory>
    ensures { OnOk result ((q : Fact) → get same_fact map.new q ≡ noted (get same_fact map.old q) row (among q (counted place.function place.number ++ arguments_facts given))) }
{
    note_instruction(map, place, row)?;
    note_arguments(map, given, row)
}

#[tactic(auto, using(crate::proofs::Noting::on_both))]
fn note_statement(
    map: &mut HashMap<Fact, u32>,
    place: Place,
    statement: Option<Statement>,
    row: u32,
) -> Result<(), NoMemory>
    ensures { OnOk result ((q : Fact) → get same_fact map.new q ≡ noted (get same_fact map.old q) row (among q (statement_facts place statement))) }
{
    match statement {
        None => Ok(()),
        Some(Statement::Text(symbol, _)) => note(map, Fact::definition(symbol), row),
        Some(Statement::Globl(symbol, _)) => note(map, Fact::definition(symbol), row),
        Some(Statement::Data(symbol, offset, datum)) => {
            note(map, Fact::value_of(symbol), row)?;
            note_datum(map, symbol, offset, datum, row)
        }
        Some(Statement::Signature(symbol, _)) => note(map, Fact::signature(symbol), row),
        Some(Statement::Instruction(_, given)) => note_operation(map, place, given, row),
    }
}

// Notes what a row says.
#[tactic(auto, unfolding(crate::specs::Facts::says))]
fn note_row(map: &mut HashMap<Fact, u32>, row: &Row, index: u32) -> Result<(), NoMemory>
    ensures { OnOk result ((q : Fact) → get same_fact map.new q ≡ noted (get same_fact map.old q) index (says q row.now)) }
{
    match row.content {
        None => Ok(()),
        Some(line) => {
            note_label(map, line.label, row.place.function, index)?;
            note_statement(map, row.place, line.statement, index)
        }
    }
}

impl Facts {
    /// What the rows say.
    pub fn new(alloc: Global, rows: &[Row]) -> Result<Facts, NoMemory>
        requires { length rows.now < 2 ^ 32 }
        ensures { IfOk result (λ facts. (q : Fact) → held facts q ≡ first_row rows.now q) }
    {
        let mut map = HashMap::new(alloc);
        let mut index = 0u32;
        let mut rest = rows;
        while let [row, after @ ..] = rest {
            note_row(&mut map, row, index)?;
            index += 1;
            rest = after;
        }
        Ok(Facts { map })
    }

    /// The row that says the fact first.
    pub fn first(&self, fact: Fact) -> Option<u32>
        ensures { result ≡ held self.now fact }
    {
        self.map.get(&fact).copied()
    }
}
