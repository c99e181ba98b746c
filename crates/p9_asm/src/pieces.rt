// The bytes and addresses of initialised data.
ghost use Rattle.std.specs.Prelude.{◌≡◌, List, ◌++◌, [], ◌∷◌, IfOk, OnOk, option_and_then};
ghost use Rattle.p9_abs.specs.declared.modules.DataPiece.{DataPiece};
ghost use Rattle.p9_abs.specs.declared.modules.DataPiece.TheVariants.{Address};
ghost use Rattle.p9_asm.specs.Files.{file_in, statement_at};
ghost use Rattle.p9_asm.specs.Data.{half_byte, word_byte, cell_of, cell_in, standing, in_front, flushed, bytes_in_front, pieces_from};

use crate::tables::Tables;
use p9_abs::{DataPiece, Pieces};
use p9_base::{Bytes, NoMemory};
use p9_facts::Fact;
use p9_statement::{Datum, Statement, SymbolName};
use std::alloc::Global;
use std::mem;

/// What stands at a place: a byte, the first byte of an address, or a later one.
#[derive(Clone, Copy)]
pub enum Cell {
    Byte(u8),
    Start(SymbolName, u32),
    Inside,
}

fn half_byte(value: u32, at: u64) -> u8
    ensures { result ≡ half_byte value at }
{
    if at == 0 {
        ((value / 256) % 256) as u8
    } else {
        (value % 256) as u8
    }
}

fn word_byte(value: u32, at: u64) -> u8
    ensures { result ≡ word_byte value at }
{
    if at == 0 {
        ((value / 16777216) % 256) as u8
    } else if at == 1 {
        ((value / 65536) % 256) as u8
    } else if at == 2 {
        ((value / 256) % 256) as u8
    } else {
        (value % 256) as u8
    }
}

// What stands at a place of a value.
fn cell_of(datum: Datum, at: u64) -> Cell
    ensures { result ≡ cell_of datum at }
{
    match datum {
        Datum::Byte(value) => Cell::Byte((value % 256) as u8),
        Datum::Half(value) => Cell::Byte(half_byte(value, at)),
        Datum::Word(value) => Cell::Byte(word_byte(value, at)),
        Datum::Address(symbol, offset) => {
            if at == 0 {
                Cell::Start(symbol, offset)
            } else {
                Cell::Inside
            }
        }
    }
}

// What a line lets stand at a place of its symbol.
fn cell_in(place: u64, statement: Option<Statement>) -> Option<Cell>
    ensures { result ≡ cell_in place statement }
{
    match statement {
        Some(Statement::Data(_, offset, datum)) => {
            Some(cell_of(datum, place.saturating_sub(u64::from(offset))))
        }
        _ => None,
    }
}

// What stands at a place of the symbol: zero, where no line says.
#[tactic(auto, unfolding(crate::specs::Data::standing))]
fn standing(tables: &Tables, symbol: SymbolName, place: u64) -> Cell
    ensures { result ≡ standing (file_in tables.now) symbol place }
{
    let row = tables.facts.first(Fact::byte_of(symbol, place));
    cell_in(place, tables.statement_by(row)).unwrap_or(Cell::Byte(0))
}

// Adds the bytes, if there are any.
fn push_raw(pieces: &mut Vec<DataPiece>, raw: Vec<u8>) -> Result<(), NoMemory>
    ensures { OnOk result (pieces.new.items ≡ pieces.old.items ++ flushed raw.items) }
{
    if !raw.is_empty() {
        pieces.push(DataPiece::Raw(Bytes { list: raw }))?;
    }
    Ok(())
}

// Adds the address of a symbol, behind bytes.
fn push_address(
    pieces: &mut Vec<DataPiece>,
    raw: Vec<u8>,
    symbol: u32,
    offset: u32,
) -> Result<(), NoMemory>
    ensures { OnOk result (pieces.new.items ≡ pieces.old.items ++ flushed raw.items ++ Address symbol offset ∷ []) }
{
    push_raw(pieces, raw)?;
    pieces.push(DataPiece::Address { symbol, offset })?;
    Ok(())
}

// Adds what stands at the next place.
fn push_cell(
    alloc: Global,
    tables: &Tables,
    pieces: &mut Vec<DataPiece>,
    raw: &mut Vec<u8>,
    cell: Cell,
) -> Result<(), NoMemory>
    ensures { OnOk result ((ps : List DataPiece) → pieces.new.items ++ bytes_in_front raw.new.items ps ≡ pieces.old.items ++ bytes_in_front raw.old.items (in_front (file_in tables.now) cell ps)) }
{
    match cell {
        Cell::Byte(byte) => raw.push(byte)?,
        Cell::Start(other, offset) => {
            let before = mem::replace(raw, Vec::new(alloc));
            push_address(pieces, before, tables.number_of(other), offset)?;
        }
        Cell::Inside => {}
    }
    Ok(())
}

/// The pieces of the symbol's data, of that size.
pub(crate) fn pieces_of(
    alloc: Global,
    tables: &Tables,
    symbol: SymbolName,
    size: u32,
) -> Result<Pieces, NoMemory>
    ensures { IfOk result (λ pieces. pieces ≡ pieces_from (file_in tables.now) symbol 0 size) }
{
    let mut list = Vec::new(alloc);
    let mut raw = Vec::new(alloc);
    let mut place = 0u32;
    while place < size {
        let cell = standing(tables, symbol, u64::from(place));
        push_cell(alloc, tables, &mut list, &mut raw, cell)?;
        place += 1;
    }
    push_raw(&mut list, raw)?;
    Ok(Pieces { list })
}
