// The bytes of data.
ghost use Rattle.std.specs.Prelude.{◌≡◌, ◌<◌, ◌+◌, ◌-◌, ◌^◌, ◌++◌, All, IfOk, OnOk, length, flat_map};
ghost use Rattle.p9_base.specs.Numbers.{word_bytes};
ghost use Rattle.p9_abs.specs.declared.modules.Body.TheVariants.{Data};
ghost use Rattle.p9_abs.specs.BuiltIn.{builtin_module, linked};
ghost use Rattle.p9_abs.specs.Modules.{pieces_size, rounded};
ghost use Rattle.p9_abs.specs.Programs.{numbered_from, records, piece_bytes, zero_bytes};
ghost use Rattle.p9_image.specs.Text.{address_at};
ghost use Rattle.p9_data.specs.Data.{one_record, records_bytes};

use p9_abs::{AModule, Body, DataPiece, Def, Pieces, Symbol};
use p9_base::{NoMemory, put32};
use p9_image::{SymbolAddresses, address};
use std::alloc::Global;

// Appends a word, its highest byte first.
fn push_word(out: &mut Vec<u8>, value: u32) -> Result<(), NoMemory>
    ensures { OnOk result (out.new.items ≡ out.old.items ++ word_bytes value) }
{
    let mut word = [0u8; 4];
    put32(&mut word, 0, value);
    out.extend_from_slice(&word)?;
    Ok(())
}

// Appends a piece of an object of a module.
fn push_piece(
    out: &mut Vec<u8>,
    tables: &[SymbolAddresses],
    unit: u32,
    piece: &DataPiece,
) -> Result<(), NoMemory>
    ensures { OnOk result (out.new.items ≡ out.old.items ++ piece_bytes (address_at tables.now unit) piece.now) }
{
    match piece {
        DataPiece::Raw(bytes) => {
            out.extend_from_slice(&bytes.list)?;
            Ok(())
        }
        DataPiece::Address { symbol, offset } => {
            let base = address(tables, unit, *symbol);
            push_word(out, base.wrapping_add(*offset))
        }
    }
}

// Appends pieces of an object of a module.
fn push_pieces(
    out: &mut Vec<u8>,
    tables: &[SymbolAddresses],
    unit: u32,
    pieces: &[DataPiece],
) -> Result<(), NoMemory>
    ensures { OnOk result (out.new.items ≡ out.old.items ++ flat_map (piece_bytes (address_at tables.now unit)) pieces.now) }
{
    let mut rest = pieces;
    while let [piece, after @ ..] = rest {
        push_piece(out, tables, unit, piece)?;
        rest = after;
    }
    Ok(())
}

// Appends so many zeros.
#[tactic(auto, unfolding(p9_abs::specs::Programs::zero_bytes))]
fn push_zeros(out: &mut Vec<u8>, count: usize) -> Result<(), NoMemory>
    ensures { OnOk result (out.new.items ≡ out.old.items ++ zero_bytes count) }
{
    let mut left = count;
    while left > 0 {
        out.push(0)?;
        left -= 1;
    }
    Ok(())
}

// Appends an object of a module, with zeros up to a multiple of 4.
fn push_object(
    out: &mut Vec<u8>,
    tables: &[SymbolAddresses],
    unit: u32,
    pieces: &Pieces,
) -> Result<(), NoMemory>
    ensures { OnOk result (out.new.items ≡ out.old.items ++ (flat_map (piece_bytes (address_at tables.now unit)) pieces.now ++ zero_bytes (rounded (pieces_size pieces.now) - pieces_size pieces.now))) }
{
    let start = out.len();
    push_pieces(out, tables, unit, &pieces.list)?;
    let size = out.len() - start;
    push_zeros(out, (4 - size % 4) % 4)?;
    Ok(())
}

// Appends the object that a symbol defines, if it is a datum.
fn push_symbol(
    out: &mut Vec<u8>,
    tables: &[SymbolAddresses],
    def: Def,
    symbol: &Symbol,
) -> Result<(), NoMemory>
    ensures { OnOk result (out.new.items ≡ out.old.items ++ records_bytes tables.now (one_record def symbol.now)) }
{
    match &symbol.body {
        Body::Data(pieces) => push_object(out, tables, def.module, pieces),
        _ => Ok(()),
    }
}

// Appends the data of a module.
fn push_module(
    out: &mut Vec<u8>,
    tables: &[SymbolAddresses],
    unit: u32,
    symbols: &[Symbol],
) -> Result<(), NoMemory>
    requires { length symbols.now < 2 ^ 32 }
    ensures { OnOk result (out.new.items ≡ out.old.items ++ records_bytes tables.now (numbered_from unit 0 symbols.now)) }
{
    let mut next: u32 = 0;
    let mut rest = symbols;
    while let [symbol, after @ ..] = rest {
        let def = Def {
            module: unit,
            symbol: next,
        };
        push_symbol(out, tables, def, symbol)?;
        next += 1;
        rest = after;
    }
    Ok(())
}

/// The bytes of the data of the modules and of the last, by the addresses of the symbols of each.
pub fn data_bytes(
    alloc: Global,
    tables: &[SymbolAddresses],
    modules: &[AModule],
    last: &AModule,
) -> Result<Vec<u8>, NoMemory>
    requires count { length modules.now < 2 ^ 32 }
    requires small { All (λ m. length m.symbols < 2 ^ 32) modules.now }
    requires builtin { last.now ≡ builtin_module }
    ensures { IfOk result (λ bytes. bytes.items ≡ records_bytes tables.now (records (linked modules.now))) }
{
    let mut bytes = Vec::new(alloc);
    let mut unit: u32 = 0;
    let mut rest = modules;
    while let [module, after @ ..] = rest {
        push_module(&mut bytes, tables, unit, &module.symbols.list)?;
        unit += 1;
        rest = after;
    }
    push_module(&mut bytes, tables, unit, &last.symbols.list)?;
    Ok(bytes)
}
