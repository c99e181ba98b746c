// Which symbols a module uses, and whether each of them is defined.
ghost use Rattle.std.specs.Prelude.{◌≡◌, ◌<◌, ◌≤◌, ◌+◌, ◌++◌, ◌∷◌, ◌^◌, ◌||◌, [], ℕ, List, Bool, false, IsTrue, OnOk, IfOk, IfErr, All, length, slice_get, find};
ghost use Rattle.std.specs.List.{list_any};
ghost use Rattle.std.proofs.Common.{get_or};
ghost use Rattle.p9_abs.specs.Modules.{named_by_operand, named_by_piece};
ghost use Rattle.p9_abs.specs.Names.{is_number, body_names, module_names};
ghost use Rattle.p9_names.specs.Linking.{is_use};
ghost use Rattle.p9_names.specs.Passes.{is_global_use, places_in, places_from, uses_of, ArePlaces, is_missing};

use crate::places::Linked;
use indexmap::IndexMap;
use p9_abs::{AModule, Abs, Body, DataPiece, Def, Operand, Symbol};
use p9_base::{Name, NoMemory};
use std::alloc::Global;

fn named_by_operand(operand: Operand) -> Option<u32>
    ensures { result ≡ named_by_operand operand }
{
    match operand {
        Operand::AddrSB(symbol, _) | Operand::MemSB(symbol, _) | Operand::Func(symbol) => {
            Some(symbol)
        }
        _ => None,
    }
}

fn named_by_piece(piece: &DataPiece) -> Option<u32>
    ensures { result ≡ named_by_piece piece.now }
{
    match piece {
        DataPiece::Raw(_) => None,
        DataPiece::Address { symbol, .. } => Some(*symbol),
    }
}

// Marks the symbol of that number, where there is one.
fn mark(named: &mut [bool], symbol: Option<u32>)
    ensures { (k : ℕ) → k < length named.old → get_or named.new k false ≡ get_or named.old k false || is_number k symbol }
{
    if let Some(number) = symbol {
        let number = number as usize;
        if number < named.len() {
            named[number] = true;
        }
    }
}

fn mark_operands(named: &mut [bool], operands: &[Operand])
    ensures { (k : ℕ) → k < length named.old → get_or named.new k false ≡ get_or named.old k false || list_any (λ o. is_number k (named_by_operand o)) operands.now }
{
    let mut rest = operands;
    while let [operand, after @ ..] = rest {
        mark(named, named_by_operand(*operand));
        rest = after;
    }
}

fn mark_code(named: &mut [bool], code: &[Abs])
    ensures { (k : ℕ) → k < length named.old → get_or named.new k false ≡ get_or named.old k false || list_any (λ a. list_any (λ o. is_number k (named_by_operand o)) a.operands) code.now }
{
    let mut rest = code;
    while let [instruction, after @ ..] = rest {
        mark_operands(named, &instruction.operands.list);
        rest = after;
    }
}

fn mark_pieces(named: &mut [bool], pieces: &[DataPiece])
    ensures { (k : ℕ) → k < length named.old → get_or named.new k false ≡ get_or named.old k false || list_any (λ p. is_number k (named_by_piece p)) pieces.now }
{
    let mut rest = pieces;
    while let [piece, after @ ..] = rest {
        mark(named, named_by_piece(piece));
        rest = after;
    }
}

fn mark_body(named: &mut [bool], body: &Body)
    ensures { (k : ℕ) → k < length named.old → get_or named.new k false ≡ get_or named.old k false || body_names k body.now }
{
    match body {
        Body::Text(def) => mark_code(named, &def.code.list),
        Body::Data(pieces) => mark_pieces(named, &pieces.list),
        _ => {}
    }
}

// For each symbol of a module, whether an instruction or a data piece names it.
fn named(alloc: Global, symbols: &[Symbol]) -> Result<Vec<bool>, NoMemory>
    ensures len { IfOk result (λ flags. length flags.items ≡ length symbols.now) }
    ensures flags { IfOk result (λ flags. (k : ℕ) → k < length symbols.now → get_or flags.items k false ≡ module_names symbols.now k) }
{
    let mut flags = vec![in alloc; false; symbols.len()]?;
    let mut rest = symbols;
    while let [symbol, after @ ..] = rest {
        mark_body(&mut flags, &symbol.body);
        rest = after;
    }
    Ok(flags)
}

fn is_use(body: &Body, named: bool) -> bool
    ensures { (symbols : List Symbol) (k : ℕ) → named ≡ module_names symbols k → result ≡ is_use symbols k body.now }
{
    match body {
        Body::Used => true,
        Body::Declared => named,
        _ => false,
    }
}

// Adds the places of the global names that a module uses.
fn add_uses(
    alloc: Global,
    places: &mut Vec<Def>,
    number: u32,
    symbols: &[Symbol],
) -> Result<(), NoMemory>
    requires { length symbols.now < 2 ^ 32 }
    ensures { OnOk result (places.new.items ≡ places.old.items ++ places_in (is_global_use symbols.now) number 0 symbols.now) }
{
    let flags = named(alloc, symbols)?;
    let mut next = 0;
    let mut rest = symbols;
    while let [symbol, after @ ..] = rest {
        if !symbol.local && is_use(&symbol.body, flags[next as usize]) {
            places.push(Def {
                module: number,
                symbol: next,
            })?;
        }
        next += 1;
        rest = after;
    }
    Ok(())
}

/// The places of all global names that their modules use, in order.
pub(crate) fn uses(alloc: Global, linked: &Linked) -> Result<Vec<Def>, NoMemory>
    requires count { length linked.now ≤ 2 ^ 32 }
    requires small { All (λ m. length m.symbols < 2 ^ 32) linked.now }
    ensures { IfOk result (λ places. places.items ≡ uses_of linked.now) }
{
    let mut places = Vec::new(alloc);
    for i in 0..linked.len() {
        let module = linked.module(i);
        add_uses(alloc, &mut places, i as u32, &module.symbols.list)?;
    }
    Ok(places)
}

/// The first of the places whose name is not in the map.
pub(crate) fn first_missing(
    linked: &Linked,
    uses: &[Def],
    defs: &IndexMap<Name, Def>,
) -> Option<Def>
    requires { ArePlaces linked.now uses.now }
    ensures { result ≡ find (is_missing linked.now defs.now.entries) uses.now }
{
    let mut rest = uses;
    while let [place, after @ ..] = rest {
        if !defs.contains_key(&linked.symbol(*place).name) {
            return Some(*place);
        }
        rest = after;
    }
    None
}
