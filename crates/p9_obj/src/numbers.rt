// Whether what a body names is among the symbols of its module.
ghost use Rattle.std.specs.Prelude.{◌↔◌, IsTrue, All};
ghost use Rattle.p9_abs.specs.Modules.{named_by_operand, named_by_piece};
ghost use Rattle.p9_abs.specs.Validity.{IsWithin, NamesWithin};
ghost use Rattle.p9_obj.specs.Rules.{NamesSymbols};

use p9_abs::{Abs, Body, DataPiece, Operand, TextDef};

fn is_operand_within(count: usize, operand: Operand) -> bool
    ensures { IsTrue result ↔ IsWithin count (named_by_operand operand) }
{
    match operand {
        Operand::AddrSB(symbol, _) | Operand::MemSB(symbol, _) | Operand::Func(symbol) => {
            (symbol as usize) < count
        }
        _ => true,
    }
}

fn is_piece_within(count: usize, piece: &DataPiece) -> bool
    ensures { IsTrue result ↔ IsWithin count (named_by_piece piece.now) }
{
    match piece {
        DataPiece::Raw(_) => true,
        DataPiece::Address { symbol, .. } => (*symbol as usize) < count,
    }
}

fn are_operands_within(count: usize, operands: &[Operand]) -> bool
    ensures { IsTrue result ↔ All (λ o. IsWithin count (named_by_operand o)) operands.now }
{
    operands.iter().all(|o| is_operand_within(count, *o))
}

#[tactic(auto, unfolding(crate::specs::Rules::NamesSymbols))]
fn names_symbols(count: usize, a: &Abs) -> bool
    ensures { IsTrue result ↔ NamesSymbols count a.now }
{
    are_operands_within(count, &a.operands.list)
}

fn is_code_within(count: usize, code: &[Abs]) -> bool
    ensures { IsTrue result ↔ All (NamesSymbols count) code.now }
{
    code.iter().all(|a| names_symbols(count, a))
}

fn is_text_within(count: usize, def: &TextDef) -> bool
    ensures { IsTrue result ↔ All (NamesSymbols count) def.now.code }
{
    is_code_within(count, &def.code.list)
}

fn are_pieces_within(count: usize, pieces: &[DataPiece]) -> bool
    ensures { IsTrue result ↔ All (λ p. IsWithin count (named_by_piece p)) pieces.now }
{
    pieces.iter().all(|p| is_piece_within(count, p))
}

/// Whether each symbol that the body names is one of so many.

pub(crate) fn names_within(count: usize, body: &Body) -> bool
    ensures { IsTrue result ↔ NamesWithin count body.now }
{
    match body {
        Body::Text(def) => is_text_within(count, def),
        Body::Data(pieces) => are_pieces_within(count, &pieces.list),
        _ => true,
    }
}
