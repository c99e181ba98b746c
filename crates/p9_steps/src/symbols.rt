// What a field makes of a place in a symbol.
ghost use Rattle.std.specs.Prelude.{◌≡◌, ◌+◌, ◌-◌, ◌<◌, ◌^◌, [], length, nat_lt, IfOk};
ghost use Rattle.p9_abs.specs.Modules.{pieces_size};
ghost use Rattle.p9_object.specs.Fields.{Word};
ghost use Rattle.p9_object.specs.Bytes.{width_bytes, piece_width, symbol_width, instruction_width};
ghost use Rattle.p9_object.specs.Machine.{symbol_step, behind_instruction, behind_piece, Whole, AtTotal, AtPieces};
ghost use Rattle.p9_instr.specs.Places.{instruction_place, instruction_turn};
ghost use Rattle.p9_steps.specs.Places.{head, piece_place, piece_turn, code_place, data_place, symbol_place, symbol_turn, symbol_read};

use crate::heads::{
    binding_step, frame_step, kind_step, name_length_step, name_step, signature_length_step,
    signature_step, size_step, symbol_with,
};
use crate::pieces::{piece_size, piece_step};
use crate::places::{
    CodePart, DataPart, Found, Head, PiecePlace, PieceTurn, SymbolPlace, SymbolTurn,
};
use p9_abs::{Abs, Body, Code, DataPiece, Pieces, TextDef};
use p9_base::NoMemory;
use p9_instr::{InstructionPlace, InstructionTurn, Limits, byte, half, instruction_step, word};
use std::alloc::Global;

// The greatest size of an object.
const LARGEST: usize = 16777216;

// Whether another comes behind the next, of so many.
fn is_more(done: usize, total: u32) -> bool
    requires { done < 2 ^ 63 }
    ensures { result ≡ nat_lt (done + 1) total }
{
    done + 1 < total as usize
}

fn total_step(alloc: Global, of: Head, frame: u32, total: u32) -> SymbolTurn
    ensures { symbol_turn result ≡ symbol_step 0 [] (AtTotal (head of) frame) (Word total) }
{
    if total > 0 {
        SymbolTurn::Stay(SymbolPlace::Code(CodePart {
            head: of,
            frame,
            total,
            before: Code {
                list: Vec::new(alloc),
            },
            place: InstructionPlace::Operation,
        }))
    } else {
        SymbolTurn::Bad
    }
}

fn behind_instruction(
    of: Head,
    frame: u32,
    total: u32,
    before: Code,
    turn: InstructionTurn,
) -> Result<SymbolTurn, NoMemory>
    ensures { IfOk result (λ t.
        symbol_turn t ≡ behind_instruction (head of) frame total before (instruction_turn turn)) }
{
    match turn {
        InstructionTurn::Bad => Ok(SymbolTurn::Bad),
        InstructionTurn::Stay(place) => Ok(SymbolTurn::Stay(SymbolPlace::Code(CodePart {
            head: of,
            frame,
            total,
            before,
            place,
        }))),
        InstructionTurn::Whole(a) => with_instruction(of, frame, total, before, a),
    }
}

fn with_instruction(
    of: Head,
    frame: u32,
    total: u32,
    before: Code,
    a: Abs,
) -> Result<SymbolTurn, NoMemory>
    ensures { IfOk result (λ t.
        symbol_turn t ≡ behind_instruction (head of) frame total before (Whole a)) }
{
    let more = is_more(before.list.len(), total);
    let mut list = before.list;
    list.push(a)?;
    let code = Code { list };
    if more {
        Ok(SymbolTurn::Stay(SymbolPlace::Code(CodePart {
            head: of,
            frame,
            total,
            before: code,
            place: InstructionPlace::Operation,
        })))
    } else {
        let def = TextDef { frame, code };
        Ok(SymbolTurn::Whole(symbol_with(of, Body::Text(def))))
    }
}

fn code_step(
    alloc: Global,
    symbols: u32,
    part: CodePart,
    field: &[u8],
) -> Result<SymbolTurn, NoMemory>
    requires { length field.now ≡ width_bytes (instruction_width (instruction_place part.place)) }
    ensures { IfOk result (λ turn.
        symbol_turn turn ≡ symbol_read symbols [] (code_place part) field.now) }
{
    let CodePart {
        head,
        frame,
        total,
        before,
        place,
    } = part;
    let limits = Limits {
        symbols,
        frame,
        total,
    };
    let more = is_more(before.list.len(), total);
    let turn = instruction_step(alloc, limits, more, place, field)?;
    behind_instruction(head, frame, total, before, turn)
}

fn pieces_step(alloc: Global, of: Head, total: u32) -> SymbolTurn
    ensures { symbol_turn result ≡ symbol_step 0 [] (AtPieces (head of)) (Word total) }
{
    if total > 0 && total <= 4194304 {
        SymbolTurn::Stay(SymbolPlace::Data(DataPart {
            head: of,
            total,
            left: LARGEST,
            before: Pieces {
                list: Vec::new(alloc),
            },
            place: PiecePlace::Kind,
        }))
    } else {
        SymbolTurn::Bad
    }
}

fn with_piece(
    of: Head,
    total: u32,
    left: usize,
    before: Pieces,
    piece: DataPiece,
) -> Result<SymbolTurn, NoMemory>
    requires { left ≡ 16777216 - pieces_size before }
    ensures { IfOk result (λ t. symbol_turn t ≡ behind_piece (head of) total before (Whole piece)) }
{
    let more = is_more(before.list.len(), total);
    let left = left.saturating_sub(piece_size(&piece));
    let mut list = before.list;
    list.push(piece)?;
    let pieces = Pieces { list };
    if more {
        Ok(SymbolTurn::Stay(SymbolPlace::Data(DataPart {
            head: of,
            total,
            left,
            before: pieces,
            place: PiecePlace::Kind,
        })))
    } else {
        Ok(SymbolTurn::Whole(symbol_with(of, Body::Data(pieces))))
    }
}

fn behind_piece(
    of: Head,
    total: u32,
    left: usize,
    before: Pieces,
    turn: PieceTurn,
) -> Result<SymbolTurn, NoMemory>
    requires { left ≡ 16777216 - pieces_size before }
    ensures { IfOk result (λ t.
        symbol_turn t ≡ behind_piece (head of) total before (piece_turn turn)) }
{
    match turn {
        PieceTurn::Bad => Ok(SymbolTurn::Bad),
        PieceTurn::Stay(place) => Ok(SymbolTurn::Stay(SymbolPlace::Data(DataPart {
            head: of,
            total,
            left,
            before,
            place,
        }))),
        PieceTurn::Whole(piece) => with_piece(of, total, left, before, piece),
    }
}

fn data_step(
    alloc: Global,
    symbols: u32,
    part: DataPart,
    field: &[u8],
) -> Result<SymbolTurn, NoMemory>
    requires { length field.now ≡ width_bytes (piece_width (piece_place part.place)) }
    ensures { IfOk result (λ turn.
        symbol_turn turn ≡ symbol_read symbols [] (data_place part) field.now) }
{
    let DataPart {
        head,
        total,
        left,
        before,
        place,
    } = part;
    let behind = (total as usize).saturating_sub(before.list.len() + 1);
    let turn = piece_step(alloc, symbols, &before.list, left, behind, place, field)?;
    behind_piece(head, total, left, before, turn)
}

/// What the bytes of a field make of the place in a symbol, one of so many, behind those found.
pub(crate) fn symbol_step(
    alloc: Global,
    symbols: u32,
    found: &Found,
    place: SymbolPlace,
    field: &[u8],
) -> Result<SymbolTurn, NoMemory>
    requires { length field.now ≡ width_bytes (symbol_width (symbol_place place)) }
    ensures { IfOk result (λ turn.
        symbol_turn turn ≡ symbol_read symbols found.now.symbols (symbol_place place) field.now) }
{
    match place {
        SymbolPlace::Binding => Ok(binding_step(byte(field))),
        SymbolPlace::Kind(local) => Ok(kind_step(local, byte(field))),
        SymbolPlace::NameLength(local, kind) => Ok(name_length_step(local, kind, half(field))),
        SymbolPlace::Name(local, kind, _) => name_step(alloc, found, local, kind, field),
        SymbolPlace::SignatureLength(local, kind, name) => {
            Ok(signature_length_step(alloc, local, kind, name, word(field)))
        }
        SymbolPlace::Signature(local, kind, name, _) => {
            signature_step(alloc, local, kind, name, field)
        }
        SymbolPlace::Frame(head) => Ok(frame_step(head, word(field))),
        SymbolPlace::Total(head, frame) => Ok(total_step(alloc, head, frame, word(field))),
        SymbolPlace::Code(part) => code_step(alloc, symbols, part, field),
        SymbolPlace::Pieces(head) => Ok(pieces_step(alloc, head, word(field))),
        SymbolPlace::Data(part) => data_step(alloc, symbols, part, field),
        SymbolPlace::Size(head) => Ok(size_step(head, word(field))),
    }
}
