// A module as the bytes of its object.
ghost use Rattle.std.specs.Prelude.{◌≡◌, ◌++◌, [], ◌∷◌, length, flat_map, IfOk, OnOk, Ok};
ghost use Rattle.p9_base.specs.Numbers.{word_bytes};
ghost use Rattle.p9_abs.specs.Forms.{op_number};
ghost use Rattle.p9_abs.specs.Validity.{IsValid};
ghost use Rattle.p9_object.specs.Fields.{half_bytes, operand_fields, instruction_fields, piece_fields, signature_fields, binding_number, kind_number, body_fields, symbol_fields, spelling};
ghost use Rattle.p9_object.specs.Bytes.{reading};
ghost use Rattle.p9_object.specs.Laws.{bytes_of, Fits};

use p9_abs::{AModule, Abs, Body, DataPiece, Op, Operand, Symbol, Symbols};
use p9_base::{Bytes, Name, NoMemory};
use std::alloc::Global;

const MAGIC: &[u8] = b"v9o\n";

const VERSION: usize = 1;

fn put_byte(out: &mut Vec<u8>, n: u8) -> Result<(), NoMemory>
    ensures { OnOk result (out.new.items ≡ out.old.items ++ n ∷ []) }
{
    out.push(n)?;
    Ok(())
}

fn put_half(out: &mut Vec<u8>, n: usize) -> Result<(), NoMemory>
    ensures { OnOk result (out.new.items ≡ out.old.items ++ half_bytes n) }
{
    let bytes = [(n / 0x100 % 0x100) as u8, (n % 0x100) as u8];
    out.extend_from_slice(&bytes)?;
    Ok(())
}

fn put_word(out: &mut Vec<u8>, n: usize) -> Result<(), NoMemory>
    ensures { OnOk result (out.new.items ≡ out.old.items ++ word_bytes n) }
{
    let bytes = [
        (n / 0x100_0000 % 0x100) as u8,
        (n / 0x1_0000 % 0x100) as u8,
        (n / 0x100 % 0x100) as u8,
        (n % 0x100) as u8,
    ];
    out.extend_from_slice(&bytes)?;
    Ok(())
}

fn put_bytes(out: &mut Vec<u8>, bytes: &[u8]) -> Result<(), NoMemory>
    ensures { OnOk result (out.new.items ≡ out.old.items ++ bytes.now) }
{
    out.extend_from_slice(bytes)?;
    Ok(())
}

// A kind and a register.
fn put_register(out: &mut Vec<u8>, kind: u8, register: u8) -> Result<(), NoMemory>
    ensures { OnOk result (out.new.items ≡ out.old.items ++ kind ∷ register ∷ []) }
{
    put_byte(out, kind)?;
    put_byte(out, register)
}

// A kind and a word.
fn put_number(out: &mut Vec<u8>, kind: u8, n: u32) -> Result<(), NoMemory>
    ensures { OnOk result (out.new.items ≡ out.old.items ++ kind ∷ word_bytes n) }
{
    put_byte(out, kind)?;
    put_word(out, n as usize)
}

// A kind, a symbol and an offset.
fn put_static(out: &mut Vec<u8>, kind: u8, symbol: u32, offset: u32) -> Result<(), NoMemory>
    ensures { OnOk result (out.new.items ≡ out.old.items ++ kind ∷ (word_bytes symbol ++ word_bytes offset)) }
{
    put_number(out, kind, symbol)?;
    put_word(out, offset as usize)
}

// A kind, a register and an offset.
fn put_based(out: &mut Vec<u8>, kind: u8, register: u8, offset: u32) -> Result<(), NoMemory>
    ensures { OnOk result (out.new.items ≡ out.old.items ++ kind ∷ register ∷ word_bytes offset) }
{
    put_register(out, kind, register)?;
    put_word(out, offset as usize)
}

fn put_operand(out: &mut Vec<u8>, operand: Operand) -> Result<(), NoMemory>
    ensures { OnOk result (out.new.items ≡ out.old.items ++ bytes_of (operand_fields operand)) }
{
    match operand {
        Operand::Reg(register) => put_register(out, 1, register),
        Operand::Const(value) => put_number(out, 2, value),
        Operand::AddrSB(symbol, offset) => put_static(out, 3, symbol, offset),
        Operand::AddrFP(offset) => put_number(out, 4, offset),
        Operand::AddrSP(offset) => put_number(out, 5, offset),
        Operand::MemSB(symbol, offset) => put_static(out, 6, symbol, offset),
        Operand::MemFP(offset) => put_number(out, 7, offset),
        Operand::MemSP(offset) => put_number(out, 8, offset),
        Operand::MemReg(register, offset) => put_based(out, 9, register, offset),
        Operand::Label(label) => put_number(out, 10, label),
        Operand::Func(symbol) => put_number(out, 11, symbol),
        Operand::Hi => put_byte(out, 12),
        Operand::Lo => put_byte(out, 13),
        Operand::Auto(_, _) | Operand::AutoAddr(_, _) => Ok(()),
    }
}

fn put_operands(out: &mut Vec<u8>, operands: &[Operand]) -> Result<(), NoMemory>
    ensures { OnOk result (out.new.items ≡ out.old.items ++ bytes_of (flat_map operand_fields operands.now)) }
{
    for operand in operands {
        put_operand(out, *operand)?;
    }
    Ok(())
}

fn op_number(op: Op) -> u8
    ensures { result ≡ op_number op }
{
    match op {
        Op::MovW => 1,
        Op::MovH => 2,
        Op::MovHU => 3,
        Op::MovB => 4,
        Op::MovBU => 5,
        Op::Add => 6,
        Op::AddU => 7,
        Op::Sub => 8,
        Op::SubU => 9,
        Op::And => 10,
        Op::Or => 11,
        Op::Xor => 12,
        Op::Nor => 13,
        Op::Sgt => 14,
        Op::SgtU => 15,
        Op::Sll => 16,
        Op::Srl => 17,
        Op::Sra => 18,
        Op::Mul => 19,
        Op::MulU => 20,
        Op::Div => 21,
        Op::DivU => 22,
        Op::Beq => 23,
        Op::Bne => 24,
        Op::Bgez => 25,
        Op::Bgtz => 26,
        Op::Blez => 27,
        Op::Bltz => 28,
        Op::Jmp => 29,
        Op::Jal => 30,
        Op::Ret => 31,
        Op::Syscall => 32,
    }
}

fn put_instruction(out: &mut Vec<u8>, a: &Abs) -> Result<(), NoMemory>
    ensures { OnOk result (out.new.items ≡ out.old.items ++ bytes_of (instruction_fields a.now)) }
{
    put_byte(out, op_number(a.op))?;
    put_operands(out, &a.operands.list)
}

fn put_code(out: &mut Vec<u8>, code: &[Abs]) -> Result<(), NoMemory>
    ensures { OnOk result (out.new.items ≡ out.old.items ++ bytes_of (flat_map instruction_fields code.now)) }
{
    for a in code {
        put_instruction(out, a)?;
    }
    Ok(())
}

fn put_piece(out: &mut Vec<u8>, piece: &DataPiece) -> Result<(), NoMemory>
    ensures { OnOk result (out.new.items ≡ out.old.items ++ bytes_of (piece_fields piece.now)) }
{
    match piece {
        DataPiece::Raw(bytes) => {
            put_byte(out, 0)?;
            put_word(out, bytes.list.len())?;
            put_bytes(out, &bytes.list)
        }
        DataPiece::Address { symbol, offset } => put_static(out, 1, *symbol, *offset),
    }
}

fn put_pieces(out: &mut Vec<u8>, pieces: &[DataPiece]) -> Result<(), NoMemory>
    ensures { OnOk result (out.new.items ≡ out.old.items ++ bytes_of (flat_map piece_fields pieces.now)) }
{
    for piece in pieces {
        put_piece(out, piece)?;
    }
    Ok(())
}

fn put_name_bytes(out: &mut Vec<u8>, name: &[u8]) -> Result<(), NoMemory>
    ensures { OnOk result (out.new.items ≡ out.old.items ++ (half_bytes (length name.now) ++ name.now)) }
{
    put_half(out, name.len())?;
    put_bytes(out, name)
}

fn put_name(out: &mut Vec<u8>, name: &Name) -> Result<(), NoMemory>
    ensures { OnOk result (out.new.items ≡ out.old.items ++ (half_bytes (length name.now) ++ name.now)) }
{
    put_name_bytes(out, &name.list)
}

fn put_signature_bytes(out: &mut Vec<u8>, sig: &[u8]) -> Result<(), NoMemory>
    ensures { OnOk result (out.new.items ≡ out.old.items ++ bytes_of (signature_fields sig.now)) }
{
    put_word(out, sig.len())?;
    put_bytes(out, sig)
}

fn put_signature(out: &mut Vec<u8>, sig: &Bytes) -> Result<(), NoMemory>
    ensures { OnOk result (out.new.items ≡ out.old.items ++ bytes_of (signature_fields sig.now)) }
{
    put_signature_bytes(out, &sig.list)
}

fn binding_number(local: bool) -> u8
    ensures { result ≡ binding_number local }
{
    if local { 1 } else { 0 }
}

fn kind_number(body: &Body) -> u8
    ensures { result ≡ kind_number body.now }
{
    match body {
        Body::Declared => 0,
        Body::Used => 1,
        Body::Text(_) => 2,
        Body::Data(_) => 3,
        Body::Common(_) => 4,
    }
}

fn put_function(out: &mut Vec<u8>, frame: u32, code: &[Abs]) -> Result<(), NoMemory>
    ensures { OnOk result (out.new.items ≡ out.old.items
        ++ (word_bytes frame ++ (word_bytes (length code.now) ++ bytes_of (flat_map instruction_fields code.now)))) }
{
    put_word(out, frame as usize)?;
    put_word(out, code.len())?;
    put_code(out, code)
}

fn put_data(out: &mut Vec<u8>, pieces: &[DataPiece]) -> Result<(), NoMemory>
    ensures { OnOk result (out.new.items ≡ out.old.items
        ++ (word_bytes (length pieces.now) ++ bytes_of (flat_map piece_fields pieces.now))) }
{
    put_word(out, pieces.len())?;
    put_pieces(out, pieces)
}

fn put_body(out: &mut Vec<u8>, body: &Body) -> Result<(), NoMemory>
    ensures { OnOk result (out.new.items ≡ out.old.items ++ bytes_of (body_fields body.now)) }
{
    match body {
        Body::Declared | Body::Used => Ok(()),
        Body::Text(def) => put_function(out, def.frame, &def.code.list),
        Body::Data(pieces) => put_data(out, &pieces.list),
        Body::Common(size) => put_word(out, *size as usize),
    }
}

fn put_symbol(out: &mut Vec<u8>, symbol: &Symbol) -> Result<(), NoMemory>
    ensures { OnOk result (out.new.items ≡ out.old.items ++ bytes_of (symbol_fields symbol.now)) }
{
    put_byte(out, binding_number(symbol.local))?;
    put_byte(out, kind_number(&symbol.body))?;
    put_name(out, &symbol.name)?;
    put_signature(out, &symbol.sig)?;
    put_body(out, &symbol.body)
}

fn put_symbols(out: &mut Vec<u8>, symbols: &[Symbol]) -> Result<(), NoMemory>
    ensures { OnOk result (out.new.items ≡ out.old.items ++ bytes_of (flat_map symbol_fields symbols.now)) }
{
    for symbol in symbols {
        put_symbol(out, symbol)?;
    }
    Ok(())
}

fn put_counted_symbols(out: &mut Vec<u8>, symbols: &[Symbol]) -> Result<(), NoMemory>
    ensures { OnOk result (out.new.items ≡ out.old.items
        ++ (word_bytes (length symbols.now) ++ bytes_of (flat_map symbol_fields symbols.now))) }
{
    put_word(out, symbols.len())?;
    put_symbols(out, symbols)
}

fn put_module(out: &mut Vec<u8>, symbols: &Symbols) -> Result<(), NoMemory>
    ensures { OnOk result (out.new.items ≡ out.old.items
        ++ (word_bytes (length symbols.now) ++ bytes_of (flat_map symbol_fields symbols.now))) }
{
    put_counted_symbols(out, &symbols.list)
}

/// The bytes of the module's object.
pub fn write_obj(alloc: Global, m: &AModule) -> Result<Bytes, NoMemory>
    requires { IsValid m.now }
    ensures spelling { IfOk result (λ bytes. bytes ≡ spelling m.now) }
    ensures again { IfOk result (λ bytes. Fits m.now → reading bytes ≡ Ok m.now) }
{
    let mut list = Vec::new(alloc);
    put_bytes(&mut list, MAGIC)?;
    put_word(&mut list, VERSION)?;
    put_module(&mut list, &m.symbols)?;
    Ok(Bytes { list })
}
