// Instructions with the pieces of addresses that their lines name.
ghost use Rattle.std.specs.Prelude.{◌≡◌, ◌<◌, ◌^◌};
ghost use Rattle.p9_base.specs.Words.{word_sum};
ghost use Rattle.p9_r3k.specs.Straight.{with_imm, with_index, with_piece, with_value, filled};
ghost use Rattle.p9_image.specs.Text.{address_at, addresses, distance, jump_index, sent_to, with_target, patched};

use p9_r3k::{Inst, Line, Part, Value};
use std::marker::Model;

/// The addresses of a module's symbols.
#[derive(Drop)]
pub struct SymbolAddresses {
    pub list: Vec<u32>,
}

impl Model for SymbolAddresses {
    ghost use Rattle.std.specs.Prelude.{List, ℕ};

    ghost Value = { List ℕ };

    ghost view = { λ a. a.list.items };
}

/// The address of a symbol of a module, or 0 of what has none.
pub fn address(tables: &[SymbolAddresses], unit: u32, symbol: u32) -> u32
    ensures { result ≡ address_at tables.now unit symbol }
{
    match tables.get(unit as usize) {
        None => 0,
        Some(table) => table.list.get(symbol as usize).copied().unwrap_or(0),
    }
}

// The instruction with another half word.
fn with_half(inst: Inst, imm: u32) -> Inst
    ensures { result ≡ with_imm inst imm }
{
    match inst {
        Inst::Addi { rs, rt, .. } => Inst::Addi { rs, rt, imm },
        Inst::Addiu { rs, rt, .. } => Inst::Addiu { rs, rt, imm },
        Inst::Slti { rs, rt, .. } => Inst::Slti { rs, rt, imm },
        Inst::Sltiu { rs, rt, .. } => Inst::Sltiu { rs, rt, imm },
        Inst::Andi { rs, rt, .. } => Inst::Andi { rs, rt, imm },
        Inst::Ori { rs, rt, .. } => Inst::Ori { rs, rt, imm },
        Inst::Xori { rs, rt, .. } => Inst::Xori { rs, rt, imm },
        Inst::Lui { rt, .. } => Inst::Lui { rt, imm },
        Inst::Lb { rs, rt, .. } => Inst::Lb { rs, rt, imm },
        Inst::Lh { rs, rt, .. } => Inst::Lh { rs, rt, imm },
        Inst::Lw { rs, rt, .. } => Inst::Lw { rs, rt, imm },
        Inst::Lbu { rs, rt, .. } => Inst::Lbu { rs, rt, imm },
        Inst::Lhu { rs, rt, .. } => Inst::Lhu { rs, rt, imm },
        Inst::Sb { rs, rt, .. } => Inst::Sb { rs, rt, imm },
        Inst::Sh { rs, rt, .. } => Inst::Sh { rs, rt, imm },
        Inst::Sw { rs, rt, .. } => Inst::Sw { rs, rt, imm },
        _ => inst,
    }
}

// The jump with another place.
fn with_place(inst: Inst, index: u32) -> Inst
    ensures { result ≡ with_index inst index }
{
    match inst {
        Inst::J { .. } => Inst::J { index },
        Inst::Jal { .. } => Inst::Jal { index },
        _ => inst,
    }
}

fn with_part(part: Part, address: u32, inst: Inst) -> Inst
    ensures { result ≡ with_piece part address inst }
{
    match part {
        Part::High => with_half(inst, address / 0x1_0000),
        Part::Low => with_half(inst, address % 0x1_0000),
        Part::Jump => with_place(inst, address / 4 % 0x400_0000),
    }
}

fn with_address(tables: &[SymbolAddresses], value: Option<Value>, inst: Inst) -> Inst
    ensures { result ≡ with_value (addresses tables.now) value inst }
{
    match value {
        None => inst,
        Some(value) => {
            let base = address(tables, value.module, value.symbol);
            with_part(value.part, base.wrapping_add(value.offset), inst)
        }
    }
}

// How far a line lies from the one behind a branch, as the branch's half word.
fn distance(number: u32, target: u32) -> u32
    ensures { result ≡ distance number target }
{
    ((u64::from(target) + 0x1_0000_0000 - (u64::from(number) + 1)) % 0x1_0000) as u32
}

// The word of its region that a line is, as a jump's place.
fn jump_index(target: u32) -> u32
    ensures { result ≡ jump_index target }
{
    ((u64::from(target) + 0x408) % 0x400_0000) as u32
}

// The branch or jump of a line, sent to another.
fn sent_to(number: u32, target: u32, inst: Inst) -> Inst
    ensures { result ≡ sent_to number target inst }
{
    let imm = distance(number, target);
    let index = jump_index(target);
    match inst {
        Inst::J { .. } => Inst::J { index },
        Inst::Jal { .. } => Inst::Jal { index },
        Inst::Beq { rs, rt, .. } => Inst::Beq { rs, rt, imm },
        Inst::Bne { rs, rt, .. } => Inst::Bne { rs, rt, imm },
        Inst::Blez { rs, .. } => Inst::Blez { rs, imm },
        Inst::Bgtz { rs, .. } => Inst::Bgtz { rs, imm },
        Inst::Bltz { rs, .. } => Inst::Bltz { rs, imm },
        Inst::Bgez { rs, .. } => Inst::Bgez { rs, imm },
        Inst::Bltzal { rs, .. } => Inst::Bltzal { rs, imm },
        Inst::Bgezal { rs, .. } => Inst::Bgezal { rs, imm },
        _ => inst,
    }
}

/// The instruction of a line, with the piece of an address that it names and the way to its target.
pub(crate) fn patched(tables: &[SymbolAddresses], number: u32, line: &Line) -> Inst
    ensures { result ≡ patched tables.now number line.now }
{
    let inst = with_address(tables, line.value, line.inst);
    match line.target {
        None => inst,
        Some(target) => sent_to(number, target, inst),
    }
}
