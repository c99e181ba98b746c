// Lines added behind others, by what they do.
ghost use Rattle.std.specs.Prelude.{◌≡◌, ◌++◌, OnOk};
ghost use Rattle.p9_lines.specs.FormLines.{plain, going_to, valued, stop, is_near, high_of, upper_of, low_of, wide_lines, constant_lines, near_lines, symbol_lines, static_lines, jump_lines, branch_lines, raise_lines, lower_lines, start_lines};

use crate::parts::{Access, Way};
use p9_base::NoMemory;
use p9_r3k::{Inst, Line, Part, Value};

/// The loader's own register.
pub(crate) const TEMPORARY: u32 = 28;
/// The stack pointer.
pub(crate) const STACK: u32 = 29;

pub(crate) fn plain(inst: Inst) -> Line
    ensures { result ≡ plain inst }
{
    Line {
        inst,
        target: None,
        value: None,
        is_target: false,
    }
}

fn going_to(inst: Inst, goal: u32) -> Line
    ensures { result ≡ going_to inst goal }
{
    Line {
        inst,
        target: Some(goal),
        value: None,
        is_target: false,
    }
}

fn valued(inst: Inst, part: Part, unit: u32, symbol: u32, offset: u32) -> Line
    ensures { result ≡ valued inst part unit symbol offset }
{
    Line {
        inst,
        target: None,
        value: Some(Value {
            part,
            module: unit,
            symbol,
            offset,
        }),
        is_target: false,
    }
}

/// Adds lines.
pub(crate) fn add(lines: &mut Vec<Line>, more: &[Line]) -> Result<(), NoMemory>
    ensures { OnOk result (lines.new.items ≡ lines.old.items ++ more.now) }
{
    lines.extend_from_slice(more)?;
    Ok(())
}

pub(crate) fn add_stop(lines: &mut Vec<Line>) -> Result<(), NoMemory>
    ensures { OnOk result (lines.new.items ≡ lines.old.items ++ stop) }
{
    add(lines, &[plain(Inst::Break { code: 0 })])
}

// Whether a word is the sign extension of its low half.
fn is_near(word: u32) -> bool
    ensures { result ≡ is_near word }
{
    word.wrapping_add(0x8000) < 0x1_0000
}

// The half that gives a word, with the sign extension of the low half added.
fn high_of(word: u32) -> u32
    ensures { result ≡ high_of word }
{
    ((u64::from(word) + 0x8000) / 0x1_0000 % 0x1_0000) as u32
}

fn upper_of(word: u32) -> u32
    ensures { result ≡ upper_of word }
{
    word / 0x1_0000
}

fn low_of(word: u32) -> u32
    ensures { result ≡ low_of word }
{
    word % 0x1_0000
}

// Puts a word into a register by its halves.
fn add_wide(lines: &mut Vec<Line>, word: u32, to: u32) -> Result<(), NoMemory>
    ensures { OnOk result (lines.new.items ≡ lines.old.items ++ wide_lines word to) }
{
    let low = low_of(word);
    let imm = upper_of(word);
    if low == 0 {
        return add(lines, &[plain(Inst::Lui { rt: to, imm })]);
    }
    let upper = plain(Inst::Lui { rt: TEMPORARY, imm });
    let lower = plain(Inst::Ori {
        rs: TEMPORARY,
        rt: to,
        imm: low,
    });
    add(lines, &[upper, lower])
}

/// Puts a word into a register.
pub(crate) fn add_constant(lines: &mut Vec<Line>, word: u32, to: u32) -> Result<(), NoMemory>
    ensures { OnOk result (lines.new.items ≡ lines.old.items ++ constant_lines word to) }
{
    if is_near(word) {
        let imm = low_of(word);
        return add(lines, &[plain(Inst::Addiu { rs: 0, rt: to, imm })]);
    }
    if word < 0x1_0000 {
        let half = plain(Inst::Ori {
            rs: 0,
            rt: to,
            imm: word,
        });
        return add(lines, &[half]);
    }
    add_wide(lines, word, to)
}

/// An access at a register's value and an offset.
pub(crate) fn add_near(
    lines: &mut Vec<Line>,
    access: Access,
    base: u32,
    offset: u32,
) -> Result<(), NoMemory>
    ensures { OnOk result (lines.new.items ≡ lines.old.items ++ near_lines access base offset) }
{
    let low = low_of(offset);
    if is_near(offset) {
        return add(lines, &[plain(access.inst(base, low))]);
    }
    let upper = plain(Inst::Lui {
        rt: TEMPORARY,
        imm: high_of(offset),
    });
    let sum = plain(Inst::Addu {
        rs: base,
        rt: TEMPORARY,
        rd: TEMPORARY,
    });
    add(lines, &[upper, sum, plain(access.inst(TEMPORARY, low))])
}

/// Puts the address of a symbol and an offset into a register.
pub(crate) fn add_symbol(
    lines: &mut Vec<Line>,
    unit: u32,
    symbol: u32,
    offset: u32,
    to: u32,
) -> Result<(), NoMemory>
    ensures { OnOk result (lines.new.items ≡ lines.old.items ++ symbol_lines unit symbol offset to) }
{
    let upper = Inst::Lui {
        rt: TEMPORARY,
        imm: 0,
    };
    let lower = Inst::Ori {
        rs: TEMPORARY,
        rt: to,
        imm: 0,
    };
    let upper = valued(upper, Part::High, unit, symbol, offset);
    let lower = valued(lower, Part::Low, unit, symbol, offset);
    add(lines, &[upper, lower])
}

/// An access at a symbol and an offset.
pub(crate) fn add_static(
    lines: &mut Vec<Line>,
    access: Access,
    unit: u32,
    symbol: u32,
    offset: u32,
) -> Result<(), NoMemory>
    ensures { OnOk result (lines.new.items ≡ lines.old.items ++ static_lines access unit symbol offset) }
{
    match access {
        Access::Address(to) => add_symbol(lines, unit, symbol, offset, u32::from(to)),
        Access::Load(_, _) | Access::Store(_, _) => {
            add_symbol(lines, unit, symbol, offset, TEMPORARY)?;
            add(lines, &[plain(access.inst(TEMPORARY, 0))])
        }
    }
}

/// A jump or branch to a goal, or a stop where there is none.
pub(crate) fn add_jump(lines: &mut Vec<Line>, inst: Inst, goal: Option<u32>) -> Result<(), NoMemory>
    ensures { OnOk result (lines.new.items ≡ lines.old.items ++ jump_lines inst goal) }
{
    match goal {
        None => add_stop(lines),
        Some(goal) => add(lines, &[going_to(inst, goal)]),
    }
}

/// A branch where the goal is within its reach, else the other branch over a jump.
pub(crate) fn add_branch(
    lines: &mut Vec<Line>,
    way: &Way,
    branch: Inst,
    other: Inst,
) -> Result<(), NoMemory>
    ensures { OnOk result (lines.new.items ≡ lines.old.items ++ branch_lines way.now branch other) }
{
    if way.short {
        return add_jump(lines, branch, way.goal);
    }
    add(lines, &[going_to(other, way.next)])?;
    add_jump(lines, Inst::J { index: 0 }, way.goal)
}

/// Raises R29.
pub(crate) fn add_raise(lines: &mut Vec<Line>, count: u32) -> Result<(), NoMemory>
    ensures { OnOk result (lines.new.items ≡ lines.old.items ++ raise_lines count) }
{
    if count < 0x8000 {
        let sum = plain(Inst::Addiu {
            rs: STACK,
            rt: STACK,
            imm: count,
        });
        return add(lines, &[sum]);
    }
    add_constant(lines, count, TEMPORARY)?;
    let sum = plain(Inst::Addu {
        rs: STACK,
        rt: TEMPORARY,
        rd: STACK,
    });
    add(lines, &[sum])
}

/// Lowers R29.
pub(crate) fn add_lower(lines: &mut Vec<Line>, count: u32) -> Result<(), NoMemory>
    ensures { OnOk result (lines.new.items ≡ lines.old.items ++ lower_lines count) }
{
    if count < 0x8000 {
        let sum = plain(Inst::Addiu {
            rs: STACK,
            rt: STACK,
            imm: (0x1_0000 - count) % 0x1_0000,
        });
        return add(lines, &[sum]);
    }
    add_constant(lines, count, TEMPORARY)?;
    let difference = plain(Inst::Subu {
        rs: STACK,
        rt: TEMPORARY,
        rd: STACK,
    });
    add(lines, &[difference])
}

/// The start of a program: R30 gets the address of a symbol and an offset.
pub(crate) fn add_base(
    lines: &mut Vec<Line>,
    unit: u32,
    symbol: u32,
    offset: u32,
) -> Result<(), NoMemory>
    ensures { OnOk result (lines.new.items ≡ lines.old.items ++ start_lines unit symbol offset) }
{
    let upper = Inst::Lui { rt: 30, imm: 0 };
    let lower = Inst::Ori {
        rs: 30,
        rt: 30,
        imm: 0,
    };
    let upper = valued(upper, Part::High, unit, symbol, offset);
    let lower = valued(lower, Part::Low, unit, symbol, offset);
    add(lines, &[upper, lower])
}
