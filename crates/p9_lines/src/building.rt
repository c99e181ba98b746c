// The lines of instructions, entries and the start.
ghost use Rattle.std.specs.Prelude.{◌≡◌, ◌+◌, ◌%◌, ◌^◌, ◌++◌, ◌∷◌, [], OnOk};
ghost use Rattle.p9_r3k.specs.declared.inst.Inst.TheVariants.{Or, Andi, Sll, Sra};
ghost use Rattle.p9_lines.specs.Insts.{calculation};
ghost use Rattle.p9_lines.specs.FormLines.{plain, constant_lines, access_lines, move_lines, shift_lines, entry_lines, return_lines, lines_of, start_lines};

use crate::adding::{
    STACK, TEMPORARY, add, add_base, add_branch, add_constant, add_jump, add_lower, add_near,
    add_raise, add_static, add_stop, plain,
};
use crate::choosing::{
    calculation, get_special, other_pair, other_sign, pair_branch, product, set_special,
    sign_branch,
};
use crate::parts::{Access, Setting, Way};
use p9_abs::{Calculation, Form, Location, Width};
use p9_base::NoMemory;
use p9_r3k::{Inst, Line};

/// Where a return address is kept, from R29 on.
const KEPT: u32 = 0;

// An offset from R29 as it stands in a function, modulo 2^32.
fn from_stack(setting: &Setting, more: u32, offset: u32) -> u32
    ensures { result ≡ (setting.now.taken + more + offset) % 2 ^ 32 }
{
    ((u64::from(setting.taken) + u64::from(more) + u64::from(offset)) % 0x1_0000_0000) as u32
}

fn add_access(
    lines: &mut Vec<Line>,
    setting: &Setting,
    access: Access,
    at: Location,
) -> Result<(), NoMemory>
    ensures { OnOk result (lines.new.items ≡ lines.old.items ++ access_lines setting.now access at) }
{
    match at {
        Location::Static(symbol, offset) => {
            add_static(lines, access, setting.unit, symbol, offset)
        }
        Location::Argument(offset) => {
            add_near(lines, access, STACK, from_stack(setting, 4, offset))
        }
        Location::Frame(offset) => add_near(lines, access, STACK, from_stack(setting, 0, offset)),
        Location::Based(base, offset) => add_near(lines, access, u32::from(base), offset),
        Location::Automatic(_, _) => add_stop(lines),
    }
}

fn add_copy(lines: &mut Vec<Line>, from: u8, to: u8) -> Result<(), NoMemory>
    ensures { OnOk result (lines.new.items ≡ lines.old.items ++ plain (Or from 0 to) ∷ []) }
{
    let copy = plain(Inst::Or {
        rs: u32::from(from),
        rt: 0,
        rd: u32::from(to),
    });
    add(lines, &[copy])
}

// Keeps the low bits that a mask has.
fn add_masked(lines: &mut Vec<Line>, from: u8, to: u8, mask: u32) -> Result<(), NoMemory>
    ensures { OnOk result (lines.new.items ≡ lines.old.items ++ plain (Andi from to mask) ∷ []) }
{
    let masked = plain(Inst::Andi {
        rs: u32::from(from),
        rt: u32::from(to),
        imm: mask,
    });
    add(lines, &[masked])
}

// Shifts up and down again, so that the sign fills the upper bits.
fn add_signed(lines: &mut Vec<Line>, from: u8, to: u8, by: u32) -> Result<(), NoMemory>
    ensures { OnOk result (lines.new.items ≡ lines.old.items ++ plain (Sll from 28 by) ∷ plain (Sra 28 to by) ∷ []) }
{
    let up = plain(Inst::Sll {
        rt: u32::from(from),
        rd: TEMPORARY,
        sh: by,
    });
    let down = plain(Inst::Sra {
        rt: TEMPORARY,
        rd: u32::from(to),
        sh: by,
    });
    add(lines, &[up, down])
}

// A move from a register to another, by way of the upper bits where they get the sign.
fn add_move(lines: &mut Vec<Line>, width: Width, from: u8, to: u8) -> Result<(), NoMemory>
    ensures { OnOk result (lines.new.items ≡ lines.old.items ++ move_lines width from to) }
{
    match width {
        Width::Word => add_copy(lines, from, to),
        Width::SignedHalf => add_signed(lines, from, to, 16),
        Width::UnsignedHalf => add_masked(lines, from, to, 0xffff),
        Width::SignedByte => add_signed(lines, from, to, 24),
        Width::UnsignedByte => add_masked(lines, from, to, 0xff),
    }
}

fn add_shift(
    lines: &mut Vec<Line>,
    by: Calculation,
    count: u32,
    from: u8,
    to: u8,
) -> Result<(), NoMemory>
    ensures { OnOk result (lines.new.items ≡ lines.old.items ++ shift_lines by count from to) }
{
    let rt = u32::from(from);
    let rd = u32::from(to);
    let sh = count;
    match by {
        Calculation::Sll => add(lines, &[plain(Inst::Sll { rt, rd, sh })]),
        Calculation::Srl => add(lines, &[plain(Inst::Srl { rt, rd, sh })]),
        Calculation::Sra => add(lines, &[plain(Inst::Sra { rt, rd, sh })]),
        _ => add_stop(lines),
    }
}

fn add_return(lines: &mut Vec<Line>, setting: &Setting) -> Result<(), NoMemory>
    ensures { OnOk result (lines.new.items ≡ lines.old.items ++ return_lines setting.now) }
{
    if !setting.keeps {
        return add(lines, &[plain(Inst::Jr { rs: 31 })]);
    }
    let kept = plain(Inst::Lw {
        rs: STACK,
        rt: 31,
        imm: KEPT,
    });
    add(lines, &[kept])?;
    add_raise(lines, setting.taken)?;
    add(lines, &[plain(Inst::Jr { rs: 31 })])
}

fn add_calculation(
    lines: &mut Vec<Line>,
    by: Calculation,
    constant: u32,
    b: u8,
    c: u8,
) -> Result<(), NoMemory>
    ensures { OnOk result (lines.new.items ≡ lines.old.items ++ (constant_lines constant 28 ++ plain (calculation by 28 b c) ∷ [])) }
{
    add_constant(lines, constant, TEMPORARY)?;
    let inst = calculation(by, TEMPORARY, u32::from(b), u32::from(c));
    add(lines, &[plain(inst)])
}

/// Adds the lines of an instruction, by its form. A location that is an automatic, which no function
/// with a frame has, and a call of what is no function become BREAK.
pub fn add_lines(
    lines: &mut Vec<Line>,
    setting: &Setting,
    way: &Way,
    form: Form,
) -> Result<(), NoMemory>
    ensures { OnOk result (lines.new.items ≡ lines.old.items ++ lines_of setting.now way.now form) }
{
    match form {
        Form::Move(width, from, to) => add_move(lines, width, from, to),
        Form::SetConstant(word, to) => add_constant(lines, word, u32::from(to)),
        Form::SetAddress(at, to) => add_access(lines, setting, Access::Address(to), at),
        Form::Load(width, at, to) => add_access(lines, setting, Access::Load(width, to), at),
        Form::Store(width, from, at) => {
            add_access(lines, setting, Access::Store(width, from), at)
        }
        Form::GetHiLo(special, to) => add(lines, &[plain(get_special(special, to))]),
        Form::SetHiLo(from, special) => add(lines, &[plain(set_special(from, special))]),
        Form::Calculate(by, a, b, c) => {
            let inst = calculation(by, u32::from(a), u32::from(b), u32::from(c));
            add(lines, &[plain(inst)])
        }
        Form::CalculateConstant(by, a, b, c) => add_calculation(lines, by, a, b, c),
        Form::ShiftConstant(by, count, from, to) => add_shift(lines, by, count, from, to),
        Form::Multiply(by, a, b) => add(lines, &[plain(product(by, a, b))]),
        Form::BranchPair(test, a, b, _) => {
            let other = pair_branch(other_pair(test), a, b);
            add_branch(lines, way, pair_branch(test, a, b), other)
        }
        Form::BranchSign(test, a, _) => {
            let other = sign_branch(other_sign(test), a);
            add_branch(lines, way, sign_branch(test, a), other)
        }
        Form::Jump(_) => add_jump(lines, Inst::J { index: 0 }, way.goal),
        Form::Call(_) => add_jump(lines, Inst::Jal { index: 0 }, way.goal),
        Form::CallRegister(a) => add(
            lines,
            &[plain(Inst::Jalr {
                rs: u32::from(a),
                rd: 31,
            })],
        ),
        Form::Return => add_return(lines, setting),
        Form::SystemCall => add(lines, &[plain(Inst::Syscall { code: 0 })]),
    }
}

/// Adds the lines of a function's entry.
pub fn add_entry(lines: &mut Vec<Line>, setting: &Setting) -> Result<(), NoMemory>
    ensures { OnOk result (lines.new.items ≡ lines.old.items ++ entry_lines setting.now) }
{
    if !setting.keeps {
        return Ok(());
    }
    add_lower(lines, setting.taken)?;
    let keeping = plain(Inst::Sw {
        rs: STACK,
        rt: 31,
        imm: KEPT,
    });
    add(lines, &[keeping])
}

/// Adds the first lines of a program, which set R30 to the address of a symbol and an offset.
pub fn add_start(lines: &mut Vec<Line>, unit: u32, symbol: u32, offset: u32) -> Result<(), NoMemory>
    ensures { OnOk result (lines.new.items ≡ lines.old.items ++ start_lines unit symbol offset) }
{
    add_base(lines, unit, symbol, offset)
}
