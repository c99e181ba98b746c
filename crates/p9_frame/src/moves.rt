// Moves between homes and the frame.

ghost use Rattle.std.specs.Prelude.{◌≡◌, ◌+◌, ◌++◌, ◌∷◌, ◌<◌, [], ℕ, Bool, Some, None, option_map, IfOk, OnOk, length, slice_index, if◌then◌else◌};
ghost use Rattle.p9_abs.specs.Automatics.{form_at, is_automatic, writes, writes_at, call_at, calls_in, holds_of};
ghost use Rattle.p9_abs.specs.Framed.{move_of_size, shift_operands};
ghost use Rattle.p9_homes.specs.Tables.{cell};
ghost use Rattle.p9_frame.specs.Plans.{kept_for, shift_of, held, at_call};
ghost use Rattle.p9_frame.specs.Emitted.{move_of, moves_of};

use p9_abs::{Abs, Form, Location, Op, Operand, Operands, decoded};
use p9_base::NoMemory;
use p9_homes::{Table, holder};
use std::alloc::Global;

/// How many registers are homes.
const HOMES: u8 = 12;

fn form_at(code: &[Abs], i: u32) -> Option<Form>
    ensures { result ≡ form_at code.now i }
{
    match code.get(i as usize) {
        Some(a) => decoded(a),
        None => None,
    }
}

fn calls(form: Form) -> bool
    ensures { result ≡ calls_in form }
{
    matches!(form, Form::Call(_) | Form::CallRegister(_))
}

/// Whether a call stands there.
pub(crate) fn is_call(code: &[Abs], i: u32) -> bool
    ensures { result ≡ call_at code.now i }
{
    match form_at(code, i) {
        Some(form) => calls(form),
        None => false,
    }
}

fn is_automatic(v: u32, location: Location) -> bool
    ensures { result ≡ is_automatic v location }
{
    match location {
        Location::Automatic(w, _) => w == v,
        _ => false,
    }
}

fn writes(v: u32, form: Form) -> bool
    ensures { result ≡ writes v form }
{
    match form {
        Form::Store(_, _, to) => is_automatic(v, to),
        _ => false,
    }
}

fn writes_at(code: &[Abs], v: u32, i: u32) -> bool
    ensures { result ≡ writes_at code.now v i }
{
    match form_at(code, i) {
        Some(form) => writes(v, form),
        None => false,
    }
}

// What a home that has this automatic keeps before instruction i.
fn kept_for(code: &[Abs], i: u32, holder: Option<u32>) -> Option<u32>
    ensures { result ≡ kept_for code.now i holder }
{
    match holder {
        None => None,
        Some(v) => { if writes_at(code, v, i) { None } else { Some(v) } }
    }
}

fn size_of_shift(kept: Option<u32>) -> u64
    ensures value { (loads : Bool) (g : ℕ) → result ≡ length (shift_of loads g kept) }
    ensures bound { result < 2 }
{
    match kept {
        None => 0,
        Some(_) => 1,
    }
}

/// How many moves there are before instruction i.
pub(crate) fn held_count(code: &[Abs], table: &Table, i: u32) -> u64
    ensures value { (loads : Bool) → result ≡ length (held code.now table.now loads i 12) }
    ensures bound { result < 13 }
{
    let mut count = 0;
    for g in 0..HOMES {
        count += size_of_shift(kept_for(code, i, holder(table, i, g)));
    }
    count
}

fn op_of_size(size: u32) -> Op
    ensures { result ≡ move_of_size size }
{
    match size {
        1 => Op::MovB,
        2 => Op::MovH,
        _ => Op::MovW,
    }
}

fn shift_operands(
    alloc: Global,
    loads: bool,
    memory: Operand,
    home: Operand,
) -> Result<Operands, NoMemory>
    ensures { IfOk result (λ operands. operands ≡ shift_operands loads memory home) }
{
    let pair = if loads {
        [memory, home]
    } else {
        [home, memory]
    };
    let list = pair.to_vec(alloc)?;
    Ok(Operands { list })
}

fn move_of(alloc: Global, size: u32, offset: u32, home: u8, loads: bool) -> Result<Abs, NoMemory>
    ensures { IfOk result (λ a. a ≡ move_of size offset home loads) }
{
    let operands = shift_operands(
        alloc,
        loads,
        Operand::MemReg(29, offset),
        Operand::Reg(home),
    )?;
    Ok(Abs {
        op: op_of_size(size),
        operands,
    })
}

/// The number at an index, or 0.
pub(crate) fn number_at(list: &[u32], i: u32) -> u32
    ensures { result ≡ slice_index list.now i }
{
    match list.get(i as usize) {
        Some(number) => *number,
        None => 0,
    }
}

// Adds the move of what home g keeps.
fn push_shift(
    alloc: Global,
    sizes: &[u32],
    offsets: &[u32],
    loads: bool,
    g: u8,
    kept: Option<u32>,
    out: &mut Vec<Abs>,
) -> Result<(), NoMemory>
    requires { g < 12 }
    ensures { OnOk result (out.new.items ≡ out.old.items ++ moves_of sizes.now offsets.now (shift_of loads g kept)) }
{
    if let Some(v) = kept {
        let size = number_at(sizes, v);
        let offset = number_at(offsets, v);
        let a = move_of(alloc, size, offset, 9 + g, loads)?;
        out.push(a)?;
    }
    Ok(())
}

/// Adds the moves of all that homes keep before instruction i, where they are asked for.
pub(crate) fn push_held(
    alloc: Global,
    code: &[Abs],
    sizes: &[u32],
    table: &Table,
    offsets: &[u32],
    loads: bool,
    i: u32,
    out: &mut Vec<Abs>,
) -> Result<(), NoMemory>
    ensures { OnOk result (out.new.items ≡ out.old.items ++ moves_of sizes.now offsets.now (held code.now table.now loads i 12)) }
{
    for g in 0..HOMES {
        let kept = kept_for(code, i, holder(table, i, g));
        push_shift(alloc, sizes, offsets, loads, g, kept, out)?;
    }
    Ok(())
}

/// The same at call c.
pub(crate) fn push_at_call(
    alloc: Global,
    code: &[Abs],
    sizes: &[u32],
    table: &Table,
    offsets: &[u32],
    loads: bool,
    c: u32,
    i: u32,
    out: &mut Vec<Abs>,
) -> Result<(), NoMemory>
    ensures { OnOk result (out.new.items ≡ out.old.items ++ moves_of sizes.now offsets.now (at_call code.now c (held code.now table.now loads i 12))) }
{
    if is_call(code, c) {
        push_held(alloc, code, sizes, table, offsets, loads, i, out)?;
    }
    Ok(())
}
