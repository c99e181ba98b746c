// The walk over all functions and instructions.
ghost use Rattle.std.specs.Prelude.{◌≡◌, ◌≤◌, ◌+◌, ◌∷◌, ◌++◌, [], OnOk, IfOk, length};
ghost use Rattle.p9_abs.specs.Forms.{decoded};
ghost use Rattle.p9_lines.specs.FormLines.{start_lines, entry_lines};
ghost use Rattle.p9_text.specs.Weights.{text_weight};
ghost use Rattle.p9_lines.specs.Weights.{words_needed};
ghost use Rattle.p9_pieces.specs.Callees.{callee_of};
ghost use Rattle.p9_pieces.specs.Functions.{scope};
ghost use Rattle.p9_pieces.specs.Pieces.{form_lines, code_pieces, function_pieces, pieces_from, joined, starts_from};

use crate::callees::Callees;
use crate::functions::Function;
use p9_abs::{Abs, decoded};
use p9_base::NoMemory;
use p9_lines::{add_entry, add_lines, add_start};
use p9_r3k::Line;
use p9_text::Routine;
use std::alloc::Global;

/// The lines of a program, and the number of the first line of each piece.
#[derive(Drop)]
pub struct Pieces {
    pub lines: Vec<Line>,
    pub starts: Vec<u32>,
}

// Begins a piece behind the lines that there are. 2^32 lines are want of memory.
fn begin(starts: &mut Vec<u32>, lines: &[Line]) -> Result<(), NoMemory>
    ensures { OnOk result (starts.new.items ≡ starts.old.items ++ length lines.now ∷ []) }
{
    let number = u32::try_from(lines.len()).map_err(|_| NoMemory)?;
    starts.push(number)?;
    Ok(())
}

// Adds the lines of an instruction, which has a number in its function.
fn add_instruction(
    lines: &mut Vec<Line>,
    function: &Function,
    number: u32,
    a: &Abs,
) -> Result<(), NoMemory>
    ensures { OnOk result (lines.new.items ≡ lines.old.items ++ form_lines (scope function.now) number (decoded a.now)) }
{
    match decoded(a) {
        None => Ok(()),
        Some(form) => {
            let way = function.way(number, form)?;
            add_lines(lines, &function.setting(), &way, form)
        }
    }
}

// Adds the pieces of a function's instructions.
fn add_code(pieces: &mut Pieces, function: &Function, code: &[Abs]) -> Result<(), NoMemory>
    ensures lines { OnOk result (pieces.new.lines.items ≡ pieces.old.lines.items ++ joined (code_pieces (scope function.now) 0 code.now)) }
    ensures starts { OnOk result (pieces.new.starts.items ≡ pieces.old.starts.items ++ starts_from (length pieces.old.lines.items) (code_pieces (scope function.now) 0 code.now)) }
{
    let mut number: u32 = 0;
    let mut rest = code;
    while let [a, after @ ..] = rest {
        begin(&mut pieces.starts, &pieces.lines)?;
        add_instruction(&mut pieces.lines, function, number, a)?;
        number = number.checked_add(1).ok_or(NoMemory)?;
        rest = after;
    }
    Ok(())
}

// Adds the pieces of a function.
fn add_function(pieces: &mut Pieces, function: &Function, code: &[Abs]) -> Result<(), NoMemory>
    ensures lines { OnOk result (pieces.new.lines.items ≡ pieces.old.lines.items ++ joined (function_pieces (scope function.now) code.now)) }
    ensures starts { OnOk result (pieces.new.starts.items ≡ pieces.old.starts.items ++ starts_from (length pieces.old.lines.items) (function_pieces (scope function.now) code.now)) }
{
    begin(&mut pieces.starts, &pieces.lines)?;
    add_entry(&mut pieces.lines, &function.setting())?;
    add_code(pieces, function, code)
}

// Adds the pieces of functions.
fn add_functions(
    alloc: Global,
    pieces: &mut Pieces,
    callees: &Callees,
    routines: &[Routine],
) -> Result<(), NoMemory>
    ensures lines { OnOk result (pieces.new.lines.items ≡ pieces.old.lines.items ++ joined (pieces_from (callee_of callees.now) 0 routines.now)) }
    ensures starts { OnOk result (pieces.new.starts.items ≡ pieces.old.starts.items ++ starts_from (length pieces.old.lines.items) (pieces_from (callee_of callees.now) 0 routines.now)) }
{
    let mut number: u32 = 0;
    let mut rest = routines;
    while let [routine, after @ ..] = rest {
        let function = Function::new(alloc, callees, number, routine)?;
        add_function(pieces, &function, routine.code())?;
        number = number.checked_add(routine.size()?).ok_or(NoMemory)?;
        rest = after;
    }
    Ok(())
}

/// The lines of a program: those that put the address of a symbol and an offset into R30, and the
/// pieces of functions. The work is linear in the instructions.
pub fn program_pieces(
    alloc: Global,
    routines: &[Routine],
    callees: &Callees,
    unit: u32,
    symbol: u32,
    offset: u32,
) -> Result<Pieces, NoMemory>
    ensures lines { IfOk result (λ p. p.lines.items ≡ start_lines unit symbol offset ++ joined (pieces_from (callee_of callees.now) 0 routines.now)) }
    ensures starts { IfOk result (λ p. p.starts.items ≡ starts_from 2 (pieces_from (callee_of callees.now) 0 routines.now)) }
    ensures words { IfOk result (λ p. words_needed p.lines.items ≤ text_weight routines.now) }
{
    let mut pieces = Pieces {
        lines: Vec::new(alloc),
        starts: Vec::new(alloc),
    };
    add_start(&mut pieces.lines, unit, symbol, offset)?;
    add_functions(alloc, &mut pieces, callees, routines)?;
    Ok(pieces)
}
