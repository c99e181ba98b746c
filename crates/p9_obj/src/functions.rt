// Whether a function may stand in a module.
ghost use Rattle.std.specs.Prelude.{◌↔◌, ◌≡◌, ◌⊎◌, IsTrue, All};
ghost use Rattle.p9_abs.specs.declared.instructions.Op.TheVariants.{Jmp, Ret};
ghost use Rattle.p9_abs.specs.Validity.{IsFrame, EndsWell, IsInstruction, IsFunction, HasFunction};

use crate::operands::is_instruction;
use p9_abs::{Abs, Body, Op, TextDef};

fn is_frame(frame: u32) -> bool
    ensures { IsTrue result ↔ IsFrame frame }
{
    frame % 4 == 0 && frame <= 16777212
}

fn is_end(op: Op) -> bool
    ensures { IsTrue result ↔ ((op ≡ Ret) ⊎ (op ≡ Jmp)) }
{
    match op {
        Op::Ret | Op::Jmp => true,
        _ => false,
    }
}

fn ends_well(code: &[Abs]) -> bool
    ensures { IsTrue result ↔ EndsWell code.now }
{
    match code.last() {
        None => false,
        Some(last) => is_end(last.op),
    }
}

fn are_instructions(frame: u32, count: usize, code: &[Abs]) -> bool
    ensures { IsTrue result ↔ All (IsInstruction frame count) code.now }
{
    code.iter().all(|a| is_instruction(frame, count, a))
}

fn is_function(def: &TextDef) -> bool
    ensures { IsTrue result ↔ IsFunction def.now }
{
    let code = def.code.list.as_slice();
    is_frame(def.frame) && ends_well(code) && are_instructions(def.frame, code.len(), code)
}

/// Whether the body, where it is a function, is one that may stand in a module.
pub(crate) fn has_function(body: &Body) -> bool
    ensures { IsTrue result ↔ HasFunction body.now }
{
    match body {
        Body::Text(def) => is_function(def),
        _ => true,
    }
}
