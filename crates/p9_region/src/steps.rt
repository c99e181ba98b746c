// Where control goes on from each instruction, and which automatic it writes.

ghost use Rattle.std.specs.Prelude.{◌≡◌, map, IfOk};
ghost use Rattle.p9_abs.specs.Forms.{decoded};
ghost use Rattle.p9_abs.specs.Automatics.{calls_in};
ghost use Rattle.p9_region.specs.Picking.{step_of};

use p9_abs::{Abs, Form, decoded};
use p9_base::NoMemory;
use p9_flow::{falls, jump_of, written_of};
use std::alloc::Global;

/// Whether the next instruction may follow, and where control may jump, both only from what is no
/// call; and the automatic that the instruction writes.
#[derive(Clone, Copy)]
pub(crate) struct Step {
    pub next: bool,
    pub jump: Option<u32>,
    pub written: Option<u32>,
}

fn calls(form: Form) -> bool
    ensures { result ≡ calls_in form }
{
    match form {
        Form::Call(_) => true,
        Form::CallRegister(_) => true,
        _ => false,
    }
}

fn step_of(form: Option<Form>) -> Step
    ensures { result ≡ step_of form }
{
    match form {
        None => Step {
            next: false,
            jump: None,
            written: None,
        },
        Some(form) => Step {
            next: falls(form) && !calls(form),
            jump: jump_of(form),
            written: written_of(form),
        },
    }
}

pub(crate) fn steps(alloc: Global, code: &[Abs]) -> Result<Vec<Step>, NoMemory>
    ensures { IfOk result (λ steps. steps.items ≡ map (λ a. step_of (decoded a)) code.now) }
{
    let steps = code.iter().map(|a| step_of(decoded(a))).collect(alloc)?;
    Ok(steps)
}
