// What liveness needs to know of each instruction.

ghost use Rattle.std.specs.Prelude.{◌≡◌, map, IfOk};
ghost use Rattle.p9_abs.specs.Forms.{decoded};
ghost use Rattle.p9_abs.specs.Automatics.{falls};
ghost use Rattle.p9_flow.specs.Acts.{automatic_of, read_of, written_of, jump_of, kept, act_of};

use p9_abs::{Abs, Form, Location, decoded};
use p9_base::NoMemory;
use std::alloc::Global;

/// Whether the next instruction may follow, where control may jump, and which candidate the
/// instruction reads or writes.
#[derive(Clone, Copy)]
pub(crate) struct Act {
    pub next: bool,
    pub jump: Option<u32>,
    pub read: Option<u32>,
    pub write: Option<u32>,
}

pub(crate) fn automatic_of(location: Location) -> Option<u32>
    ensures { result ≡ automatic_of location }
{
    match location {
        Location::Automatic(v, _) => Some(v),
        _ => None,
    }
}

fn read_of(form: Form) -> Option<u32>
    ensures { result ≡ read_of form }
{
    match form {
        Form::Load(_, from, _) => automatic_of(from),
        _ => None,
    }
}

/// The automatic that a form writes.
pub fn written_of(form: Form) -> Option<u32>
    ensures { result ≡ written_of form }
{
    match form {
        Form::Store(_, _, to) => automatic_of(to),
        _ => None,
    }
}

/// The label that a form may jump to.
pub fn jump_of(form: Form) -> Option<u32>
    ensures { result ≡ jump_of form }
{
    match form {
        Form::BranchPair(_, _, _, label) => Some(label),
        Form::BranchSign(_, _, label) => Some(label),
        Form::Jump(label) => Some(label),
        _ => None,
    }
}

/// Whether control may go from a form to the next instruction.
pub fn falls(form: Form) -> bool
    ensures { result ≡ falls form }
{
    match form {
        Form::Jump(_) => false,
        Form::Return => false,
        _ => true,
    }
}

// The automatic, where it is a candidate.
fn kept(candidates: &[bool], automatic: Option<u32>) -> Option<u32>
    ensures { result ≡ kept candidates.now automatic }
{
    match automatic {
        None => None,
        Some(v) => match candidates.get(v as usize) {
            Some(true) => Some(v),
            _ => None,
        },
    }
}

fn act_of(candidates: &[bool], form: Option<Form>) -> Act
    ensures { result ≡ act_of candidates.now form }
{
    match form {
        None => Act {
            next: false,
            jump: None,
            read: None,
            write: None,
        },
        Some(form) => Act {
            next: falls(form),
            jump: jump_of(form),
            read: kept(candidates, read_of(form)),
            write: kept(candidates, written_of(form)),
        },
    }
}

/// What each instruction does, as far as the candidates go.
pub(crate) fn acts(alloc: Global, code: &[Abs], candidates: &[bool]) -> Result<Vec<Act>, NoMemory>
    ensures { IfOk result (λ acts. acts.items ≡ map (λ a. act_of candidates.now (decoded a)) code.now) }
{
    let acts = code
        .iter()
        .map(|a| act_of(candidates, decoded(a)))
        .collect(alloc)?;
    Ok(acts)
}
