// What the text weighs, in machine words.
ghost use Rattle.std.specs.Prelude.{◌≡◌, ◌≢◌, ◌⊎◌, ◌≤◌, ◌+◌, Err, IsOk, IfOk, IfErr, IfSome, sum_by};
ghost use Rattle.p9_abs.specs.Forms.{weight_of, start_weight};
ghost use Rattle.p9_text.specs.declared.weighing.ExpandFault.{ExpandFault};
ghost use Rattle.p9_text.specs.declared.weighing.ExpandFault.TheVariants.{Memory};
ghost use Rattle.p9_text.specs.Weights.{routine_weight, text_weight, text_limit, IsTooLarge};

use crate::order::Routine;
use p9_abs::{Abs, decoded, words_of};
use p9_base::NoMemory;
use thiserror::Error;

/// The most words of a text.
const TEXT_LIMIT: u64 = 4_194_304;

/// Why functions make no text.
#[derive(Debug, Drop, Error)]
pub enum ExpandFault {
    #[error("instructions and entries weigh {0} words")]
    TextTooLarge(u64),
    #[error("out of memory")]
    Memory,
}

impl From<NoMemory> for ExpandFault {
    ghost use Rattle.std.specs.Prelude.{◌≡◌};
    ghost use Rattle.p9_text.specs.declared.weighing.ExpandFault.TheVariants.{Memory};

    ghost from_gives = { λ _ fault. fault ≡ Memory };

    fn from(_: NoMemory) -> ExpandFault {
        ExpandFault::Memory
    }
}

/// The words of an instruction; none of what is no instruction.
pub fn instruction_words(a: &Abs) -> u32
    ensures { result ≡ weight_of a.now }
{
    match decoded(a) {
        Some(form) => words_of(form),
        None => 0,
    }
}

// The words of instructions; none where these are 2^64 or more.
fn code_words(code: &[Abs]) -> Option<u64>
    ensures { IfSome result (λ n. n ≡ sum_by weight_of code.now) }
{
    let mut words: u64 = 0;
    let mut rest = code;
    while let [a, after @ ..] = rest {
        words = words.checked_add(u64::from(instruction_words(a)))?;
        rest = after;
    }
    Some(words)
}

// The words of a function; none where these are 2^64 or more.
fn routine_words(routine: &Routine) -> Option<u64>
    ensures { IfSome result (λ n. n ≡ routine_weight routine.now) }
{
    code_words(routine.code())?.checked_add(4)
}

// The words of the start and of functions; none where these are 2^64 or more.
fn all_words(routines: &[Routine]) -> Option<u64>
    ensures { IfSome result (λ n. n ≡ text_weight routines.now) }
{
    let mut words: u64 = 2;
    let mut rest = routines;
    while let [routine, after @ ..] = rest {
        words = words.checked_add(routine_words(routine)?)?;
        rest = after;
    }
    Some(words)
}

// The words, where they are not too many.
fn weighed(routines: &[Routine]) -> Result<u32, ExpandFault>
    ensures words { IfOk result (λ n. n ≡ text_weight routines.now) }
    ensures fits { IfOk result (λ n. n ≤ text_limit) }
    ensures refused { IfErr result (IsTooLarge (text_weight routines.now)) }
{
    let words = all_words(routines).ok_or(ExpandFault::Memory)?;
    if words > TEXT_LIMIT {
        return Err(ExpandFault::TextTooLarge(words));
    }
    Ok(words as u32)
}

/// The words of the start and of functions with their entries, where these are not too many. Want of
/// memory may come at any place.
pub fn text_words(routines: &[Routine]) -> Result<u32, ExpandFault>
    ensures words { IfOk result (λ n. n ≡ text_weight routines.now) }
    ensures fits { IfOk result (λ n. n ≤ text_limit) }
    ensures refused { IfErr result (IsTooLarge (text_weight routines.now)) }

    // The cause is the answer where it holds, and the words else, unless memory ran out.
    ensures refused_exactly { (fault : ExpandFault) → fault ≢ Memory → IsTooLarge (text_weight routines.now) fault → (result ≡ Err fault) ⊎ (result ≡ Err Memory) }
    ensures weighed_exactly { text_weight routines.now ≤ text_limit → IsOk result ⊎ (result ≡ Err Memory) }
{
    weighed(routines)
}
