// What the lines of a function's instructions depend on.
ghost use Rattle.std.specs.Prelude.{◌≡◌, ◌+◌, IfOk, if◌then◌else◌, slice_index};
ghost use Rattle.std.specs.List.{list_any};
ghost use Rattle.p9_abs.specs.Forms.{decoded};
ghost use Rattle.p9_abs.specs.Automatics.{holds_of, calls_in};
ghost use Rattle.p9_pieces.specs.Callees.{callee_of};
ghost use Rattle.p9_pieces.specs.Functions.{scope};
ghost use Rattle.p9_pieces.specs.Ways.{words_from, setting_of, scope_of, in_reach, label_goal, goal_of, is_short, way_of};

use crate::callees::Callees;
use p9_abs::{Abs, Form, decoded};
use p9_base::NoMemory;
use p9_lines::{Setting, Way};
use p9_text::{Routine, instruction_words};
use std::alloc::Global;

/// The most words between a branch and its goal, of which its half word reaches 32,768 back and
/// 32,767 on.
const REACH: u64 = 32_767;

fn is_call(form: Form) -> bool
    ensures { result ≡ calls_in form }
{
    match form {
        Form::Call(_) | Form::CallRegister(_) => true,
        _ => false,
    }
}

fn calls(a: &Abs) -> bool
    ensures { result ≡ holds_of calls_in (decoded a.now) }
{
    match decoded(a) {
        None => false,
        Some(form) => is_call(form),
    }
}

fn has_call(code: &[Abs]) -> bool
    ensures { result ≡ list_any (λ a. holds_of calls_in (decoded a)) code.now }
{
    let mut rest = code;
    while let [a, after @ ..] = rest {
        if calls(a) {
            return true;
        }
        rest = after;
    }
    false
}

// What the entry of a function takes from R29.
fn taken(frame: u32, keeps: bool) -> Result<u32, NoMemory>
    ensures { IfOk result (λ n. n ≡ (if keeps then frame + 4 else 0)) }
{
    if keeps {
        return frame.checked_add(4).ok_or(NoMemory);
    }
    Ok(0)
}

fn setting(routine: &Routine) -> Result<Setting, NoMemory>
    ensures { IfOk result (λ s. s ≡ setting_of routine.now) }
{
    let frame = routine.def.frame;
    let keeps = frame != 0 || has_call(routine.code());
    Ok(Setting {
        unit: routine.unit,
        taken: taken(frame, keeps)?,
        keeps,
    })
}

// The words before each instruction. 2^32 and more are want of memory.
fn word_counts(alloc: Global, code: &[Abs]) -> Result<Vec<u32>, NoMemory>
    ensures { IfOk result (λ words. words.items ≡ words_from 0 code.now) }
{
    let mut words = Vec::new(alloc);
    let mut count: u32 = 0;
    let mut rest = code;
    while let [a, after @ ..] = rest {
        words.push(count)?;
        count = count.checked_add(instruction_words(a)).ok_or(NoMemory)?;
        rest = after;
    }
    Ok(words)
}

fn in_reach(m: u32, n: u32) -> bool
    ensures { result ≡ in_reach m n }
{
    u64::from(m) <= u64::from(n) + REACH && u64::from(n) <= u64::from(m) + REACH
}

/// A function among others, by the number of its first instruction.
#[derive(Drop)]
pub(crate) struct Function<'a> {
    setting: Setting,
    first: u32,
    words: Vec<u32>,
    callees: &'a Callees<'a>,
}

impl<'a> Function<'a> {
    /// A function whose entry has a number.
    pub(crate) fn new(
        alloc: Global,
        callees: &'a Callees<'a>,
        number: u32,
        routine: &Routine,
    ) -> Result<Function<'a>, NoMemory>
        ensures { IfOk result (λ f. scope f ≡ scope_of (callee_of callees.now) number routine.now) }
    {
        let setting = setting(routine)?;
        let first = number.checked_add(1).ok_or(NoMemory)?;
        let words = word_counts(alloc, routine.code())?;
        Ok(Function {
            setting,
            first,
            words,
            callees,
        })
    }

    pub(crate) fn setting(&self) -> Setting
        ensures { result ≡ self.now.setting }
    {
        self.setting
    }

    // The number of the instruction that a label is. 2^32 and more are want of memory.
    fn label_goal(&self, label: u32) -> Result<Option<u32>, NoMemory>
        ensures { IfOk result (λ goal. goal ≡ label_goal (scope self.now) label) }
    {
        if (label as usize) < self.words.len() {
            let goal = self.first.checked_add(label).ok_or(NoMemory)?;
            return Ok(Some(goal));
        }
        Ok(None)
    }

    fn goal(&self, form: Form) -> Result<Option<u32>, NoMemory>
        ensures { IfOk result (λ goal. goal ≡ goal_of (scope self.now) form) }
    {
        match form {
            Form::BranchPair(_, _, _, label) | Form::BranchSign(_, _, label) | Form::Jump(label) =>
                self.label_goal(label),
            Form::Call(symbol) => Ok(self.callees.callee(self.setting.unit, symbol)),
            _ => Ok(None),
        }
    }

    // The words before an instruction, or 0 before what is none.
    fn words_before(&self, number: u32) -> u32
        ensures { result ≡ slice_index self.now.words.items number }
    {
        self.words.get(number as usize).copied().unwrap_or(0)
    }

    fn is_short(&self, number: u32, form: Form) -> bool
        ensures { result ≡ is_short (scope self.now) number form }
    {
        match form {
            Form::BranchPair(_, _, _, label) | Form::BranchSign(_, _, label) => {
                in_reach(self.words_before(number), self.words_before(label))
            }
            _ => false,
        }
    }

    /// Where an instruction leads, which has a number in the function.
    pub(crate) fn way(&self, number: u32, form: Form) -> Result<Way, NoMemory>
        ensures { IfOk result (λ way. way ≡ way_of (scope self.now) number form) }
    {
        let this = self.first.checked_add(number).ok_or(NoMemory)?;
        Ok(Way {
            next: this.checked_add(1).ok_or(NoMemory)?,
            goal: self.goal(form)?,
            short: self.is_short(number, form),
        })
    }
}
