// Steps that touch neither the input nor the output.
ghost use Rattle.std.specs.Prelude.{◌≡◌, ◌<◌, ◌≤◌, ◌+◌, ◌%◌, length, IfOk, IsTrue, Ok};
ghost use Rattle.p9_r3k.specs.Table.{Fits};
ghost use Rattle.p9_r3k.specs.Memory.{text_start, read_word};
ghost use Rattle.p9_r3k.specs.Machine.{fetched};
ghost use Rattle.p9_vi.specs.Kept.{IsClear};
ghost use Rattle.p9_vi.specs.Steps.{Plain, PlainRun};

use crate::machine::{Machine, TEXT_START};
use p9_r3k::{Effect, Ending, HaltCause, Inst, decode};

impl Machine {
    // Whether no hazard can come at the next instruction.
    #[inline(always)]
    fn is_clear(&self) -> bool
        ensures { IsTrue result → IsClear self.now }
    {
        self.loaded == 0 && !self.slot && !self.used && !self.used_before
    }

    // The word at a pc inside the text.
    #[inline(always)]
    fn text_word(&self) -> u32
        requires word { self.now.pc % 4 ≡ 0 }
        requires from { text_start ≤ self.now.pc }
        requires below { self.now.pc < self.now.text_end }
        ensures { result ≡ read_word self.now self.now.pc }
    {
        self.order.word(&self.low, (self.pc - TEXT_START) as usize)
    }

    // The next instruction, or the stop that comes before its own, where no hazard can come.
    #[tactic(auto, unfolding(p9_r3k::specs::Machine::fetched), using(crate::proofs::Clear::without_hazard_clear))]
    #[inline(always)]
    fn fetch_clear(&self) -> Result<Inst, HaltCause>
        requires { IsClear self.now }
        ensures exact { result ≡ fetched self.now }
        ensures fits { IfOk result Fits }
    {
        if !(self.pc % 4 == 0 && TEXT_START <= self.pc && self.pc < self.text_end) {
            return Err(HaltCause::Fetch);
        }
        match decode(self.text_word()) {
            None => Err(HaltCause::BadWord),
            Some(i) => Ok(i),
        }
    }

    // Does what an instruction does, unless it is a system call: whether it was done.
    #[inline(always)]
    fn act(&mut self, i: Inst) -> bool
        requires running { self.old.ending ≡ Ending.Running }
        requires fetched { fetched self.old ≡ Ok i }
        requires fits { Fits i }
        ensures { Plain result self.old self.new }
    {
        match self.effect(i) {
            Effect::Call => false,
            effect => {
                self.apply(effect, i.reads_pair());
                true
            }
        }
    }

    // One step where no hazard can come, unless it is a system call: whether it was done.
    #[inline(always)]
    fn step_clear(&mut self) -> bool
        requires running { self.old.ending ≡ Ending.Running }
        requires clear { IsClear self.old }
        ensures { Plain result self.old self.new }
    {
        match self.fetch_clear() {
            Err(cause) => {
                self.halt(cause);
                true
            }
            Ok(i) => self.act(i),
        }
    }

    // The same where a hazard may come.
    #[inline(never)]
    fn step_guarded(&mut self) -> bool
        requires { self.old.ending ≡ Ending.Running }
        ensures { Plain result self.old self.new }
    {
        match self.fetch() {
            Err(cause) => {
                self.halt(cause);
                true
            }
            Ok(i) => self.act(i),
        }
    }

    // One step, unless it is a system call: whether it was done.
    #[inline(always)]
    fn step_plain(&mut self) -> bool
        requires { self.old.ending ≡ Ending.Running }
        ensures { Plain result self.old self.new }
    {
        if self.is_clear() {
            self.step_clear()
        } else {
            self.step_guarded()
        }
    }

    // At most so many steps, up to a system call or the run's end: how many.
    pub(crate) fn run_plain(&mut self, most: u32) -> u32
        ensures within { result ≤ most }
        ensures runs { PlainRun result self.old self.new }
    {
        for done in 0..most {
            if !self.is_running() {
                return done;
            }
            if !self.step_plain() {
                return done;
            }
        }
        most
    }
}
