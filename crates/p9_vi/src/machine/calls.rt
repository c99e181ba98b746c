// Steps, and the system calls among them.
ghost use Rattle.std.specs.Prelude.{◌≡◌, ◌≤◌, if◌then◌else◌, IsTrue, ◌↔◌, IfSome};
ghost use Rattle.p9_r3k.specs.Memory.{readable, writable, bytes_from};
ghost use Rattle.p9_r3k.specs.Machine.{answered};
ghost use Rattle.p9_base.specs.Streams.{FillCause, PutsCause, TakesRan, PutsRan, StreamsRan, fill_failure, puts_failure};
ghost use Rattle.p9_base.specs.Streams.{Told};
ghost use Rattle.p9_vi.specs.Stops.{stop_of};
ghost use Rattle.p9_vi.specs.Steps.{FillsRoom, RoomChanges, Reads, ReadKeeps, read_failure, PutsPiece, Calls, CallKeeps, StepCause, step_failure, Steps, StepStands};
ghost use Rattle.p9_base.specs.Pieces.{Brings, ReadBrings, MemoryIs, WritesPiece};
ghost use Rattle.p9_vi.specs.Tied.{AtRequest, Ties, StepCount};
ghost use Rattle.p9_vi.specs.Kept.{CanAsk};

use crate::machine::{Machine, STACK_START, TEXT_START};
use crate::stop::{Stepped, Stop};
use p9_base::{Sink, Source, fill_at, put_all};
use p9_r3k::{Asked, Effect, Ending};

impl Machine {
    // Fills a room of the memory: how many bytes came, or none where a take failed.
    fn fill_room<I: Source>(&mut self, input: &mut I, at: u32, count: u32) -> Option<usize>
        requires some { 1 ≤ count }
        requires room { count ≤ writable self.old at }
        ensures fills { FillsRoom (I.left input.old) (I.left input.new) self.old self.new at count result }
        ensures room { RoomChanges self.old self.new at count }
        ensures within { IfSome result (λ n. n ≤ count) }
        ensures cause { FillCause (I.faults input.old) (I.faults input.new) result }
        ensures calls { TakesRan I.did input.old input.new (fill_failure result) }
        ensures brings { Brings I.did input.old input.new count result (MemoryIs self.old self.new at) }
    {
        if at < STACK_START {
            let start = (at - TEXT_START) as usize;
            fill_at(input, &mut self.low, start, count as usize)
        } else {
            let start = (at - STACK_START) as usize;
            fill_at(input, &mut self.stack, start, count as usize)
        }
    }

    // A read: false where a take failed.
    fn read<I: Source>(&mut self, input: &mut I, at: u32, count: u32) -> bool
        requires { count ≤ writable self.old at }
        ensures reads { Reads (I.left input.old) (I.left input.new) self.old self.new at count result }
        ensures keeps { ReadKeeps self.old self.new at count result }
        ensures cause { PutsCause (I.faults input.old) (I.faults input.new) result }
        ensures calls { TakesRan I.did input.old input.new (read_failure result) }
        ensures brings { ReadBrings I.did input.old input.new self.old self.new at count result }
    {
        if count == 0 {
            self.answer(0);
            return true;
        }
        match self.fill_room(input, at, count) {
            None => false,
            Some(taken) => {
                self.answer(taken as u32);
                true
            }
        }
    }

    // A write: false where a put failed.
    fn write<O: Sink>(&mut self, out: &mut O, at: u32, count: u32) -> bool
        requires { count ≤ readable self.old at }
        ensures puts { PutsPiece (O.sofar out.old) (O.sofar out.new) self.old at count result }
        ensures after { self.new ≡ (if result then answered self.old count else self.old) }
        ensures cause { PutsCause (O.faults out.old) (O.faults out.new) result }
        ensures calls { PutsRan O.did out.old out.new (puts_failure result) }
        ensures writes { WritesPiece O.did out.old out.new (bytes_from self.old at count) result }
    {
        if put_all(out, self.bytes(at, count)) {
            self.answer(count);
            true
        } else {
            false
        }
    }

    // Does what a system call asks for.
    fn call<I: Source, O: Sink>(&mut self, request: Asked, input: &mut I, out: &mut O) -> Stepped
        requires { CanAsk request self.old }
        ensures changes { Told (Calls result request self.old self.new)
            (I.left input.old) (I.left input.new) (O.sofar out.old) (O.sofar out.new) }
        ensures keeps { CallKeeps result request self.old self.new }
        ensures cause { StepCause result
            (I.faults input.old) (I.faults input.new) (O.faults out.old) (O.faults out.new) }
        ensures calls { StreamsRan I.did O.did input.old out.old input.new out.new (step_failure result) }
        ensures tied { AtRequest request self.old → Ties I.did O.did input.old out.old input.new out.new
            (step_failure result) (StepCount result) self.old self.new }
    {
        match request {
            Asked::Exits { at, length } => {
                self.advance(false);
                self.ending = Ending::Exited { at, length };
                Stepped::Done
            }
            Asked::Read { at, count } => {
                if self.read(input, at, count) {
                    Stepped::Done
                } else {
                    Stepped::ReadFault
                }
            }
            Asked::Write { at, count } => {
                if self.write(out, at, count) {
                    Stepped::Done
                } else {
                    Stepped::WriteFault
                }
            }
            Asked::Refused => {
                self.answer(0xFFFF_FFFF);
                Stepped::Done
            }
            Asked::Stop(cause) => {
                self.halt(cause);
                Stepped::Done
            }
        }
    }

    // One step of a running machine.
    pub(crate) fn step<I: Source, O: Sink>(&mut self, input: &mut I, out: &mut O) -> Stepped
        requires { self.old.ending ≡ Ending.Running }
        ensures changes { Told (Steps result self.old self.new)
            (I.left input.old) (I.left input.new) (O.sofar out.old) (O.sofar out.new) }
        ensures stands { StepStands result self.new }
        ensures cause { StepCause result
            (I.faults input.old) (I.faults input.new) (O.faults out.old) (O.faults out.new) }
        ensures calls { StreamsRan I.did O.did input.old out.old input.new out.new (step_failure result) }
        ensures tied { Ties I.did O.did input.old out.old input.new out.new
            (step_failure result) (StepCount result) self.old self.new }
    {
        match self.fetch() {
            Err(cause) => {
                self.halt(cause);
                Stepped::Done
            }
            Ok(i) => match self.effect(i) {
                Effect::Call => {
                    let request = self.asked();
                    self.call(request, input, out)
                }
                effect => {
                    self.apply(effect, i.reads_pair());
                    Stepped::Done
                }
            },
        }
    }

    // The stop that the state says.
    pub(crate) fn stop(&self) -> Stop
        ensures { result ≡ stop_of self.now.ending }
    {
        match self.ending {
            Ending::Running => Stop::Budget,
            Ending::Exited { .. } => Stop::Exit,
            Ending::Halted(cause, pc) => Stop::Halt(cause, pc),
        }
    }

    pub(crate) fn is_running(&self) -> bool
        ensures { IsTrue result ↔ (self.now.ending ≡ Ending.Running) }
    {
        matches!(self.ending, Ending::Running)
    }
}
