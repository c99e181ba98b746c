// Executables that are simulated.
ghost use Rattle.std.specs.Prelude.{◌≡◌, ◌≢◌, ◌⊎◌, [], Ok, Err, IfOk, IfErr};
ghost use Rattle.p9_aout.specs.Image.{ImageParts, image_of};
ghost use Rattle.p9_base.specs.SystemCalls.{exit_text};
ghost use Rattle.p9_vi.specs.Run.{IsExited, start_of};
ghost use Rattle.p9_vi.specs.Stops.{StandsAt};
ghost use Rattle.p9_suite.specs.Simulation.{RunsFile, exit_answer, stop_answer};
ghost use Rattle.p9_suite.specs.Stages.{MakesOnStreams};

use crate::answer::{Answer, End, Refusal};
use crate::copied::copied;
use crate::message::Message;
use p9_aout::{AoutFault, read_aout};
use p9_base::{Bytes, NoMemory, Sink, Source};
use p9_vi::{Machine, Stop, simulate};
use std::alloc::Global;

// The machine at the start of a file's image. It takes all memory of the run.
fn machine_of(alloc: Global, file: &Bytes) -> Result<Machine, AoutFault>
    ensures start { IfOk result (λ m. (parts : ImageParts) × (image_of file.now ≡ Ok parts) × (m ≡ (start_of parts []).core)) }
    ensures fault { IfErr result (λ why. (why ≡ AoutFault.Memory) ⊎ (image_of file.now ≡ Err why)) }
{
    match read_aout(alloc, &file.list) {
        Ok(image) => match Machine::new(alloc, &image) {
            Ok(machine) => Ok(machine),
            Err(NoMemory) => Err(AoutFault::Memory),
        },
        Err(why) => Err(why),
    }
}

// The refusal of a file that is no executable.
fn refusal(alloc: Global, name: &[u8], why: AoutFault) -> Refusal
    ensures { (result ≡ Refusal.Memory) ⊎ ((why ≢ AoutFault.Memory) × (result ≡ Refusal.Executable name.now why)) }
{
    match why {
        AoutFault::Memory => Refusal::Memory,
        why => match copied(alloc, name) {
            Ok(word) => Refusal::Executable(word, why),
            Err(NoMemory) => Refusal::Memory,
        },
    }
}

// The answer to a machine that has exited.
fn exit_answer(machine: Machine) -> Answer
    requires { IsExited machine.ending }
    ensures { result ≡ exit_answer (exit_text machine) }
{
    if machine.exit_text().is_empty() {
        Answer::Done
    } else {
        Answer::Ran(End::Exit(Message::of(machine)))
    }
}

// The answer to a simulation.
fn stop_answer(machine: Machine, stop: Stop, budget: u32) -> Answer
    requires { StandsAt stop machine }
    ensures { result ≡ stop_answer budget machine stop }
{
    match stop {
        Stop::Exit => exit_answer(machine),
        Stop::Budget => Answer::Ran(End::Spent(budget)),
        Stop::Halt(cause, pc) => Answer::Ran(End::Halted(cause, pc)),
        Stop::ReadFault => Answer::Ran(End::ReadFault),
        Stop::WriteFault => Answer::Ran(End::WriteFault),
    }
}

/// Takes a file's bytes as an executable, and simulates it. A refusal names the file by `name`.
pub(crate) fn run_file<I: Source, O: Sink>(
    alloc: Global,
    name: &[u8],
    file: &Bytes,
    budget: u32,
    input: &mut I,
    out: &mut O,
) -> Result<Answer, Refusal>
    ensures { MakesOnStreams I.did O.did input.old out.old input.new out.new (RunsFile name.now file.now budget) result }
{
    match machine_of(alloc, file) {
        Ok(mut machine) => {
            let stop = simulate(&mut machine, input, out, budget);
            Ok(stop_answer(machine, stop, budget))
        }
        Err(why) => Err(refusal(alloc, name, why)),
    }
}
