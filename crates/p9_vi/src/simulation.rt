// The simulation of many instructions.
ghost use Rattle.p9_base.specs.Streams.{StreamsRan};
ghost use Rattle.p9_base.specs.Streams.{Told};
ghost use Rattle.p9_vi.specs.Stops.{Runs, StandsAt, StopCause, stop_failure};
ghost use Rattle.p9_vi.specs.Tied.{Ties, StopCount};

use crate::machine::Machine;
use crate::stop::{Stepped, Stop};
use p9_base::{Sink, Source};

/// Runs the machine for at most `budget` instructions. After `Budget` and after a fault a later call
/// goes on from where the machine stands. Whatever the streams tell, the calls that are made on them are
/// those of the machine's steps: it reads what takes brought, and puts write what it writes.
pub fn simulate<I: Source, O: Sink>(
    m: &mut Machine,
    input: &mut I,
    out: &mut O,
    budget: u32,
) -> Stop
    ensures stands { StandsAt result m.new }
    ensures runs { Told (Runs result budget m.old m.new)
        (I.left input.old) (I.left input.new) (O.sofar out.old) (O.sofar out.new) }
    ensures cause { StopCause result
        (I.faults input.old) (I.faults input.new) (O.faults out.old) (O.faults out.new) }
    ensures calls { StreamsRan I.did O.did input.old out.old input.new out.new (stop_failure result) }
    ensures tied { Ties I.did O.did input.old out.old input.new out.new
        (stop_failure result) (StopCount result budget) m.old m.new }
{
    let mut done = 0;
    while done < budget {
        done += m.run_plain(budget - done);
        if done == budget {
            return m.stop();
        }
        if !m.is_running() {
            return m.stop();
        }
        match m.step(input, out) {
            Stepped::Done => done += 1,
            Stepped::ReadFault => return Stop::ReadFault,
            Stepped::WriteFault => return Stop::WriteFault,
        }
    }
    m.stop()
}
