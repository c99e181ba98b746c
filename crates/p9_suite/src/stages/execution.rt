// Executables that are written and then simulated.
ghost use Rattle.p9_suite.specs.Scene.{doing, objects};
ghost use Rattle.p9_suite.specs.Simulation.{WritesAndRuns};
ghost use Rattle.p9_suite.specs.Stages.{Makes};

use crate::answer::{Answer, Refusal};
use crate::stages::files::write_file;
use crate::stages::simulation::run_file;
use p9_base::{Bytes, Files, Sink, Source};
use std::alloc::Global;

/// Writes an executable and simulates the bytes that were written.
pub(crate) fn write_and_run<I: Source, O: Sink, F: Files>(
    alloc: Global,
    bytes: &Bytes,
    output: &[u8],
    budget: u32,
    input: &mut I,
    out: &mut O,
    files: &mut F,
) -> Result<Answer, Refusal>
    ensures { Makes (doing I.did O.did F.did) (objects input.old out.old files.old) (objects input.new out.new files.new)
        (WritesAndRuns output.now budget bytes.now) result }
{
    write_file(alloc, output, bytes, files)?;
    run_file(alloc, output, bytes, budget, input, out)
}
