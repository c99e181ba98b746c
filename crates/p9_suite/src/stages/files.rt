// Files that are read and written.
ghost use Rattle.p9_suite.specs.Stages.{MakesOnStore, ReadsFile, WritesFile};

use crate::answer::Refusal;
use crate::copied::copied;
use p9_base::{Bytes, FileFault, Files, Got, Name};
use std::alloc::Global;

/// Reads a file.
pub(crate) fn read_file<F: Files>(
    alloc: Global,
    name: &Name,
    files: &mut F,
) -> Result<Bytes, Refusal>
    ensures { MakesOnStore F.did files.old files.new (ReadsFile name.now) result }
{
    // The name is copied before the call, so want of memory hides no fault.
    let word = name.copied(alloc)?;
    match files.read(alloc, name) {
        Got::Found(bytes) => Ok(bytes),
        Got::Absent => Err(Refusal::Absent(word)),
        Got::Failed => Err(Refusal::StoreFault(word)),
        Got::NoMemory => Err(Refusal::Memory),
    }
}

/// Writes a file.
pub(crate) fn write_file<F: Files>(
    alloc: Global,
    name: &[u8],
    bytes: &Bytes,
    files: &mut F,
) -> Result<(), Refusal>
    ensures { MakesOnStore F.did files.old files.new (WritesFile name.now bytes.now) result }
{
    let word = copied(alloc, name)?;
    match files.write(alloc, &word, bytes) {
        Ok(()) => Ok(()),
        Err(FileFault::Failed) => Err(Refusal::StoreFault(word)),
        Err(FileFault::NoMemory) => Err(Refusal::Memory),
    }
}
