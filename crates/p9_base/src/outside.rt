// What the suite asks of the outside. Each object counts its faults, and may tell its content.
ghost use Rattle.std.specs.Prelude.{◌≡◌, ◌<◌, ◌≤◌, List, ℕ, length, Option};
ghost use Rattle.p9_base.specs.Outside.{Takes, TakeCause, TakeCall, Take, TakeMeans, Puts, PutCause, PutCall, PutPiece, PutMeans, Reads, ReadCause, Writes, WriteCause, FileCall, ReadCall, WriteCall, FileMeans};

use crate::bytes::{Bytes, Name};
use std::alloc::Global;

/// The answer of a source: so many bytes, none because its end is reached, or a failure.
#[derive(Clone, Copy, Debug, PartialEq, Eq, Drop)]
pub enum Took {
    Got(usize),
    End,
    Failed,
}

/// The answer of a sink: so many bytes of the piece are taken, or a failure.
#[derive(Clone, Copy, Debug, PartialEq, Eq, Drop)]
pub enum Put {
    Wrote(usize),
    Failed,
}

/// The answer to a read of a file.
#[derive(Drop)]
pub enum Got {
    Found(Bytes),
    Absent,
    Failed,
    NoMemory,
}

/// Why a file was not written.
#[derive(Clone, Copy, Debug, PartialEq, Eq, Drop)]
pub enum FileFault {
    Failed,
    NoMemory,
}

/// Gives bytes in order.
pub trait Source {
    /// The bytes not yet taken, where they are told.
    ghost left: { Self → Option (List ℕ) };

    /// How often a call has failed.
    ghost faults: { Self → ℕ };

    /// The call was made on the one state, was answered so, and left the other.
    ghost did: { Self → TakeCall → Self → Type 0 };

    /// Moves the next bytes into the front of the room, as many as it likes but at least one, and
    /// says how many; or says that none are left, or that the call failed.
    fn take(&mut self, room: &mut [u8]) -> Took
        requires { 0 < length room.old }
        ensures did { did self.old (Take room.old room.new result) self.new }
        ensures taken { Takes (left self.old) (left self.new) room.old room.new result }
        ensures cause { TakeCause (faults self.old) (faults self.new) result };

    /// What a call does to the content and the count.
    ghost means: { (old : Self) (call : TakeCall) (new : Self) → did old call new → TakeMeans (left old) (faults old) call (left new) (faults new) };
}

/// Takes bytes in order.
pub trait Sink {
    /// The bytes put so far, where they are told.
    ghost sofar: { Self → Option (List ℕ) };

    /// How often a call has failed.
    ghost faults: { Self → ℕ };

    /// The call was made on the one state, was answered so, and left the other.
    ghost did: { Self → PutCall → Self → Type 0 };

    /// Appends bytes from the front of the piece, as many as it likes but at least one, and says how
    /// many; or says that the call failed.
    fn put(&mut self, piece: &[u8]) -> Put
        requires { 0 < length piece.now }
        ensures did { did self.old (PutPiece piece.now result) self.new }
        ensures put { Puts (sofar self.old) (sofar self.new) piece.now result }
        ensures cause { PutCause (faults self.old) (faults self.new) result };

    /// What a call does to the content and the count.
    ghost means: { (old : Self) (call : PutCall) (new : Self) → did old call new → PutMeans (sofar old) (faults old) call (sofar new) (faults new) };
}

/// Keeps files by their names.
pub trait Files {
    /// The bytes at each name, where they are told.
    ghost held: { Self → Option (List ℕ → Option (List ℕ)) };

    /// How often a call has failed.
    ghost faults: { Self → ℕ };

    /// The call was made on the one state, was answered so, and left the other.
    ghost did: { Self → FileCall → Self → Type 0 };

    /// The bytes of the file of this name, or that there is none, that the call failed, or that
    /// memory ran out.
    fn read(&mut self, alloc: Global, name: &Name) -> Got
        ensures did { did self.old (ReadCall name.now result) self.new }
        ensures read { Reads (held self.old) (held self.new) name.now result }
        ensures cause { ReadCause (faults self.old) (faults self.new) result };

    /// Makes these bytes the whole file of this name. After a failure the file of this name may hold
    /// anything; after want of memory it is as before.
    fn write(&mut self, alloc: Global, name: &Name, bytes: &Bytes) -> Result<(), FileFault>
        ensures did { did self.old (WriteCall name.now bytes.now result) self.new }
        ensures written { Writes (held self.old) (held self.new) name.now bytes.now result }
        ensures cause { WriteCause (faults self.old) (faults self.new) result };

    /// What a call does to the content and the count.
    ghost means: { (old : Self) (call : FileCall) (new : Self) → did old call new → FileMeans (held old) (faults old) call (held new) (faults new) };
}
