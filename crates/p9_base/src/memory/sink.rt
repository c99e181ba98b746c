// A sink in memory.
ghost use Rattle.std.specs.Prelude.{◌≡◌, ◌<◌, [], IfOk, length};

use crate::bytes::{Calls, NoMemory};
use crate::memory::count::CallCount;
use crate::outside::{Put, Sink};
use std::alloc::Global;
use std::marker::Model;

/// Keeps the bytes that are put, as many as it has room for.
#[derive(Drop)]
pub struct MemSink {
    bytes: Vec<u8>,
    room: usize,
    count: CallCount,
}

impl Model for MemSink {
    ghost use Rattle.std.specs.Prelude.{◌≤◌, vec_len};
    ghost use Rattle.std.specs.Vec.{vec_capacity};
    ghost use Rattle.p9_base.specs.Memory.{SinkState};

    ghost Value = { SinkState };

    ghost view = { λ s. record { sofar = s.bytes.items; room = s.room; faults = s.count } };

    ghost invariant = { λ s. (s.room ≤ vec_capacity s.bytes) × (vec_len s.bytes ≤ s.room) };
}

impl MemSink {
    /// A sink with room for so many bytes, of which the calls with these numbers, from 0, fail.
    pub fn new(alloc: Global, room: usize, fails: Calls) -> Result<MemSink, NoMemory>
        ensures { IfOk result (λ sink. sink ≡ record { sofar = []; room = room; faults = record { fails = fails; calls = 0; failed = 0 } }) }
    {
        match Vec::with_capacity(alloc, room) {
            Ok(bytes) => Ok(MemSink {
                bytes,
                room,
                count: CallCount::new(fails),
            }),
            Err(_) => Err(NoMemory),
        }
    }

    /// All that was put so far.
    pub fn bytes(&self) -> &[u8]
        ensures { result.now ≡ self.now.sofar }
    {
        &self.bytes
    }
}

impl Sink for MemSink {
    ghost use Rattle.std.specs.Prelude.{Some};
    ghost use Rattle.p9_base.specs.Outside.{PutMeans};
    ghost use Rattle.p9_base.specs.Memory.{SinkPuts};

    ghost sofar = { λ s. Some s.sofar };

    ghost faults = { λ s. s.faults.failed };

    ghost did = { λ s c t. SinkPuts s c t × PutMeans (Some s.sofar) s.faults.failed c (Some t.sofar) t.faults.failed };

    ghost means = { λ s c t h. h.1 };

    fn put(&mut self, piece: &[u8]) -> Put {
        let had = self.bytes.len();
        if self.count.is_to_fail() || self.room <= had {
            self.count.fail();
            return Put::Failed;
        }
        self.count.succeed();
        let count = piece.len().min(self.room - had);
        match self.bytes.extend_from_slice(&piece[..count]) {
            Ok(()) => Put::Wrote(count),
            // The memory is there since the sink was made.
            Err(_) => unreachable!(),
        }
    }
}
