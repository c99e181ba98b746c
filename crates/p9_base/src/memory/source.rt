// A source in memory.
ghost use Rattle.std.specs.Prelude.{◌≡◌, ◌<◌, length};

use crate::bytes::{Bytes, Calls};
use crate::memory::count::CallCount;
use crate::outside::{Source, Took};
use std::marker::Model;

/// Gives its bytes in order, as many at a time as the room holds.
#[derive(Drop)]
pub struct MemSource {
    bytes: Bytes,
    taken: usize,
    count: CallCount,
}

impl Model for MemSource {
    ghost use Rattle.std.specs.Prelude.{◌≤◌, length, drop};
    ghost use Rattle.p9_base.specs.Memory.{SourceState};

    ghost Value = { SourceState };

    ghost view = { λ s. record { left = drop s.taken s.bytes; faults = s.count } };

    ghost invariant = { λ s. s.taken ≤ length s.bytes };
}

impl MemSource {
    /// A source of these bytes, of which the calls with these numbers, from 0, fail.
    pub fn new(bytes: Bytes, fails: Calls) -> MemSource
        ensures { result ≡ record { left = bytes; faults = record { fails = fails; calls = 0; failed = 0 } } }
    {
        MemSource {
            bytes,
            taken: 0,
            count: CallCount::new(fails),
        }
    }
}

impl Source for MemSource {
    ghost use Rattle.std.specs.Prelude.{Some};
    ghost use Rattle.p9_base.specs.Outside.{TakeMeans};
    ghost use Rattle.p9_base.specs.Memory.{SourceTakes};

    ghost left = { λ s. Some s.left };

    ghost faults = { λ s. s.faults.failed };

    ghost did = { λ s c t. SourceTakes s c t × TakeMeans (Some s.left) s.faults.failed c (Some t.left) t.faults.failed };

    ghost means = { λ s c t h. h.1 };

    fn take(&mut self, room: &mut [u8]) -> Took {
        if self.count.is_to_fail() {
            self.count.fail();
            return Took::Failed;
        }
        self.count.succeed();
        let rest = &self.bytes.list[self.taken..];
        if rest.is_empty() {
            return Took::End;
        }
        let count = rest.len().min(room.len());
        room[..count].copy_from_slice(&rest[..count]);
        self.taken += count;
        Took::Got(count)
    }
}
