// A store of files in memory.
ghost use Rattle.std.specs.Prelude.{◌≡◌, MatchOption, OnOk, OnErr, None, Some, map};
ghost use Rattle.p9_base.specs.Memory.{held_by};
ghost use Rattle.p9_base.specs.Outside.{OthersAsBefore};

use crate::bytes::{Bytes, Calls, Entry, Name, NoMemory};
use crate::memory::count::CallCount;
use crate::outside::{FileFault, Files, Got};
use std::alloc::Global;
use std::marker::Model;

/// Files by their names. What is written last under a name stands before what was there.
#[derive(Drop)]
pub struct MemFiles {
    files: Vec<Entry>,
    count: CallCount,
}

impl Model for MemFiles {
    ghost use Rattle.p9_base.specs.Memory.{StoreState};

    ghost Value = { StoreState };

    ghost view = { λ m. record { files = m.files.items; faults = m.count } };
}

impl MemFiles {
    ghost use Rattle.p9_base.specs.Memory.{HaveOwnNames};

    /// A store of these files, of which the calls with these numbers, from 0, fail; reads and
    /// writes are counted in one sequence.
    pub fn new(files: Vec<Entry>, fails: Calls) -> MemFiles
        requires { HaveOwnNames files.items }
        ensures { result ≡ record { files = files.items; faults = record { fails = fails; calls = 0; failed = 0 } } }
    {
        MemFiles {
            files,
            count: CallCount::new(fails),
        }
    }
}

// The bytes of the first file of that name.
fn find<'a>(files: &'a [Entry], name: &Name) -> Option<&'a Bytes>
    ensures { MatchOption result (held_by files.now name.now ≡ None) (λ b. held_by files.now name.now ≡ Some b.now) }
{
    let mut rest = files;
    while let [entry, after @ ..] = rest {
        if entry.name.list.as_slice() == name.list.as_slice() {
            return Some(&entry.bytes);
        }
        rest = after;
    }
    None
}

// Sets the bytes of a name.
fn store(alloc: Global, files: &mut Vec<Entry>, name: &Name, bytes: &Bytes) -> Result<(), NoMemory>
    ensures set { OnOk result (held_by files.new.items name.now ≡ Some bytes.now) }
    ensures others { OnOk result (OthersAsBefore (held_by files.old.items) (held_by files.new.items) name.now) }
    ensures err { OnErr result (files.new.items ≡ files.old.items) }
{
    let entry = Entry {
        name: name.copied(alloc)?,
        bytes: bytes.copied(alloc)?,
    };
    files.insert(0, entry)?;
    Ok(())
}

impl Files for MemFiles {
    ghost use Rattle.std.specs.Prelude.{Some};
    ghost use Rattle.p9_base.specs.Outside.{FileMeans};
    ghost use Rattle.p9_base.specs.Memory.{StoreDoes, held_by};

    ghost held = { λ m. Some (held_by m.files) };

    ghost faults = { λ m. m.faults.failed };

    ghost did = { λ s c t. StoreDoes s c t × FileMeans (Some (held_by s.files)) s.faults.failed c (Some (held_by t.files)) t.faults.failed };

    ghost means = { λ s c t h. h.1 };

    fn read(&mut self, alloc: Global, name: &Name) -> Got {
        if self.count.is_to_fail() {
            self.count.fail();
            return Got::Failed;
        }
        self.count.succeed();
        match find(&self.files, name) {
            Some(bytes) => match bytes.copied(alloc) {
                Ok(bytes) => Got::Found(bytes),
                Err(_) => Got::NoMemory,
            },
            None => Got::Absent,
        }
    }

    fn write(&mut self, alloc: Global, name: &Name, bytes: &Bytes) -> Result<(), FileFault> {
        if self.count.is_to_fail() {
            self.count.fail();
            return Err(FileFault::Failed);
        }
        self.count.succeed();
        match store(alloc, &mut self.files, name, bytes) {
            Ok(()) => Ok(()),
            Err(_) => Err(FileFault::NoMemory),
        }
    }
}
