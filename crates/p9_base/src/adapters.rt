// The real outside. It tells no content, and counts its failures.
ghost use Rattle.std.specs.Prelude.{◌≡◌};

use crate::bytes::{Bytes, Name};
use crate::outside::{FileFault, Files, Got, Put, Sink, Source, Took};
use std::alloc::Global;
use std::io::{ErrorKind, Read, Write};
use std::{fs, rt};

// The longest file that is read, in bytes.
const FILE_LIMIT: u64 = 1_073_741_824;

/// A source over any reader. What the reader holds isn't told.
#[derive(Drop)]
pub struct ReadSource<R: Read + Drop> {
    reader: R,
    failed: u64,
}

impl<R: Read + Drop> ReadSource<R> {
    /// A source that has not failed yet.
    pub fn new(reader: R) -> ReadSource<R>
        ensures { result.failed ≡ 0 }
    {
        ReadSource { reader, failed: 0 }
    }
}

impl<R: Read + Drop> Source for ReadSource<R> {
    ghost use Rattle.std.specs.Prelude.{None};
    ghost use Rattle.p9_base.specs.Outside.{TakeMeans};

    ghost left = { λ _. None };

    ghost faults = { λ s. s.failed };

    ghost did = { λ s c t. TakeMeans None s.failed c None t.failed };

    ghost means = { λ s c t h. h };

    fn take(&mut self, room: &mut [u8]) -> Took {
        match self.reader.read(room) {
            Ok(0) => Took::End,
            Ok(count) => Took::Got(count),
            Err(_) => {
                self.failed = self.failed.saturating_add(1);
                Took::Failed
            }
        }
    }
}

/// A sink over any writer. What the writer holds isn't told.
#[derive(Drop)]
pub struct WriteSink<W: Write + Drop> {
    writer: W,
    failed: u64,
}

impl<W: Write + Drop> WriteSink<W> {
    /// A sink that has not failed yet.
    pub fn new(writer: W) -> WriteSink<W>
        ensures { result.failed ≡ 0 }
    {
        WriteSink { writer, failed: 0 }
    }
}

impl<W: Write + Drop> Sink for WriteSink<W> {
    ghost use Rattle.std.specs.Prelude.{None};
    ghost use Rattle.p9_base.specs.Outside.{PutMeans};

    ghost sofar = { λ _. None };

    ghost faults = { λ s. s.failed };

    ghost did = { λ s c t. PutMeans None s.failed c None t.failed };

    ghost means = { λ s c t h. h };

    // A writer that takes nothing counts as a failure.
    fn put(&mut self, piece: &[u8]) -> Put {
        match self.writer.write(piece) {
            Ok(count) if count > 0 => Put::Wrote(count),
            _ => {
                self.failed = self.failed.saturating_add(1);
                Put::Failed
            }
        }
    }
}

/// The files of the system, by the paths that their names spell in UTF-8. What they hold isn't told.
#[derive(Drop)]
pub struct HostFiles<R: rt::Files + AllocGlobal + Drop> {
    runtime: R,
    failed: u64,
}

impl<R: rt::Files + AllocGlobal + Drop> HostFiles<R> {
    /// A store that has not failed yet.
    pub fn new(runtime: R) -> HostFiles<R>
        ensures { result.failed ≡ 0 }
    {
        HostFiles { runtime, failed: 0 }
    }

    // The file at a path, unless it is longer than the limit.
    fn found(&self, path: &str) -> Got {
        match fs::metadata(&self.runtime, path) {
            Ok(about) if about.len() > FILE_LIMIT => return Got::Failed,
            Ok(_) => {}
            Err(e) => return unread(e.kind()),
        }
        match fs::read(&self.runtime, path) {
            Ok(list) if list.len() as u64 <= FILE_LIMIT => Got::Found(Bytes { list }),
            Ok(_) => Got::Failed,
            Err(e) => unread(e.kind()),
        }
    }
}

// Why a file was not read.
fn unread(kind: ErrorKind) -> Got {
    match kind {
        ErrorKind::NotFound => Got::Absent,
        ErrorKind::OutOfMemory => Got::NoMemory,
        _ => Got::Failed,
    }
}

impl<R: rt::Files + AllocGlobal + Drop> Files for HostFiles<R> {
    ghost use Rattle.std.specs.Prelude.{None};
    ghost use Rattle.p9_base.specs.Outside.{FileMeans};

    ghost held = { λ _. None };

    ghost faults = { λ s. s.failed };

    ghost did = { λ s c t. FileMeans None s.failed c None t.failed };

    ghost means = { λ s c t h. h };

    fn read(&mut self, _alloc: Global, name: &Name) -> Got {
        let got = match str::from_utf8(&name.list) {
            Ok(path) => self.found(path),
            Err(_) => Got::Failed,
        };
        match got {
            Got::Failed => {
                self.failed = self.failed.saturating_add(1);
                Got::Failed
            }
            got => got,
        }
    }

    fn write(&mut self, _alloc: Global, name: &Name, bytes: &Bytes) -> Result<(), FileFault> {
        if let Ok(path) = str::from_utf8(&name.list) {
            match fs::write(&self.runtime, path, bytes.list.as_slice()) {
                Ok(()) => return Ok(()),
                Err(e) if e.kind() == ErrorKind::OutOfMemory => return Err(FileFault::NoMemory),
                Err(_) => {}
            }
        }
        self.failed = self.failed.saturating_add(1);
        Err(FileFault::Failed)
    }
}
