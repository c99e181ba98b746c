// The reader that is given an object's bytes in pieces.
ghost use Rattle.std.specs.Prelude.{◌≡◌, ◌⊎◌, ◌++◌, [], None, Some, Err, IfOk, OnOk, IfErr};
ghost use Rattle.p9_object.specs.Bytes.{reading};
ghost use Rattle.p9_reader.specs.declared.faults.ObjFault.TheVariants.{Memory};
ghost use Rattle.p9_reader.specs.Answers.{refusal, answer};

use crate::faults::ObjFault;
use crate::fields::{all_taken, module_at};
use crate::progress::{Place, Progress};
use p9_abs::AModule;
use p9_base::NoMemory;
use p9_steps::State;
use std::alloc::Global;
use std::marker::Model;
use std::mem;

// Room for the bytes of a small object.
const FIRST_ROOM: usize = 1024;

/// A reader of an object whose bytes come in pieces. It judges each field as soon as its last byte is
/// there, keeps the first fault, and takes no memory by a count that it reads.
#[derive(Drop)]
pub struct ObjReader {
    given: Vec<u8>,
    progress: Progress,
}

impl Model for ObjReader {
    ghost use Rattle.p9_reader.specs.Readers.{Reader, fault_of, IsBehind};

    ghost Value = { Reader };

    ghost view = { λ r. record { given = r.given.items; fault = fault_of r.progress } };

    ghost invariant = { λ r. IsBehind r.given.items r.progress };
}

impl ObjReader {
    /// A reader that was given nothing.
    pub fn new(alloc: Global) -> Result<ObjReader, NoMemory>
        ensures given { IfOk result (λ reader. reader.given ≡ []) }
        ensures fault { IfOk result (λ reader. reader.fault ≡ None) }
    {
        let given = Vec::with_capacity(alloc, FIRST_ROOM)?;
        let progress = Progress::Reading(Place {
            taken: 0,
            state: State::Magic,
        });
        Ok(ObjReader { given, progress })
    }

    /// Takes the next bytes. After a fault the reader is as if it had not been given them, but for the
    /// fault, which it keeps: it answers it to any further bytes.
    pub fn feed(&mut self, alloc: Global, piece: &[u8]) -> Result<(), ObjFault>
        ensures fed { OnOk result (self.new.given ≡ self.old.given ++ piece.now) }
        ensures goes_on { OnOk result (self.new.fault ≡ None) }
        ensures had_none { OnOk result (self.old.fault ≡ None) }
        ensures unbroken { OnOk result (refusal (self.old.given ++ piece.now) ≡ None) }
        ensures as_before { IfErr result (λ _. self.new.given ≡ self.old.given) }
        ensures keeps { IfErr result (λ fault. self.new.fault ≡ Some fault) }
        ensures answers_again { (fault : _) → self.old.fault ≡ Some fault → result ≡ Err fault }
        ensures first { IfErr result (λ fault. self.old.fault ≡ None
            → (fault ≡ Memory) ⊎ (refusal (self.old.given ++ piece.now) ≡ Some fault)) }
    {
        match mem::replace(&mut self.progress, Progress::Failed(ObjFault::Memory)) {
            Progress::Reading(place) => {
                let before = self.given.len();
                self.given.extend_from_slice(piece)?;
                match all_taken(alloc, &self.given, place) {
                    Ok(place) => {
                        self.progress = Progress::Reading(place);
                        Ok(())
                    }
                    Err(fault) => {
                        self.given.truncate(before);
                        self.progress = Progress::Failed(fault);
                        Err(fault)
                    }
                }
            }
            Progress::Failed(kept) => {
                self.progress = Progress::Failed(kept);
                Err(kept)
            }
        }
    }

    /// The module of the bytes that were given.
    pub fn finish(self) -> Result<AModule, ObjFault>
        ensures whole { self.fault ≡ None → result ≡ answer self.given }
        ensures kept { (fault : _) → self.fault ≡ Some fault → result ≡ Err fault }
    {
        let ObjReader { given, progress } = self;
        match progress {
            Progress::Reading(place) => module_at(place.state, given.len()),
            Progress::Failed(fault) => Err(fault),
        }
    }
}
