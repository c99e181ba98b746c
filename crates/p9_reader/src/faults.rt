// Why bytes are refused.
use p9_base::NoMemory;
use std::alloc::AllocError;
use thiserror::Error;

/// Why bytes are no object, or that memory ran out. An object is bad at the first byte of the first
/// field with which no object goes on, at the number of the bytes where they end inside an object,
/// or at an object's length where bytes follow it.
#[derive(Clone, Copy, Debug, PartialEq, Eq, Drop, Error)]
pub enum ObjFault {
    #[error("no object: byte {0}")]
    BadObject(usize),
    #[error("version {0} of objects")]
    Version(u32),
    #[error("no memory")]
    Memory,
}

impl From<AllocError> for ObjFault {
    ghost use Rattle.std.specs.Prelude.{◌≡◌};
    ghost use Rattle.p9_reader.specs.declared.faults.ObjFault.TheVariants.{Memory};

    ghost from_gives = { λ _ fault. fault ≡ Memory };

    fn from(_: AllocError) -> ObjFault {
        ObjFault::Memory
    }
}

impl From<NoMemory> for ObjFault {
    ghost use Rattle.std.specs.Prelude.{◌≡◌};
    ghost use Rattle.p9_reader.specs.declared.faults.ObjFault.TheVariants.{Memory};

    ghost from_gives = { λ _ fault. fault ≡ Memory };

    fn from(_: NoMemory) -> ObjFault {
        ObjFault::Memory
    }
}
