use p9_base::NoMemory;
use thiserror::Error;

/// Why a type has no signature.
#[derive(Debug, Drop, Error)]
pub enum SigFault {
    #[error("the signature has more than 65536 bytes")]
    SignatureTooLong,
    #[error("out of memory")]
    Memory,
}

impl From<NoMemory> for SigFault {
    ghost use Rattle.std.specs.Prelude.{◌≡◌};
    ghost use Rattle.p9_sig.specs.declared.fault.SigFault.TheVariants.{Memory};

    ghost from_gives = { λ _ fault. fault ≡ Memory };

    fn from(_: NoMemory) -> SigFault {
        SigFault::Memory
    }
}
