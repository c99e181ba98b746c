// Why an initialiser is refused.
use p9_base::NoMemory;
use std::alloc::AllocError;
use thiserror::Error;

/// Why an initialiser is refused: an item is no constant, or it is too many. The number is that of the
/// item's node.
#[derive(Clone, Copy, PartialEq, Eq, Debug, Drop, Error)]
pub enum InitFault {
    #[error("node {0} is no constant")]
    NotConstant(u32),
    #[error("node {0} is an item too many")]
    TooManyItems(u32),
    #[error("no memory")]
    Memory,
}

impl From<AllocError> for InitFault {
    ghost use Rattle.std.specs.Prelude.{◌≡◌};
    ghost use Rattle.p9_init.specs.declared.fault.InitFault.TheVariants.{Memory};

    ghost from_gives = { λ _ fault. fault ≡ Memory };

    fn from(_: AllocError) -> InitFault {
        InitFault::Memory
    }
}

impl From<NoMemory> for InitFault {
    ghost use Rattle.std.specs.Prelude.{◌≡◌};
    ghost use Rattle.p9_init.specs.declared.fault.InitFault.TheVariants.{Memory};

    ghost from_gives = { λ _ fault. fault ≡ Memory };

    fn from(_: NoMemory) -> InitFault {
        InitFault::Memory
    }
}
