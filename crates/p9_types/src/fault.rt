use p9_base::NoMemory;
use thiserror::Error;

/// Why a type has no layout that may be used.
#[derive(Debug, Drop, Error)]
pub enum TypeFault {
    #[error("the type is incomplete")]
    Incomplete,
    #[error("the type has more than 16777216 bytes")]
    BadConstant,
    #[error("out of memory")]
    Memory,
}

impl From<NoMemory> for TypeFault {
    ghost use Rattle.std.specs.Prelude.{◌≡◌};
    ghost use Rattle.p9_types.specs.declared.fault.TypeFault.TheVariants.{Memory};

    ghost from_gives = { λ _ fault. fault ≡ Memory };

    fn from(_: NoMemory) -> TypeFault {
        TypeFault::Memory
    }
}
