// The table of global names, and why modules do not join.
use indexmap::IndexMap;
use p9_abs::Def;
use p9_base::{Name, NoMemory};
use thiserror::Error;

/// Each global name that a module defines, with the place of its definition.
#[derive(Drop)]
pub struct Table {
    pub defs: IndexMap<Name, Def>,
}

/// Why modules do not join. Modules are named by their numbers, the built-in one last.
#[derive(Debug, Drop, Error)]
pub enum LinkFault {
    #[error("{name:?} is defined in module {i} and again in module {j}")]
    Twice { name: Name, i: u32, j: u32 },
    #[error("no module defines main")]
    NoMain,
    #[error("main of module {i} is no function of a type that it may have")]
    MainType { i: u32 },
    #[error("module {i} uses {name:?}, which no module defines")]
    Unresolved { name: Name, i: u32 },
    #[error("modules {i} and {j} disagree on {name:?}")]
    Disagree { name: Name, i: u32, j: u32 },
    #[error("out of memory")]
    Memory,
}

impl From<NoMemory> for LinkFault {
    ghost use Rattle.std.specs.Prelude.{◌≡◌};
    ghost use Rattle.p9_names.specs.declared.table.LinkFault.TheVariants.{Memory};

    ghost from_gives = { λ _ fault. fault ≡ Memory };

    fn from(_: NoMemory) -> LinkFault {
        LinkFault::Memory
    }
}
