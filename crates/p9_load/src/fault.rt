// Why modules are not loaded.
use p9_base::{Name, NoMemory};
use p9_names::LinkFault;
use p9_place::PlaceFault;
use p9_text::ExpandFault;
use thiserror::Error;

/// Why modules are not loaded. Modules are named by their numbers, the built-in one last.
#[derive(Debug, Drop, Error)]
pub enum LoadFault {
    #[error("{name:?} is defined in module {i} and again in module {j}")]
    Twice { name: Name, i: u32, j: u32 },
    #[error("no module defines main")]
    NoMain,
    #[error("main of module {i} is no function of a type that it may have")]
    MainType { i: u32 },
    #[error("module {i} uses {name:?}, which no module defines")]
    Unresolved { name: Name, i: u32 },
    #[error("modules {i} and {j} disagree on {name:?}")]
    Disagree { name: Name, i: u32, j: u32 },
    #[error("data and common objects take {0} bytes")]
    DataTooLarge(u64),
    #[error("instructions and entries weigh {0} words")]
    TextTooLarge(u64),
    #[error("out of memory")]
    Memory,
}

impl From<NoMemory> for LoadFault {
    ghost use Rattle.std.specs.Prelude.{◌≡◌};
    ghost use Rattle.p9_load.specs.declared.fault.LoadFault.TheVariants.{Memory};

    ghost from_gives = { λ _ fault. fault ≡ Memory };

    fn from(_: NoMemory) -> LoadFault {
        LoadFault::Memory
    }
}

impl From<LinkFault> for LoadFault {
    ghost use Rattle.std.specs.Prelude.{◌≡◌};
    ghost use Rattle.p9_load.specs.Faults.{of_link};

    ghost from_gives = { λ old new. new ≡ of_link old };

    fn from(fault: LinkFault) -> LoadFault {
        match fault {
            LinkFault::Twice { name, i, j } => LoadFault::Twice { name, i, j },
            LinkFault::NoMain => LoadFault::NoMain,
            LinkFault::MainType { i } => LoadFault::MainType { i },
            LinkFault::Unresolved { name, i } => LoadFault::Unresolved { name, i },
            LinkFault::Disagree { name, i, j } => LoadFault::Disagree { name, i, j },
            LinkFault::Memory => LoadFault::Memory,
        }
    }
}

impl From<PlaceFault> for LoadFault {
    ghost use Rattle.std.specs.Prelude.{◌≡◌};
    ghost use Rattle.p9_load.specs.Faults.{of_place};

    ghost from_gives = { λ old new. new ≡ of_place old };

    fn from(fault: PlaceFault) -> LoadFault {
        match fault {
            PlaceFault::DataTooLarge(bytes) => LoadFault::DataTooLarge(bytes),
            PlaceFault::Memory => LoadFault::Memory,
        }
    }
}

impl From<ExpandFault> for LoadFault {
    ghost use Rattle.std.specs.Prelude.{◌≡◌};
    ghost use Rattle.p9_load.specs.Faults.{of_expand};

    ghost from_gives = { λ old new. new ≡ of_expand old };

    fn from(fault: ExpandFault) -> LoadFault {
        match fault {
            ExpandFault::TextTooLarge(words) => LoadFault::TextTooLarge(words),
            ExpandFault::Memory => LoadFault::Memory,
        }
    }
}
