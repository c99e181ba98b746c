// Why a unit has no tokens.
use p9_base::{Name, NoMemory};

/// Why a unit has no tokens. `file` is the file that breaks the rule, and `line` is counted from 1.
#[derive(Debug, Drop)]
pub enum CppFault {
    /// The named file isn't there.
    Absent(Name),
    BadByte { at: u32, file: Name, line: u32 },
    OpenComment { at: u32, file: Name, line: u32 },
    OpenText { at: u32, file: Name, line: u32 },
    WideNumber { at: u32, file: Name, line: u32 },
    /// An included file isn't there.
    NoFile { name: Name, file: Name, line: u32 },
    BadDirective { file: Name, line: u32 },
    /// An include inside as many others as the limit says.
    IncludeDepth { limit: u32, file: Name, line: u32 },
    /// The arguments of this macro are too few or too many, or have no end.
    MacroArgs { name: Name, file: Name, line: u32 },
    TooManyTokens { limit: u32, file: Name, line: u32 },
    /// The store failed at this name.
    Store(Name),
    Memory,
}

impl From<NoMemory> for CppFault {
    ghost use Rattle.std.specs.Prelude.{◌≡◌};
    ghost use Rattle.p9_cpp.specs.declared.fault.CppFault.{CppFault};

    ghost from_gives = { λ _ e. e ≡ CppFault.Memory };

    fn from(_: NoMemory) -> CppFault {
        CppFault::Memory
    }
}
