// Why a file is refused.
use p9_base::{Name, NoMemory};
use p9_lex::LexFault;

/// Why a file is no assembler file, with the line, from 1, that the break is told at.
#[derive(Debug, Drop)]
pub enum AsmFault {
    /// The file has no tokens.
    Lex(LexFault),
    /// The line is no statement, or breaks a rule on statements.
    AsmSyntax { line: u32 },
    /// The line names a register that is kept for the system or the loader, or writes one of R29,
    /// R30 and R31.
    Reserved { line: u32, register: u8 },
    /// The line branches to a label that its function doesn't have.
    NoLabel { line: u32, name: Name },
    /// The function has the line's label already.
    LabelTwice { line: u32, name: Name },
    /// Memory ran out.
    Memory,
}

impl From<NoMemory> for AsmFault {
    ghost use Rattle.std.specs.Prelude.{◌≡◌};
    ghost use Rattle.p9_asm.specs.declared.fault.AsmFault.TheVariants.{Memory};

    ghost from_gives = { λ _ fault. fault ≡ Memory };

    fn from(_: NoMemory) -> AsmFault {
        AsmFault::Memory
    }
}
