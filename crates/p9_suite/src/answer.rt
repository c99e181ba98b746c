// What a command answers.
use crate::message::Message;
use p9_aout::AoutFault;
use p9_asm::AsmFault;
use p9_base::{HaltCause, Name, NoMemory};
use p9_load::LoadFault;
use p9_names::LinkFault;
use p9_reader::ObjFault;

/// The answer of a command, with what its line prints.
#[derive(Drop)]
pub enum Answer {
    /// The command did its work, and a program that it ran has ended with the empty text.
    Done,
    /// The words are no command.
    Usage,
    /// The command was ended before it ran a program.
    Refused(Refusal),
    /// A program ran, and came to this end.
    Ran(End),
}

/// Why a command ends early, by what refused.
#[derive(Drop)]
pub enum Refusal {
    /// This file isn't there.
    Absent(Name),
    /// A call on the store failed at this file.
    StoreFault(Name),
    /// This file hasn't the form that is compiled.
    NotBuilt(Name),
    /// This assembler file is refused.
    Assembly(Name, AsmFault),
    /// This file is no object.
    Object(Name, ObjFault),
    /// The modules of C files don't join.
    Link(LinkFault),
    /// The modules don't join, or don't fit.
    Load(LoadFault),
    /// This file is no executable.
    Executable(Name, AoutFault),
    /// Memory ran out.
    Memory,
}

/// How a program's run comes to its end.
#[derive(Drop)]
pub enum End {
    /// The program has ended with this text, which isn't empty.
    Exit(Message),
    /// A call on the input failed.
    ReadFault,
    /// A call on the output failed.
    WriteFault,
    /// The machine halted, for this cause at the instruction of this address.
    Halted(HaltCause, u32),
    /// So many instructions ran, and the program would go on.
    Spent(u32),
}

impl From<NoMemory> for Refusal {
    ghost use Rattle.std.specs.Prelude.{◌≡◌};
    ghost use Rattle.p9_suite.specs.declared.answer.Refusal.TheVariants.{Memory};

    ghost from_gives = { λ _ why. why ≡ Memory };

    fn from(_: NoMemory) -> Refusal {
        Refusal::Memory
    }
}
