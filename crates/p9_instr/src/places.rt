// The places inside an instruction at which a field may come, and what the field makes of them.
ghost use Rattle.std.specs.Prelude.{◌≡◌};
ghost use Rattle.p9_object.specs.Bytes.{width_bytes, operand_width, instruction_width};
ghost use Rattle.p9_instr.specs.Places.{operand_place, instruction_place};

use p9_abs::{Abs, Op, Operand, Operands};

/// How many symbols the module has, and what is known of the function: its frame, and how many
/// instructions it has.
#[derive(Clone, Copy, Debug, PartialEq, Eq)]
pub struct Limits {
    pub symbols: u32,
    pub frame: u32,
    pub total: u32,
}

/// A place in an operand that is no register: at the number of its kind, or at one of its numbers.
#[derive(Clone, Copy, Debug, PartialEq, Eq)]
pub enum OperandPlace {
    Kind,
    Constant,
    AddressSymbol,
    AddressOffset(u32),
    ArgumentAddress,
    FrameAddress,
    Symbol,
    Offset(u32),
    Argument,
    FrameOffset,
    Base,
    BaseOffset(u8),
    Label,
    Function,
}

/// What a field makes of such a place: nothing, a register that is to come, another place, or an
/// operand.
#[derive(Clone, Copy, Debug, PartialEq, Eq)]
pub enum OperandTurn {
    Bad,
    Register,
    Stay(OperandPlace),
    Whole(Operand),
}

/// A place in an instruction: at its operation, or behind some of its operands.
#[derive(Drop)]
pub enum InstructionPlace {
    Operation,
    Register(Op, Operands),
    Operand(Op, Operands, OperandPlace),
}

/// What a field makes of a place in an instruction.
#[derive(Drop)]
pub enum InstructionTurn {
    Bad,
    Stay(InstructionPlace),
    Whole(Abs),
}

fn operand_width(place: OperandPlace) -> usize
    ensures { result ≡ width_bytes (operand_width (operand_place place)) }
{
    match place {
        OperandPlace::Kind | OperandPlace::Base => 1,
        _ => 4,
    }
}

/// How many bytes the field at the place has.
pub fn instruction_width(place: &InstructionPlace) -> usize
    ensures { result ≡ width_bytes (instruction_width (instruction_place place.now)) }
{
    match place {
        InstructionPlace::Operation => 1,
        InstructionPlace::Register(_, _) => 1,
        InstructionPlace::Operand(_, _, place) => operand_width(*place),
    }
}
