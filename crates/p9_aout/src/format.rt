// The parts of an executable, and why bytes are none.
use p9_base::{Bytes, Name};
use std::alloc::AllocError;
use thiserror::Error;

/// What an executable holds: the instructions, the first bytes of the data, how many zero bytes
/// follow these, the address of the first instruction to run, and the names of places.
#[derive(Drop)]
pub struct Image {
    pub entry: u32,
    pub text: Bytes,
    pub init: Bytes,
    pub bss: u32,
    pub syms: Vec<AoutSym>,
}

/// A named place. By the letter a debugger tells text, data and bss apart, and global names, which
/// have a capital, from local ones.
#[derive(Drop)]
pub struct AoutSym {
    pub value: u32,
    pub letter: u8,
    pub name: Name,
}

/// Why bytes are no executable, or that memory ran out.
#[derive(Clone, Copy, Debug, PartialEq, Eq, Drop, Error)]
pub enum AoutFault {
    #[error("magic number {0}")]
    BadMagic(u32),
    #[error("fewer than {0} bytes")]
    ShortFile(u64),
    #[error("bad sizes or entry")]
    BadSegment,
    #[error("no memory")]
    Memory,
}

impl From<AllocError> for AoutFault {
    ghost use Rattle.std.specs.Prelude.{◌≡◌};
    ghost use Rattle.p9_aout.specs.declared.format.AoutFault.TheVariants.{Memory};

    ghost from_gives = { λ _ fault. fault ≡ Memory };

    fn from(_: AllocError) -> AoutFault {
        AoutFault::Memory
    }
}

// The eight words at the head of a file. The last two are the sizes of tables for debuggers, which
// no program here makes.
#[derive(Clone, Copy, Drop)]
pub struct Header {
    pub magic: u32,
    pub text_size: u32,
    pub data_size: u32,
    pub bss_size: u32,
    pub syms_size: u32,
    pub entry: u32,
    pub sp_size: u32,
    pub pc_size: u32,
}

// The bytes of a header.
pub const HEADER_SIZE: usize = 32;

// The file is for the MIPS R3000, big-endian.
pub const MAGIC: u32 = 0x407;

// Where the text lies: the header is loaded before it, at 0x1000.
pub const TEXT_START: u32 = 0x1020;

pub const MOST_TEXT: u32 = 33_554_432;

// Of data and bss together.
pub const MOST_DATA: u32 = 16_777_216;
