// What an instruction does, what a system call asks, and how a run ends.

/// Why the machine halts. The field of `Misaligned` is the access's address, that of `BadAddress`
/// the access's address, or for a system call the first byte that isn't allowed, and that of
/// `BadCall` the call's number.
#[derive(Clone, Copy, PartialEq, Eq, Debug)]
pub enum HaltCause {
    Fetch,
    BadWord,
    LoadHazard,
    HiLoHazard,
    SlotBranch,
    Misaligned(u32),
    BadAddress(u32),
    Divide,
    Overflow,
    Break,
    BadCall(u32),
}

/// Whether the machine runs on.
#[derive(Clone, Copy, PartialEq, Eq, Debug)]
pub enum Ending {
    Running,
    /// The exit's text has `length` bytes from `at` on.
    Exited { at: u32, length: u32 },
    /// The cause, and the address of the instruction that halted.
    Halted(HaltCause, u32),
}

/// What one instruction does, apart from when it happens.
#[derive(Clone, Copy, PartialEq, Eq, Debug)]
pub enum Effect {
    Write { register: u32, value: u32 },
    /// HI and LO are written.
    Pair { hi: u32, lo: u32 },
    /// A register is written from memory.
    Load { register: u32, value: u32 },
    StoreByte { at: u32, value: u32 },
    StoreHalf { at: u32, value: u32 },
    StoreWord { at: u32, value: u32 },
    /// A branch or jump to an address that its word names; it links register `link` even where it
    /// isn't taken. Register 0 links nothing.
    Branch { link: u32, taken: bool, to: u32 },
    /// A jump to an address from a register.
    JumpTo { link: u32, to: u32 },
    /// A system call.
    Call,
    Stop(HaltCause),
}

/// What a system call asks for.
#[derive(Clone, Copy, PartialEq, Eq, Debug)]
pub enum Asked {
    /// The exit's text has `length` bytes from `at` on.
    Exits { at: u32, length: u32 },
    /// A room of `count` bytes is to be filled from the input.
    Read { at: u32, count: u32 },
    /// `count` bytes are to be appended to the output.
    Write { at: u32, count: u32 },
    /// The answer is -1.
    Refused,
    Stop(HaltCause),
}
