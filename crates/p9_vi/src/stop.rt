// How a simulation stops.
use p9_r3k::HaltCause;

/// How a simulation stops.
#[derive(Clone, Copy, PartialEq, Eq, Debug)]
pub enum Stop {
    /// The program has exited.
    Exit,
    /// The program would go on.
    Budget,
    /// The machine has halted, for this cause at the instruction of this address.
    Halt(HaltCause, u32),
    /// A take of the input failed.
    ReadFault,
    /// A put on the output failed.
    WriteFault,
}

// How one instruction ends.
#[derive(Clone, Copy, PartialEq, Eq, Debug)]
pub enum Stepped {
    Done,
    ReadFault,
    WriteFault,
}
