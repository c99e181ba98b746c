// What the lines of an instruction depend on, beside its form.

use p9_abs::Width;

/// A function: its module's number, what its entry takes from R29, and whether it keeps its return
/// address in memory.
#[derive(Clone, Copy, PartialEq, Eq, Debug)]
pub struct Setting {
    pub unit: u32,
    pub taken: u32,
    pub keeps: bool,
}

/// Where an instruction leads, by the numbers of instructions: `next` comes behind it, `goal` is
/// where its branch, jump or call goes, or none where the name that it calls is no function's, and
/// `short` says that a branch reaches the goal with its half word.
#[derive(Clone, Copy, PartialEq, Eq, Debug)]
pub struct Way {
    pub next: u32,
    pub goal: Option<u32>,
    pub short: bool,
}

/// What is done near a register: a load to a register, a store of one, or the address put into one.
#[derive(Clone, Copy, PartialEq, Eq, Debug)]
pub enum Access {
    Load(Width, u8),
    Store(Width, u8),
    Address(u8),
}
