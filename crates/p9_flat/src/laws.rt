// Laws of the definitions in `specs/`. Each function does nothing; its contract is the law.
ghost use Rattle.p9_flat.specs.Laws.{CodeIsRight};
ghost use Rattle.p9_flat.specs.Machine.{MachineIsRight, StartIsRight};
ghost use Rattle.p9_flat.specs.Program.{ProgramsHaveTables};
ghost use Rattle.p9_flat.specs.Ending.{MachineEnds, ProgramsAreBrief, StartEnds};

/// The code of a function plays what the function's body does, wherever it stands and with any arguments.
/// What has no meaning in the source has none in the code, at the same node.
#[tactic(auto, using(crate::proofs::Whole::code_is_right))]
pub fn code_is_right()
    ensures { CodeIsRight }
{}

/// Each step of the machine keeps what its run comes to, or stops with it, over a table whose functions'
/// code plays their bodies.
#[tactic(auto, using(crate::proofs::Keeping::machine_is_right))]
pub fn machine_is_right()
    ensures { MachineIsRight }
{}

/// It begins a first call so that its run comes to what the call comes to.
#[tactic(auto, using(crate::proofs::Keeping::start_is_right))]
pub fn start_is_right()
    ensures { StartIsRight }
{}

/// The functions of a program have such a table, where its code has the code of each.
#[tactic(auto, using(crate::proofs::Programs::programs_have_tables))]
pub fn programs_have_tables()
    ensures { ProgramsHaveTables }
{}

/// Each step of the machine leaves fewer to be done, where no function goes on for long without a turn.
#[tactic(auto, using(crate::proofs::Ends::machine_ends))]
pub fn machine_ends()
    ensures { MachineEnds }
{}

/// At the start no more are left than the turns allow.
pub fn start_ends()
    ensures { StartEnds }
{}

/// A function goes on without a turn for no longer than its code is long.
pub fn programs_are_brief()
    ensures { ProgramsAreBrief }
{}
