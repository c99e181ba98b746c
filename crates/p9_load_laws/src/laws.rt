// What holds of executables, as a contract of a function that does nothing.
ghost use Rattle.p9_load_laws.specs.Mapping.{ScheduleMaps, ScheduleLeavesRoom};
ghost use Rattle.p9_load_laws.specs.Showing.{MachineShows};

/// From the start of an executable whose text has the scheduled lines of modules and whose data are
/// theirs, the machine shows what their run shows: after n steps of theirs without an undefined
/// operation the same exit, or the same output and input left after at least n instructions, each within
/// 24n + 24.
pub fn executable_laws()
    ensures { MachineShows }
{}

/// The addresses at which a schedule's lines are entered meet what the run of modules asks of a map of
/// addresses, and the data behind them find room.
pub fn map_laws()
    ensures maps { ScheduleMaps }
    ensures room { ScheduleLeavesRoom }
{}
