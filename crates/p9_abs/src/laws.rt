// What holds of abstract code, as contracts of functions that do nothing.

ghost use Rattle.p9_abs.specs.Laws.{MemoryStays, WordsStay, SilentSteps, StackStays, BannedStay, OutputGrows, ReachedByWays, KeepsCompose, RunsCompose, EndedRunsStay, ChosenIsChosen, NoneIsUndefined};
ghost use Rattle.p9_abs.specs.Examples.{KeptWordIsBanned, KeptWordIsFreedByReturn, OutsideIsUndefined, MisalignedIsUndefined, OverflowIsUndefined, DivisionIsUndefined, CallOfNoFunction, FloorIsUndefined, SystemStopIsUndefined, GapIsUndefined, LiveWhereRead, RegionOfStoreAndRead, CostByDepth};

/// What each step leaves: memory's sizes and the bytes below the data; words and bytes; output and
/// input, but for a system call, and what was written; R29 to R31; the bytes of the stack that may
/// not be touched.
pub fn step_laws()
    ensures memory { MemoryStays }
    ensures words { WordsStay }
    ensures silent { SilentSteps }
    ensures output { OutputGrows }
    ensures stack { StackStays }
    ensures banned { BannedStay }
{}

/// Code over automatics: what can be reached, and code that keeps the meaning of code that does.
pub fn code_laws()
    ensures reached { ReachedByWays }
    ensures composed { KeepsCompose }
{}

/// Runs of several modules, and the definition that a name's uses stand for.
pub fn program_laws()
    ensures composed { RunsCompose }
    ensures ended { EndedRunsStay }
    ensures chosen { ChosenIsChosen }
    ensures undefined { NoneIsUndefined }
{}

/// Small programs: each kind of undefined step, and what lies next to it and is defined.
pub fn undefined_examples()
    ensures kept { KeptWordIsBanned }
    ensures freed { KeptWordIsFreedByReturn }
    ensures outside { OutsideIsUndefined }
    ensures misaligned { MisalignedIsUndefined }
    ensures overflow { OverflowIsUndefined }
    ensures division { DivisionIsUndefined }
    ensures no_function { CallOfNoFunction }
    ensures floor { FloorIsUndefined }
    ensures system { SystemStopIsUndefined }
    ensures gap { GapIsUndefined }
{}

/// A small function: where its automatic is live, its region, and what a register for it saves.
pub fn live_examples()
    ensures live { LiveWhereRead }
    ensures region { RegionOfStoreAndRead }
    ensures cost { CostByDepth }
{}
