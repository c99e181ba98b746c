// What holds of entries, as contracts of functions that do nothing.
ghost use Rattle.p9_entry.specs.Entering.{EntriesAreMatched, ThroughIsRight};

/// Behind the entry of a function, at a matched call for which there is room, the state is matched.
pub fn entries()
    ensures { EntriesAreMatched }
{}

/// The code `JAL inner; RET` is right for a function that gives what `inner` gives.
pub fn calls_through()
    ensures { ThroughIsRight }
{}
