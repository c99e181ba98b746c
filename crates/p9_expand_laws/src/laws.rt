// What holds of the lines of programs, as a contract of a function that does nothing.
ghost use Rattle.p9_expand_laws.specs.Standing.{EntriesStand, InstructionsStand, StartStands};

/// Among the lines of valid modules those of each entry and each instruction stand one behind the
/// other, with targets by the numbers of lines.
pub fn standing_laws()
    ensures entries { EntriesStand }
    ensures instructions { InstructionsStand }
    ensures start { StartStands }
{}
