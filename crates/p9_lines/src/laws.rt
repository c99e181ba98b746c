// What holds of the lines of each form, as contracts of functions that do nothing.
ghost use Rattle.p9_lines.specs.Laws.{WithinWeights, EntryWithin, StartWithin, HaveLines, LeadsAll, EntryLeads};

/// The lines of a form, of an entry and of the start are within their weights, and each form has a
/// line.
pub fn weight_laws()
    ensures forms { WithinWeights }
    ensures entries { EntryWithin }
    ensures start { StartWithin }
    ensures lines { HaveLines }
{}

/// Each branch, jump and call goes to the goal, or a branch to the next instruction.
pub fn way_laws()
    ensures forms { LeadsAll }
    ensures entries { EntryLeads }
{}
