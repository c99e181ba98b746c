// Laws of the definitions in `specs/`: functions that do nothing, whose contracts are the laws.
ghost use Rattle.p9_headline.specs.Laws.{DefinedSourcesHaveEnded, ExitsAreUnique, NoHaltOfDefinedSources};

/// A machine exits in one way: whenever it has exited, its output, its text and the input that is left
/// are the same.
pub fn exits_are_unique()
    ensures { ExitsAreUnique }
{}

/// Where an executable that keeps the meaning of a source has exited, and the source does nothing
/// undefined, the source has ended with the same output, text and input.
pub fn defined_sources_have_ended()
    ensures { DefinedSourcesHaveEnded }
{}

/// And the machine never halts.
pub fn no_halt_of_defined_sources()
    ensures { NoHaltOfDefinedSources }
{}
