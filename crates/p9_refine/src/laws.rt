// What holds of the straight run of a program's lines, as a contract of a function that does nothing.
ghost use Rattle.p9_refine.specs.Refining.{ProgramRefines, MapsPlace};

/// The straight machine over the lines of modules that define no name twice does as the modules do, for
/// each map of addresses: after n steps of theirs without an undefined operation it stands as they do,
/// in n + 1 to 7n + 6 lines. Each such map gives a placing.
pub fn refinement_laws()
    ensures refines { ProgramRefines }
    ensures placed { MapsPlace }
{}
