// What holds of lines, as contracts of functions that do nothing.
ghost use Rattle.p9_forms.specs.Laws.{FormsDo};
ghost use Rattle.p9_forms.specs.Entering.{EntryDoes, StartDoes};

/// Where the lines of an instruction stand among others, the straight machine comes from a state before
/// the first of them, in 1 to 7 lines, to where the instruction leads, with the state that the
/// instruction gives. Only register 28 may hold anything.
pub fn form_laws()
    ensures { FormsDo }
{}

/// The lines of an entry lower R29 and keep R31 there; those of the start put an address into R30.
pub fn entry_laws()
    ensures entries { EntryDoes }
    ensures start { StartDoes }
{}
