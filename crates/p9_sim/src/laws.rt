// What follows from the definitions, as contracts of functions that do nothing.
ghost use Rattle.p9_sim.specs.Examples.{BranchesAreSteps, FiveIsRight, RegisterOverCall, RightFirst, Countdown, PrintedTwice, ReadBehindExit, OtherText};
ghost use Rattle.p9_sim.specs.Functions.{FnOkOver};
ghost use Rattle.p9_sim.specs.Translating.{Translates};

/// Where code has enough steps though branches, JMP and JAL alone are counted, it has enough of all.
pub fn branches_are_steps()
    ensures { BranchesAreSteps }
{}

/// A small function's code, made by hand, is right.
pub fn right_code()
    ensures { FiveIsRight }
{}

/// Wrong codes are refused: a value that stays in a register over a call, the call of the right
/// operand made first, a count down before anything is done, output written twice, input read behind
/// the exit, and another exit text.
pub fn wrong_codes()
    ensures register { RegisterOverCall }
    ensures order { RightFirst }
    ensures countdown { Countdown }
    ensures printed { PrintedTwice }
    ensures read { ReadBehindExit }
    ensures text { OtherText }
{}
