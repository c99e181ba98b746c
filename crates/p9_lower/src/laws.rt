// Laws of the definitions in `specs/`. Each function does nothing; its contract is the law.
ghost use Rattle.p9_lower.specs.Laws.{ContentsMeanSame, FunctionsMeanSame, LoweredMeans, PartsAreSame, PlacesMean, StatementsMean, ValuesMean};
ghost use Rattle.p9_lower.specs.Verdicts.{DifferencesAreComplete, UpdatesAreSound};
ghost use Rattle.p9_lower.specs.Tests.{TestedSourcesAreSound};
ghost use Rattle.p9_lower.specs.SoundExamples.{ExamplesAreSound};
ghost use Rattle.p9_lower.specs.Examples.{RunsOfLowered, TreesOfLowered};

/// The tree of an expression means what the expression means: the same play, with equal values where the
/// source has one, in all surroundings whose names stand for what the environment's do.
#[tactic(auto, using(crate::proofs::Expressions::values_mean))]
pub fn values_mean()
    ensures { ValuesMean }
{}

/// So does the tree of an lvalue's address.
#[tactic(auto, using(crate::proofs::Expressions::places_mean))]
pub fn places_mean()
    ensures { PlacesMean }
{}

/// A typed statement means what the statement means, with each loop given as many turns.
#[tactic(auto, using(crate::proofs::Statements::statements_mean))]
pub fn statements_mean()
    ensures { StatementsMean }
{}

/// The functions of a typed module mean what the functions of its source mean, in every program that the
/// module is part of; they need the same room, they are small, and none has a `goto`.
#[tactic(auto, using(crate::proofs::Means::functions_mean_same))]
pub fn functions_mean_same()
    ensures { FunctionsMeanSame }
{}

/// A typed module has the symbols and structures of its source, one function for each symbol with a body,
/// and one initialiser for each that has one.
#[tactic(auto, using(crate::proofs::Means::parts_are_same))]
pub fn parts_are_same()
    ensures { PartsAreSame }
{}

/// The first contents of a module's objects are the same by its typed module, or the same item of an
/// initialiser breaks a rule.
#[tactic(auto, using(crate::proofs::Contents::contents_mean_same))]
pub fn contents_mean_same()
    ensures { ContentsMeanSame }
{}

/// The typed module that is made of a source means what the source means: symbols, structures, functions in
/// every program with any number of turns, and first contents.
pub fn lowered_means()
    ensures { LoweredMeans }
{}

/// An `op=` that typing takes changes an integer by an integer, or a pointer by a number of elements, as
/// `values_mean` asks.
pub fn updates_are_sound()
    ensures { UpdatesAreSound }
{}

/// Two pointers whose difference typing takes are to a complete type.
#[tactic(auto, using(crate::proofs::Verdicts::differences_are_complete))]
pub fn differences_are_complete()
    ensures { DifferencesAreComplete }
{}

/// A source that passes the test of `specs/Tests` is as `lowered_means` asks.
pub fn tested_sources_are_sound()
    ensures { TestedSourcesAreSound }
{}

/// Small programs pass that test.
pub fn examples_are_sound()
    ensures { ExamplesAreSound }
{}

/// What small programs come to by the typed trees that are made of them: the same as by their sources.
#[tactic(auto, using(crate::proofs::Examples::runs_of_lowered))]
pub fn runs_of_lowered()
    ensures { RunsOfLowered }
{}

/// The typed trees of these functions are those that were written for them by hand.
#[tactic(auto, using(crate::proofs::Examples::trees_of_lowered))]
pub fn trees_of_lowered()
    ensures { TreesOfLowered }
{}
