// Laws of the definitions in `specs/`. Each function does nothing; its contract is the law.
ghost use Rattle.p9_cmean.specs.ConstantLaws.{ConstantsKeepTheirValues, TestedConstantsAreTyped};
ghost use Rattle.p9_cmean.specs.ExamplesOfConstants.{TypedConstants};
ghost use Rattle.p9_cmean.specs.PlayLaws.{BindIsAssociative, CallsTakeTurns, DepthIsEnough, LoopsFollow, LoopsLast, TestedLoopsFollow, TestedLoopsLast};
ghost use Rattle.p9_cmean.specs.ExamplesOfExpressions.{RunsOfExpressions};
ghost use Rattle.p9_cmean.specs.ExamplesOfStatements.{RunsOfStatements};
ghost use Rattle.p9_cmean.specs.ExamplesOfCalls.{RunsOfCalls};
ghost use Rattle.p9_cmean.specs.ExamplesOfFiles.{RunsOfFiles};
ghost use Rattle.p9_cmean.specs.ExamplesOfJoining.{JoiningFiles};
ghost use Rattle.p9_cmean.specs.ExamplesOfUndefined.{RunsOfUndefined};
ghost use Rattle.p9_cmean.specs.ExamplesOfMisuse.{RunsOfMisuse};
ghost use Rattle.p9_cmean.specs.ExamplesOfOperators.{RunsOfOperators};
ghost use Rattle.p9_cmean.specs.ExamplesOfFlow.{RunsOfFlow};
ghost use Rattle.p9_cmean.specs.ExamplesOfMissing.{RunsOfMissing};
ghost use Rattle.p9_cmean.specs.ExamplesOfWordCounter.{RunsOfWordCounter};
ghost use Rattle.p9_cmean.specs.JoinTests.{JoinIsTested};
ghost use Rattle.p9_cmean.specs.RunLaws.{AccessInverts, BodiesLast, InputFalls, OutputGrows, RunsGoOn};

/// Plays one after the other may be grouped in either way.
#[tactic(auto, using(crate::proofs::Plays::bind_is_associative))]
pub fn bind_is_associative<A, B, C>()
    ensures { BindIsAssociative A B C }
{}

/// A loop that is given more turns does the same for as many as it was given before.
#[tactic(auto, using(crate::proofs::Plays::loops_follow))]
pub fn loops_follow()
    ensures { LoopsFollow }
{}

/// So does one that tests before its first turn.
#[tactic(auto, using(crate::proofs::Plays::tested_loops_follow))]
pub fn tested_loops_follow()
    ensures { TestedLoopsFollow }
{}

/// A loop that is given turns takes more than these before it is cut off.
#[tactic(auto, using(crate::proofs::Plays::loops_last))]
pub fn loops_last()
    ensures { LoopsLast }
{}

/// So does one that tests before its first turn.
#[tactic(auto, using(crate::proofs::Plays::tested_loops_last))]
pub fn tested_loops_last()
    ensures { TestedLoopsLast }
{}

/// A call that gives a value has taken at least one turn, so turns never rise.
#[tactic(auto, using(crate::proofs::Calls::calls_take_turns))]
pub fn calls_take_turns()
    ensures { CallsTakeTurns }
{}

/// Calls within calls have one meaning at every depth from the number of turns on.
#[tactic(auto, using(crate::proofs::Calls::depth_is_enough))]
pub fn depth_is_enough()
    ensures { DepthIsEnough }
{}

/// With more turns the body of a function takes all of them before it is cut off.
#[tactic(auto, using(crate::proofs::Fitting::bodies_last))]
pub fn bodies_last()
    ensures { BodiesLast }
{}

/// A run that has ended, or is undefined or too deep, is the same with more turns; one that is out
/// of turns goes on.
#[tactic(auto, using(crate::proofs::Runs::runs_go_on))]
pub fn runs_go_on()
    ensures { RunsGoOn }
{}

/// With more turns a run's output begins with what it was.
#[tactic(auto, using(crate::proofs::Runs::output_grows))]
pub fn output_grows()
    ensures { OutputGrows }
{}

/// With more turns the input that is left is an end of what was left.
#[tactic(auto, using(crate::proofs::Runs::input_falls))]
pub fn input_falls()
    ensures { InputFalls }
{}

/// An access that is defined is into a live object, at a multiple of its alignment and within the
/// object's size.
#[tactic(auto, using(crate::proofs::Accesses::access_inverts))]
pub fn access_inverts()
    ensures { AccessInverts }
{}

/// Whether modules join is computed by a test.
#[tactic(auto, using(crate::proofs::Joining::join_is_tested))]
pub fn join_is_tested()
    ensures { JoinIsTested }
{}

/// What small programs for expressions come to: the conversion to a substructure, the order from left to
/// right, signs, narrowing, steps, unions, copies, and pointers.
#[tactic(auto, using(crate::proofs::ExamplesOfExpressions::runs_of_expressions))]
pub fn runs_of_expressions()
    ensures { RunsOfExpressions }
{}

/// What small programs for statements come to: loops, a switch that falls through, blocks with their own
/// automatics, block statics, and a loop that is out of turns.
#[tactic(auto, using(crate::proofs::ExamplesOfStatements::runs_of_statements))]
pub fn runs_of_statements()
    ensures { RunsOfStatements }
{}

/// What small programs for calls come to: arguments of `main`, system calls with every kind of count,
/// calls through pointers, recursion, turns, and room at its exact bound.
#[tactic(auto, using(crate::proofs::ExamplesOfCalls::runs_of_calls))]
pub fn runs_of_calls()
    ensures { RunsOfCalls }
{}

/// What programs of several files come to, with first contents; and that a type with a renamed member
/// does not agree.
#[tactic(auto, using(crate::proofs::ExamplesOfFiles::runs_of_files))]
pub fn runs_of_files()
    ensures { RunsOfFiles }
{}

/// Which small files join: each clause of joining keeps one of them out.
#[tactic(auto, using(crate::proofs::ExamplesOfJoining::joining_files))]
pub fn joining_files()
    ensures { JoiningFiles }
{}

/// Every cause of an undefined operation, with its place in the second of two files.
#[tactic(auto, using(crate::proofs::ExamplesOfUndefined::runs_of_undefined))]
pub fn runs_of_undefined()
    ensures { RunsOfUndefined }
{}

/// What programs of one file come to that use the same declared objects and functions in ways that are
/// undefined.
#[tactic(auto, using(crate::proofs::ExamplesOfMisuse::runs_of_misuse))]
pub fn runs_of_misuse()
    ensures { RunsOfMisuse }
{}

/// What small programs for operators, constants, casts, updates and the order of operands come to, and how
/// many bytes structure copies move.
#[tactic(auto, using(crate::proofs::ExamplesOfOperators::runs_of_operators))]
pub fn runs_of_operators()
    ensures { RunsOfOperators }
{}

/// What small programs for every form of `if`, `for` and `switch` come to, how many turns they take, and
/// what dies by `break` and `return`.
#[tactic(auto, using(crate::proofs::ExamplesOfFlow::runs_of_flow))]
pub fn runs_of_flow()
    ensures { RunsOfFlow }
{}

/// What programs come to that use a value that a call didn't give, that break several rules on accesses
/// at once, that use pointers outside their objects, or that call the system with pointers that it can't
/// use.
#[tactic(auto, using(crate::proofs::ExamplesOfMissing::runs_of_missing))]
pub fn runs_of_missing()
    ensures { RunsOfMissing }
{}

/// Two parts of a program that counts words.
#[tactic(auto, using(crate::proofs::ExamplesOfWordCounter::runs_of_word_counter))]
pub fn runs_of_word_counter()
    ensures { RunsOfWordCounter }
{}

/// The meaning gives integer constant expressions the value that typing gives them.
#[tactic(auto, using(crate::proofs::Constants::constants_keep_their_values))]
pub fn constants_keep_their_values()
    ensures { ConstantsKeepTheirValues }
{}

/// A test computes that the constants of a tree are typed as that law asks.
#[tactic(auto, using(crate::proofs::TypedConstants::tested_constants_are_typed))]
pub fn tested_constants_are_typed()
    ensures { TestedConstantsAreTyped }
{}

/// They are in the modules of these small files.
#[tactic(auto, using(crate::proofs::ExamplesOfConstants::typed_constants_in))]
pub fn typed_constants()
    ensures { TypedConstants }
{}
