// Laws of the definitions in `specs/`. Each function does nothing; its contract is the law.
ghost use Rattle.p9_first.specs.PlayLaws.{BindIsAssociative, CallsTakeTurns, DepthIsEnough, LoopsFollow, LoopsLast, OutputGrows, RunsGoOn};
ghost use Rattle.p9_first.specs.Examples.{RunsOfForm};
ghost use Rattle.p9_first.specs.FileExamples.{SmallFile};

/// Plays one after the other may be grouped in either way.
#[tactic(auto, using(crate::proofs::Plays::bind_is_associative))]
pub fn bind_is_associative<A, B, C>()
    ensures { BindIsAssociative A B C }
{}

/// A loop that is given more turns does the same for as many as it was given before.
#[tactic(auto, using(crate::proofs::Plays::loops_follow))]
pub fn loops_follow()
    ensures { LoopsFollow }
{}

/// A loop that is given turns takes more than these before it is cut off, so it never is.
#[tactic(auto, using(crate::proofs::Plays::loops_last))]
pub fn loops_last()
    ensures { LoopsLast }
{}

/// A call that gives a value has taken at least one turn, so turns never rise.
#[tactic(auto, using(crate::proofs::Calls::calls_take_turns))]
pub fn calls_take_turns()
    ensures { CallsTakeTurns }
{}

/// Calls within calls have one meaning at every depth from the number of turns on.
#[tactic(auto, using(crate::proofs::Calls::depth_is_enough))]
pub fn depth_is_enough()
    ensures { DepthIsEnough }
{}

/// A run that has ended, or is undefined or too deep, is the same with more turns; one that is out
/// of turns goes on.
#[tactic(auto, using(crate::proofs::Runs::runs_go_on))]
pub fn runs_go_on()
    ensures { RunsGoOn }
{}

/// With more turns a run's output begins with what it was.
#[tactic(auto, using(crate::proofs::Runs::output_grows))]
pub fn output_grows()
    ensures { OutputGrows }
{}

/// What small programs of the form come to: texts at their ends, a sum over two files, a sum that
/// wraps, a write past its text, and runs that are out of turns.
#[tactic(auto, using(crate::proofs::Examples::runs_of_form))]
pub fn runs_of_form()
    ensures { RunsOfForm }
{}

/// A small file of the form has its tokens, its types and its symbols.
#[tactic(auto, using(crate::proofs::FileExamples::small_file_of_form))]
pub fn small_file_of_form()
    ensures { SmallFile }
{}
