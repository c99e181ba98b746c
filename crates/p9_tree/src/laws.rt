// Laws of the definitions in `specs/`. Each function does nothing; its contract is the law.
ghost use Rattle.p9_tree.specs.Same.{BindKeepsSame, LoopsKeepSame, SameCallsEndSame, TestedLoopsKeepSame};
ghost use Rattle.p9_tree.specs.Means.{RunsMeanSame};
ghost use Rattle.p9_tree.specs.Examples.{ContentsOfTrees, RunsOfTrees, SizesOfTrees};

/// Plays that mean the same do so one after the other.
#[tactic(auto, using(crate::proofs::Same::bind_keeps_same))]
pub fn bind_keeps_same()
    ensures { BindKeepsSame }
{}

/// Loops whose parts mean the same mean the same in as many turns.
#[tactic(auto, using(crate::proofs::Same::loops_keep_same))]
pub fn loops_keep_same()
    ensures { LoopsKeepSame }
{}

/// So do those that test before their first turn.
#[tactic(auto, using(crate::proofs::Same::tested_loops_keep_same))]
pub fn tested_loops_keep_same()
    ensures { TestedLoopsKeepSame }
{}

/// Where the bodies of functions mean the same, calls end the same: with the same value and state,
/// the same turns left and the same bytes copied, or over with the same outcome.
#[tactic(auto, using(crate::proofs::Same::same_calls_end_same))]
pub fn same_calls_end_same()
    ensures { SameCallsEndSame }
{}

/// A run by typed modules that mean what the modules mean has the outcome of the run of the
/// modules, where that is neither undefined nor too deep.
#[tactic(auto, using(crate::proofs::Runs::runs_mean_same))]
pub fn runs_mean_same()
    ensures { RunsMeanSame }
{}

/// What small programs come to by their typed trees: the same as by their sources, which the meaning's
/// examples tell.
#[tactic(auto, using(crate::proofs::Examples::runs_of_trees))]
pub fn runs_of_trees()
    ensures { RunsOfTrees }
{}

/// How many nodes the functions of these programs count, what they are charged, and how many registers
/// trees want.
#[tactic(auto, using(crate::proofs::Examples::sizes_of_trees))]
pub fn sizes_of_trees()
    ensures { SizesOfTrees }
{}

/// What entries of initialisers write, or the first of them that breaks a rule.
#[tactic(auto, using(crate::proofs::Examples::contents_of_trees))]
pub fn contents_of_trees()
    ensures { ContentsOfTrees }
{}
