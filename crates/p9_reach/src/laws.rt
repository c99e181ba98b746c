// What holds of scheduled lines, as contracts of functions that do nothing.
ghost use Rattle.p9_reach.specs.Laws.{ScheduleWithin, ScheduleFits, ScheduleReaches};

/// The scheduled lines of a program take no more words than its instructions, entries and start weigh.
#[tactic(auto, using(crate::proofs::Sizes::schedule_within))]
pub fn size_laws()
    ensures { ScheduleWithin }
{}

/// The fields of the scheduled lines of a program fit their bits.
#[tactic(auto, using(crate::proofs::Fitting::schedule_fits))]
pub fn fit_laws()
    ensures { ScheduleFits }
{}

/// The branches of the scheduled lines of a program reach their targets.
pub fn reach_laws()
    ensures { ScheduleReaches }
{}
