//! What is seen of C sources: their outcomes as the headline has them, so that `KeepsMeaning` can be
//! said of the union of C modules. Nothing compiles these yet.
#![tactic(auto)]

ghost use Rattle.p9_source.specs.Seen.{EndedIsSeen};

/// With more turns a run that has ended is seen as before.
#[tactic(auto, using(crate::proofs::Later::ended_is_seen))]
pub fn ended_is_seen()
    ensures { EndedIsSeen }
{}
