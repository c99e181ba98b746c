// What holds of the bytes of texts, as a contract of a function that does nothing.
ghost use Rattle.p9_image_laws.specs.Running.{RunsItsLines};

/// From the start of an executable whose text has the words of lines, the machine's run is that of the
/// machine with delays over these lines, with the same addresses of symbols.
#[tactic(auto, using(crate::proofs::Running::runs_its_lines))]
pub fn text_laws()
    ensures { RunsItsLines }
{}
