// What holds of every run over lines of the machine with branch slots and load delays.

ghost use Rattle.p9_r3k.specs.DelayedLaws.{DelayedEndedStays, DelayedRunsCompose};

/// The delayed machine's runs over lines.
pub fn delayed_laws()
    ensures ended { DelayedEndedStays }
    ensures composed { DelayedRunsCompose }
{}
