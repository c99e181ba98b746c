// What holds of every run, as contracts of functions that do nothing.

ghost use Rattle.p9_r3k.specs.Laws.{EndedStays, RunsCompose, OutputGrows, InputShrinks, StraightEndedStays, StraightRunsCompose, StraightOutputGrows, StraightInputShrinks, LoadsComeLater, TextStays, StartsLaidOut, RunsItsText, StartsWithWords, WordsStay};

/// The machine's runs.
pub fn machine_laws()
    ensures ended { EndedStays }
    ensures composed { RunsCompose }
    ensures output { OutputGrows }
    ensures input { InputShrinks }
{}

/// The straight machine's runs.
pub fn straight_laws()
    ensures ended { StraightEndedStays }
    ensures composed { StraightRunsCompose }
    ensures output { StraightOutputGrows }
    ensures input { StraightInputShrinks }
{}

/// The runs of the machine whose loads come one instruction later.
pub fn pending_laws()
    ensures { LoadsComeLater }
{}

/// No program changes its own text.
pub fn text_laws()
    ensures start { StartsLaidOut }
    ensures kept { TextStays }
    ensures words { RunsItsText }
{}

/// Registers hold words and memory holds bytes, and register 0 holds 0.
pub fn word_laws()
    ensures start { StartsWithWords }
    ensures kept { WordsStay }
{}
