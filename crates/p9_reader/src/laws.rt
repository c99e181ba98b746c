// Why the answer doesn't depend on how the bytes are cut. The function does nothing; its contract is the
// law.
ghost use Rattle.p9_reader.specs.Answers.{RefusalsStay};

/// What bytes are refused for before all bytes are there, they are refused for with any bytes behind them.
pub fn refusals_stay()
    ensures { RefusalsStay }
{}
