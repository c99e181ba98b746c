// What holds of pieces, as a contract of a function that does nothing.
ghost use Rattle.p9_pieces.specs.Laws.{InstructionsWithin};

/// The lines of each instruction are within its weight.
pub fn piece_laws()
    ensures { InstructionsWithin }
{}
