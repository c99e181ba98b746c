// The law of framed code.

ghost use Rattle.p9_keeps.specs.Moves.{FramedKeeps};

/// Code whose automatics have homes, with moves at the entry and round calls, does what it did.
pub fn keeps_law()
    ensures { FramedKeeps }
{}
