// The law of homed instructions.

ghost use Rattle.p9_homed.specs.Homed.{HomedForms};

/// An instruction with homes and offsets in place of automatics has the form that its own form becomes.
pub fn homed_law()
    ensures { HomedForms }
{}
