// The law of carrying, as contracts of functions that do nothing.
ghost use Rattle.p9_carry.specs.Carrying.{CarriesOver, CarriesFramed};

/// Code over the same automatics that keeps the steps of right code in every layout is right.
pub fn carries_over()
    ensures { CarriesOver }
{}

/// Framed code that keeps the steps of right code over automatics is right.
pub fn carries_framed()
    ensures { CarriesFramed }
{}
