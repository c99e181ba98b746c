// What holds of the start, as a contract of a function that does nothing.
ghost use Rattle.p9_start.specs.Starting.{StartIsRight};

/// Where the code of each function is right, the run from the start comes to what C comes to: the same
/// exit text, output and input left, at least as many steps as turns, and at most so many.
pub fn start_is_right()
    ensures { StartIsRight }
{}
