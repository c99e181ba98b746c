// The composition, as contracts of functions that do nothing.
ghost use Rattle.p9_compose.specs.Calling.{CallsAreRight, UnionIsProgram, MainIsRight};

/// Where the code of each function is right, so is every call in a run of all: its return, its exit,
/// its output and input, at least as many steps as turns, and at most so many.
pub fn calls_are_right()
    ensures { CallsAreRight }
{}

/// The union of C modules is such a program, and what its `main` is called for is what its run comes
/// to.
pub fn modules_are_right()
    ensures union { UnionIsProgram }
    ensures main { MainIsRight }
{}
