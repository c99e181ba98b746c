// What holds of system calls, as a contract of a function that does nothing.
ghost use Rattle.p9_systems.specs.Systems.{SystemsAreRight};

/// The built-in module's code of `exits`, `read` and `write` does what these functions do in C.
pub fn systems_are_right()
    ensures { SystemsAreRight }
{}
