// Laws of what is read: their bodies are empty.
ghost use Rattle.p9_viable.specs.Viable.{GoesOn, ReadsOnlyWholes};

/// Where the reader's machine comes to the end of a file, an expression or a declaration, that is well
/// formed and the tokens are its own.
pub fn machine_reads_only_wholes()
    ensures { ReadsOnlyWholes }
{}

/// What the reader's machine has read begins a file, an expression or a declaration.
pub fn tokens_go_on()
    ensures { GoesOn }
{}
