ghost use Rattle.p9_terminal.specs.Terminals.{OneSpelling};

/// The lexer's marks and keywords are the grammar's, in one order.
pub fn one_spelling()
    ensures { OneSpelling }
{}
