// Laws about the grammar's definitions: their bodies are empty.
ghost use Rattle.p9_grammar.specs.Promise.{OneFile, OneExpression, ReadsFiles, ReadsOnlyFiles, RefusesRightly, SmallFile};

/// A list of tokens is written by at most one list of well-formed items.
pub fn files_have_one_tree()
    ensures { OneFile }
{}

/// A list of tokens is written by at most one well-formed expression.
pub fn expressions_have_one_tree()
    ensures { OneExpression }
{}

/// The reader's machine reads the tokens of each well-formed file, to its items.
pub fn machine_reads_files()
    ensures { ReadsFiles }
{}

/// Where the machine comes to a file's end, the items are well formed and the tokens are theirs.
pub fn machine_reads_only_files()
    ensures { ReadsOnlyFiles }
{}

/// Where the machine stops, no well-formed file begins with the tokens that it was given.
pub fn machine_refuses_rightly()
    ensures { RefusesRightly }
{}

/// The file `int x;` is well formed, and these are its tokens.
pub fn small_file()
    ensures { SmallFile }
{}
