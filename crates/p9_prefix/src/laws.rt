// Laws about the grammar's definitions: their bodies are empty.
ghost use Rattle.p9_prefix.specs.Ends.{EndsOnce, PhrasesAreEndless};
ghost use Rattle.p9_prefix.specs.Goals.{ReadsWholes, Refuses};
ghost use Rattle.p9_prefix.specs.Growth.{EndAddsNothing, OnlyGrows};

/// The grammar's reader reads each whole to its end: a file, an expression, a declaration, or a
/// function's head.
pub fn machine_reads_wholes()
    ensures { ReadsWholes }
{}

/// Where the reader stops, no whole begins with the tokens that it was given.
pub fn machine_refuses_wholes_rightly()
    ensures { Refuses }
{}

/// What is read of a whole is no higher than the whole, and has no more nodes.
pub fn trees_only_grow()
    ensures { OnlyGrows }
{}

/// Nothing stands behind the first end of a file's tokens.
pub fn files_end_once()
    ensures { EndsOnce }
{}

/// No end stands in an expression or a declaration.
pub fn phrases_are_endless()
    ensures { PhrasesAreEndless }
{}

/// The end makes what is read no higher, and adds no nodes.
pub fn end_adds_nothing()
    ensures { EndAddsNothing }
{}
