// What holds of symbol entries, as a contract of a function that does nothing.
ghost use Rattle.p9_symbol_laws.specs.Laws.{EntriesForEach, EntriesRise};

/// There is one entry for each function, each datum and each common object, in the order of addresses.
pub fn entry_laws()
    ensures each { EntriesForEach }
    ensures rise { EntriesRise }
{}
