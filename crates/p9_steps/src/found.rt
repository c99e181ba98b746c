// Whole symbols, and their names.
ghost use Rattle.std.specs.Prelude.{◌≡◌, ◌++◌, [], ◌∷◌, IfOk};

use crate::names::Names;
use crate::places::Found;
use p9_abs::{Symbol, Symbols};
use p9_base::NoMemory;
use std::alloc::Global;

impl Found {
    /// No symbols.
    pub fn new(alloc: Global) -> Found
        ensures { result.symbols ≡ [] }
    {
        let list = Vec::new(alloc);
        let names = Names::new(alloc);
        Found {
            symbols: Symbols { list },
            names,
        }
    }

    /// With one symbol more.
    pub fn with(self, alloc: Global, symbol: Symbol) -> Result<Found, NoMemory>
        ensures { IfOk result (λ found. found.symbols ≡ self.symbols ++ symbol ∷ []) }
    {
        let Found { symbols, mut names } = self;
        names.note(alloc, &symbol)?;
        let mut list = symbols.list;
        list.push(symbol)?;
        Ok(Found {
            symbols: Symbols { list },
            names,
        })
    }
}
