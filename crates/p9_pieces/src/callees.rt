// The functions that symbols name.
ghost use Rattle.std.specs.Prelude.{◌≡◌};
ghost use Rattle.p9_pieces.specs.Callees.{named_by, callee_of};

use indexmap::IndexMap;
use p9_abs::{Def, Symbol};
use p9_base::Name;
use p9_text::{Entries, Program};

// The definition that a symbol stands for: a local one is its own, and a global one's is in the table
// of names.
fn named(defs: &IndexMap<Name, Def>, own: Def, symbol: &Symbol) -> Option<Def>
    ensures { result ≡ named_by defs.now.entries own symbol.now }
{
    if symbol.local {
        return Some(own);
    }
    defs.get(&symbol.name).copied()
}

/// The functions that symbols of modules name, by a table of the definitions of names.
#[derive(Drop)]
pub struct Callees<'a> {
    pub program: Program<'a>,
    pub defs: &'a IndexMap<Name, Def>,
    pub entries: Entries,
}

impl<'a> Callees<'a> {
    /// The number of the entry of the function that a module's symbol names, where it names one.
    pub fn callee(&self, unit: u32, symbol: u32) -> Option<u32>
        ensures { result ≡ callee_of self.now unit symbol }
    {
        let own = Def {
            module: unit,
            symbol,
        };
        let record = self.program.symbol(own)?;
        let def = named(self.defs, own, record)?;
        self.entries.get(def)
    }
}
