// Whether the symbols of a module differ in binding or in name.
ghost use Rattle.std.specs.Prelude.{◌↔◌, ◌≡◌, IsTrue, IfOk, OnOk, AllPairs, not};
ghost use Rattle.p9_abs.specs.Validity.{AreApart};
ghost use Rattle.p9_obj.specs.Seen.{holds, Notes};

use p9_abs::Symbol;
use p9_base::{Name, NoMemory};
use std::alloc::Global;
use std::collections::HashSet;

// The names that were seen, apart by their binding.
#[derive(Drop)]
struct Seen {
    locals: HashSet<Name>,
    globals: HashSet<Name>,
}

// Notes the symbol's name, and tells whether it is new.
fn note(alloc: Global, seen: &mut Seen, symbol: &Symbol) -> Result<bool, NoMemory>
    ensures new { IfOk result (λ is_new. is_new ≡ not (holds seen.old.locals.keys seen.old.globals.keys symbol.now)) }
    ensures noted { OnOk result (Notes seen.old.locals.keys seen.old.globals.keys symbol.now seen.new.locals.keys seen.new.globals.keys) }
{
    let name = symbol.name.copied(alloc)?;
    if symbol.local {
        Ok(seen.locals.insert(name)?)
    } else {
        Ok(seen.globals.insert(name)?)
    }
}

/// Whether no two symbols have the same binding and the same name.
pub(crate) fn are_distinct(alloc: Global, symbols: &[Symbol]) -> Result<bool, NoMemory>
    ensures { IfOk result (λ distinct. IsTrue distinct ↔ AllPairs AreApart symbols.now) }
{
    let mut seen = Seen {
        locals: HashSet::new(alloc),
        globals: HashSet::new(alloc),
    };
    let mut rest = symbols;
    while let [symbol, after @ ..] = rest {
        if !note(alloc, &mut seen, symbol)? {
            return Ok(false);
        }
        rest = after;
    }
    Ok(true)
}
