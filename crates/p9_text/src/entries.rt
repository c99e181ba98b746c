// Where each function begins among the instructions.
ghost use Rattle.std.specs.Prelude.{◌≡◌, IfOk, OnOk};
ghost use Rattle.std.specs.Option.{option_or};
ghost use Rattle.indexmap.specs.IndexMap.{get};
ghost use Rattle.p9_abs.specs.declared.modules.Def.{Def};
ghost use Rattle.p9_text.specs.declared.entries.Key.{Key};
ghost use Rattle.p9_text.specs.Entries.{entry_number, held, same_key, noted};

use crate::order::Routine;
use indexmap::IndexMap;
use p9_abs::Def;
use p9_base::NoMemory;
use std::alloc::Global;

/// A symbol of a module, as a key.
#[derive(Clone, Copy, PartialEq, Eq, Hash, Debug)]
pub struct Key {
    pub unit: u32,
    pub symbol: u32,
}

/// The number of each function's entry.
#[derive(Drop)]
pub struct Entries {
    map: IndexMap<Key, u32>,
}

// Notes a number for a key that has none.
fn note(map: &mut IndexMap<Key, u32>, key: Key, number: u32) -> Result<(), NoMemory>
    ensures { OnOk result ((q : Key) → get same_key map.new q ≡ option_or (get same_key map.old q) (noted key number q)) }
{
    if map.get(&key).is_none() {
        map.insert(key, number)?;
    }
    Ok(())
}

impl Entries {
    /// The entries of functions. Each function takes one number for its entry and one for each of its
    /// instructions. Numbers of 2^32 and more are want of memory.
    pub fn new(alloc: Global, routines: &[Routine]) -> Result<Entries, NoMemory>
        ensures { IfOk result (λ entries. (d : Def) → held entries d ≡ entry_number routines.now 0 d) }
    {
        let mut map = IndexMap::new(alloc);
        let mut number: u32 = 0;
        let mut rest = routines;
        while let [routine, after @ ..] = rest {
            let key = Key {
                unit: routine.unit,
                symbol: routine.symbol,
            };
            note(&mut map, key, number)?;
            number = number.checked_add(routine.size()?).ok_or(NoMemory)?;
            rest = after;
        }
        Ok(Entries { map })
    }

    /// The number of the function's entry, where the definition is a function's.
    pub fn get(&self, def: Def) -> Option<u32>
        ensures { result ≡ held self.now def }
    {
        let key = Key {
            unit: def.module,
            symbol: def.symbol,
        };
        self.map.get(&key).copied()
    }
}
