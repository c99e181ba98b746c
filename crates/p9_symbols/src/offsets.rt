// The offsets of data.
ghost use Rattle.std.specs.Prelude.{◌≡◌, IfOk, OnOk};
ghost use Rattle.std.specs.Option.{option_or};
ghost use Rattle.indexmap.specs.IndexMap.{get};
ghost use Rattle.p9_abs.specs.declared.modules.Def.{Def};
ghost use Rattle.p9_text.specs.declared.entries.Key.{Key};
ghost use Rattle.p9_text.specs.Entries.{same_key, noted, key_of};
ghost use Rattle.p9_expand.specs.Base.{spot_offset};
ghost use Rattle.p9_symbols.specs.Held.{offset_held};

use indexmap::IndexMap;
use p9_abs::Def;
use p9_base::NoMemory;
use p9_place::{Places, Spot};
use p9_text::Key;
use std::alloc::Global;

/// The offset of each datum and common object from the start of the data.
#[derive(Drop)]
pub struct Offsets {
    map: IndexMap<Key, u32>,
}

// Notes an offset for a key that has none.
fn note(map: &mut IndexMap<Key, u32>, key: Key, offset: u32) -> Result<(), NoMemory>
    ensures { OnOk result ((q : Key) → get same_key map.new q ≡ option_or (get same_key map.old q) (noted key offset q)) }
{
    if map.get(&key).is_none() {
        map.insert(key, offset)?;
    }
    Ok(())
}

// Notes the offsets of spots.
fn note_all(map: &mut IndexMap<Key, u32>, spots: &[Spot]) -> Result<(), NoMemory>
    ensures { OnOk result ((d : Def) → get same_key map.new (key_of d) ≡ option_or (get same_key map.old (key_of d)) (spot_offset spots.now d)) }
{
    let mut rest = spots;
    while let [spot, after @ ..] = rest {
        let key = Key {
            unit: spot.module,
            symbol: spot.symbol,
        };
        note(map, key, spot.offset)?;
        rest = after;
    }
    Ok(())
}

impl Offsets {
    /// The offsets of data that are placed.
    pub fn new(alloc: Global, places: &Places) -> Result<Offsets, NoMemory>
        ensures { IfOk result (λ offsets. (d : Def) → offset_held offsets d ≡ option_or (spot_offset places.now.inits.items d) (spot_offset places.now.bss.items d)) }
    {
        let mut map = IndexMap::new(alloc);
        note_all(&mut map, &places.inits)?;
        note_all(&mut map, &places.bss)?;
        Ok(Offsets { map })
    }

    /// The offset of a definition, where it is a datum or a common object.
    pub fn get(&self, def: Def) -> Option<u32>
        ensures { result ≡ offset_held self.now def }
    {
        let key = Key {
            unit: def.module,
            symbol: def.symbol,
        };
        self.map.get(&key).copied()
    }
}
