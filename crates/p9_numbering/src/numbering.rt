// The numbers of symbols.
ghost use Rattle.std.specs.Prelude.{◌≡◌, ◌+◌, ℕ, List, IfOk, OnOk, bytes_eq, nat_eq};
ghost use Rattle.std.specs.Option.{option_or};
ghost use Rattle.p9_lower.specs.Names.{outer_symbol, static_symbol};
ghost use Rattle.p9_numbering.specs.Told.{symbols_told};
ghost use Rattle.p9_numbering.specs.Maps.{outer_held, static_held, noted, is_outer_title, is_static_title};
ghost use Rattle.p9_numbering.specs.Numbered.{numbered};

use crate::numbers::Numbering;
use crate::symbol::{OutlineSymbol, Title};
use indexmap::IndexMap;
use p9_base::NoMemory;
use p9_lang::Ident;
use p9_nodes::Source;
use std::alloc::Global;

// Notes a number for a name that has none.
fn note_outer<'a>(
    outers: &mut IndexMap<&'a [u8], u32>,
    name: &'a [u8],
    number: u32,
) -> Result<(), NoMemory>
    ensures { OnOk result ((q : List ℕ) → outer_held outers.new.entries q
        ≡ option_or (outer_held outers.old.entries q) (noted (bytes_eq q name.now) number)) }
{
    if outers.get(name).is_none() {
        outers.insert(name, number)?;
    }
    Ok(())
}

// Notes a symbol's number for the number of a text or block static that has none.
fn note_static(statics: &mut IndexMap<u32, u32>, name: u32, number: u32) -> Result<(), NoMemory>
    ensures { OnOk result ((q : ℕ) → static_held statics.new.entries q
        ≡ option_or (static_held statics.old.entries q) (noted (nat_eq q name) number)) }
{
    if statics.get(&name).is_none() {
        statics.insert(name, number)?;
    }
    Ok(())
}

// Notes the number of a symbol, where it is the first with its title.
#[tactic(auto, using(crate::proofs::Noting::same_bytes, crate::proofs::Noting::same_number))]
fn note_symbol<'a>(
    outers: &mut IndexMap<&'a [u8], u32>,
    statics: &mut IndexMap<u32, u32>,
    title: &'a Title,
    number: u32,
) -> Result<(), NoMemory>
    ensures outers { OnOk result ((q : List ℕ) → outer_held outers.new.entries q
        ≡ option_or (outer_held outers.old.entries q) (noted (is_outer_title q title.now) number)) }
    ensures statics { OnOk result ((q : ℕ) → static_held statics.new.entries q
        ≡ option_or (static_held statics.old.entries q) (noted (is_static_title q title.now) number)) }
{
    match title {
        Title::Outer(name) => note_outer(outers, name.list.as_slice(), number)?,
        Title::Static(static_number) => note_static(statics, *static_number, number)?,
    }
    Ok(())
}

fn following(number: u32) -> Result<u32, NoMemory>
    ensures { IfOk result (λ n. n ≡ number + 1) }
{
    number.checked_add(1).ok_or(NoMemory)
}

impl<'a> Numbering<'a> {
    /// Numbers the symbols.
    #[tactic(auto, using(crate::proofs::Noting::all_outers, crate::proofs::Noting::all_statics))]
    pub fn new(
        alloc: Global,
        source: &'a Source<'a>,
        symbols: &'a [OutlineSymbol<'a>],
    ) -> Result<Numbering<'a>, NoMemory>
        ensures { IfOk result (λ n. numbered n ≡ symbols_told source.now.typed.now symbols.now) }
    {
        let mut outers = IndexMap::new(alloc);
        let mut statics = IndexMap::new(alloc);
        let mut number: u32 = 0;
        let mut rest = symbols;
        'symbols: while let [symbol, after @ ..] = rest {
            note_symbol(&mut outers, &mut statics, &symbol.title, number)?;
            number = following(number)?;
            rest = after;
        }
        Ok(Numbering {
            source,
            symbols,
            outers,
            statics,
        })
    }

    /// The number of the symbol of file scope with this name.
    pub fn outer(&self, name: &Ident) -> Option<u32>
        ensures { result ≡ outer_symbol (numbered self.now) name.now }
    {
        self.outers.get(name.list.as_slice()).copied()
    }

    /// The number of the symbol of the text or block static with this number.
    pub fn static_at(&self, number: u32) -> Option<u32>
        ensures { result ≡ static_symbol (numbered self.now) number }
    {
        self.statics.get(&number).copied()
    }
}
