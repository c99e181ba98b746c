// The symbol entries of an executable.
ghost use Rattle.std.specs.Prelude.{◌≡◌, ◌++◌, IfOk, OnOk, map};
ghost use Rattle.p9_abs.specs.Names.{symbol_at};
ghost use Rattle.p9_place.specs.Places.{def_of};
ghost use Rattle.p9_symbols.specs.Held.{place_held};
ghost use Rattle.p9_symbols.specs.Entries.{letter_of, entry_of, entries_of, routine_def};

use crate::layout::Layout;
use p9_abs::Def;
use p9_aout::AoutSym;
use p9_base::NoMemory;
use p9_place::{Places, Spot};
use p9_text::Routine;
use std::alloc::Global;

/// Where a symbol lies.
#[derive(Clone, Copy, PartialEq, Eq, Debug)]
pub enum Section {
    Text,
    Data,
    Bss,
}

// A capital for a global symbol, and a small letter for a local one.
fn letter_of(section: Section, is_local: bool) -> u8
    ensures { result ≡ letter_of section is_local }
{
    match (section, is_local) {
        (Section::Text, false) => b'T',
        (Section::Data, false) => b'D',
        (Section::Bss, false) => b'B',
        (Section::Text, true) => b't',
        (Section::Data, true) => b'd',
        (Section::Bss, true) => b'b',
    }
}

// Adds the entry of a definition.
fn push_entry(
    alloc: Global,
    entries: &mut Vec<AoutSym>,
    layout: &Layout,
    section: Section,
    def: Def,
) -> Result<(), NoMemory>
    ensures { OnOk result (entries.new.items ≡ entries.old.items ++ entry_of section (place_held layout.now def) (symbol_at layout.now.program def)) }
{
    match layout.symbol(def) {
        None => Ok(()),
        Some(symbol) => {
            entries.push(AoutSym {
                value: layout.place(def)?,
                letter: letter_of(section, symbol.local),
                name: symbol.name.copied(alloc)?,
            })?;
            Ok(())
        }
    }
}

// Adds the entries of functions.
fn push_routines(
    alloc: Global,
    entries: &mut Vec<AoutSym>,
    layout: &Layout,
    routines: &[Routine],
) -> Result<(), NoMemory>
    ensures { OnOk result (entries.new.items ≡ entries.old.items ++ entries_of (symbol_at layout.now.program) (place_held layout.now) Section.Text (map routine_def routines.now)) }
{
    let mut rest = routines;
    while let [routine, after @ ..] = rest {
        let def = Def {
            module: routine.unit,
            symbol: routine.symbol,
        };
        push_entry(alloc, entries, layout, Section::Text, def)?;
        rest = after;
    }
    Ok(())
}

// Adds the entries of objects of data.
fn push_spots(
    alloc: Global,
    entries: &mut Vec<AoutSym>,
    layout: &Layout,
    section: Section,
    spots: &[Spot],
) -> Result<(), NoMemory>
    ensures { OnOk result (entries.new.items ≡ entries.old.items ++ entries_of (symbol_at layout.now.program) (place_held layout.now) section (map def_of spots.now)) }
{
    let mut rest = spots;
    while let [spot, after @ ..] = rest {
        let def = Def {
            module: spot.module,
            symbol: spot.symbol,
        };
        push_entry(alloc, entries, layout, section, def)?;
        rest = after;
    }
    Ok(())
}

/// The entries of functions in the order of the text, then of data, then of common objects.
pub fn symbol_entries(
    alloc: Global,
    layout: &Layout,
    routines: &[Routine],
    places: &Places,
) -> Result<Vec<AoutSym>, NoMemory>
    ensures { IfOk result (λ entries.
        (let all = entries_of (symbol_at layout.now.program) (place_held layout.now) in
        entries.items ≡ all Section.Text (map routine_def routines.now)
        ++ (all Section.Data (map def_of places.now.inits.items) ++ all Section.Bss (map def_of places.now.bss.items)))) }
{
    let mut entries = Vec::new(alloc);
    push_routines(alloc, &mut entries, layout, routines)?;
    push_spots(alloc, &mut entries, layout, Section::Data, &places.inits)?;
    push_spots(alloc, &mut entries, layout, Section::Bss, &places.bss)?;
    Ok(entries)
}
