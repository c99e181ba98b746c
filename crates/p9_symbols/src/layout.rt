// Where definitions lie.
ghost use Rattle.std.specs.Prelude.{◌≡◌, IfOk, option_and_then};
ghost use Rattle.p9_abs.specs.BuiltIn.{builtin_module, linked};
ghost use Rattle.p9_abs.specs.Programs.{routines_of, inits_of, bss_of, init_size, address_of};
ghost use Rattle.p9_names.specs.Linking.{IsTable, ChoosesAll};
ghost use Rattle.p9_pieces.specs.Callees.{named_by};
ghost use Rattle.p9_place.specs.Places.{spots};
ghost use Rattle.p9_symbols.specs.Placing.{data_start_of, placing_of};
ghost use Rattle.p9_symbols.specs.Entries.{place_of};

use crate::offsets::Offsets;
use indexmap::IndexMap;
use p9_abs::{AModule, Def, Symbol};
use p9_base::{Name, NoMemory};
use p9_names::Table;
use p9_place::Places;
use p9_text::{Entries, Program, Routine};
use std::alloc::Global;

// The first instruction of a text.
const TEXT_START: u64 = 0x1020;

const PAGE: u64 = 4096;

/// Where the data begin behind a text of so many bytes. Addresses of 2^32 and more are want of memory.
fn data_start(text_size: u32) -> Result<u32, NoMemory>
    ensures { IfOk result (λ n. n ≡ data_start_of text_size) }
{
    let pages = (TEXT_START + u64::from(text_size) + PAGE - 1) / PAGE;
    u32::try_from(pages * PAGE).map_err(|_| NoMemory)
}

// The definition that a symbol stands for: a local one is its own, and a global one's is in the table
// of names.
fn named(defs: &IndexMap<Name, Def>, own: Def, symbol: &Symbol) -> Option<Def>
    ensures { result ≡ named_by defs.now.entries own symbol.now }
{
    if symbol.local {
        return Some(own);
    }
    defs.get(&symbol.name).copied()
}

/// The addresses of functions, of their instructions, and of data.
#[derive(Drop)]
pub struct Layout<'a> {
    program: Program<'a>,
    defs: &'a IndexMap<Name, Def>,
    entries: Entries,
    offsets: Offsets,
    places: &'a [u32],
    data_start: u32,
}

impl<'a> Layout<'a> {
    ghost use Rattle.p9_symbols.specs.Held.{address_held, place_held};
    ghost use Rattle.p9_abs.specs.Names.{symbol_at};
    ghost use Rattle.std.specs.Option.{option_copied};

    /// The layout of the modules with the last, by the addresses of functions and instructions in the
    /// order of the text, which has so many bytes.
    pub fn new(
        alloc: Global,
        modules: &'a Vec<AModule>,
        last: &'a AModule,
        table: &'a Table,
        objects: &Places,
        routines: &[Routine],
        places: &'a [u32],
        text_size: u32,
    ) -> Result<Layout<'a>, NoMemory>
        requires builtin { last.now ≡ builtin_module }
        requires table { IsTable (linked modules.now.items) table.now.defs.entries }
        requires chosen { ChoosesAll (linked modules.now.items) table.now.defs.entries }
        requires inits { objects.now.inits.items ≡ spots 0 (inits_of (linked modules.now.items)) }
        requires bss { objects.now.bss.items ≡ spots objects.now.data_size (bss_of (linked modules.now.items)) }
        requires data_size { objects.now.data_size ≡ init_size (linked modules.now.items) }
        requires routines { routines.now ≡ routines_of modules.now.items }
        ensures symbols { IfOk result (λ l. l.program ≡ linked modules.now.items) }
        ensures places { IfOk result (λ l. place_held l ≡ place_of modules.now.items (placing_of modules.now.items places.now text_size)) }
        ensures addresses { IfOk result (λ l. address_held l ≡ address_of modules.now.items (placing_of modules.now.items places.now text_size)) }
    {
        Ok(Layout {
            program: Program::new(modules, last),
            defs: &table.defs,
            entries: Entries::new(alloc, routines)?,
            offsets: Offsets::new(alloc, objects)?,
            places,
            data_start: data_start(text_size)?,
        })
    }

    /// The record of a definition, where there is one.
    pub fn symbol(&self, def: Def) -> Option<&'a Symbol>
        ensures { option_copied result ≡ symbol_at self.now.program def }
    {
        self.program.symbol(def)
    }

    /// The address of a definition. Addresses of 2^32 and more are want of memory.
    pub fn place(&self, def: Def) -> Result<u32, NoMemory>
        ensures { IfOk result (λ at. at ≡ place_held self.now def) }
    {
        match self.entries.get(def) {
            Some(number) => Ok(self.places.get(number as usize).copied().unwrap_or(0)),
            None => {
                let offset = self.offsets.get(def).unwrap_or(0);
                self.data_start.checked_add(offset).ok_or(NoMemory)
            }
        }
    }

    /// The address of what a symbol stands for, or 0 of what stands for nothing.
    pub fn address(&self, own: Def) -> Result<u32, NoMemory>
        ensures { IfOk result (λ at. at ≡ address_held self.now own) }
    {
        match self.definition(own) {
            None => Ok(0),
            Some(def) => self.place(def),
        }
    }

    // The definition that a symbol stands for.
    fn definition(&self, own: Def) -> Option<Def>
        ensures { result ≡ option_and_then (named_by self.now.defs.now.entries own) (symbol_at self.now.program own) }
    {
        let symbol = self.program.symbol(own)?;
        named(self.defs, own, symbol)
    }
}
