// Expanded modules as an executable.
ghost use Rattle.std.specs.Prelude.{◌≡◌, ◌<◌, ◌^◌, ◌*◌, All, length, IfOk, OnOk};
ghost use Rattle.p9_abs.specs.BuiltIn.{linked};
ghost use Rattle.p9_abs.specs.Programs.{IsPlacing, bss_size, init_bytes};
ghost use Rattle.p9_object.specs.Laws.{IsObject};
ghost use Rattle.p9_image.specs.Text.{LinesFit, text_bytes};
ghost use Rattle.p9_aout.specs.Symbols.{symbol_bytes};
ghost use Rattle.p9_symbols.specs.Placing.{placing_of};
ghost use Rattle.p9_symbols.specs.Tables.{symbol_tables};
ghost use Rattle.p9_symbols.specs.Entries.{symbol_entries};
ghost use Rattle.p9_load.specs.Loading.{Loads, placing, RunsAsModules};
ghost use Rattle.p9_load.specs.Expansions.{IsExpansion};
ghost use Rattle.p9_load.specs.Refusals.{AreLoadable};

use crate::addresses::entered_addresses;
use crate::expansion::Expansion;
use crate::loaded::Loaded;
use p9_abs::AModule;
use p9_aout::{AoutSym, Image, write_aout};
use p9_base::{Bytes, NoMemory};
use p9_data::data_bytes;
use p9_image::text_bytes;
use p9_names::builtin;
use p9_r3k::Line;
use p9_slot::schedule;
use p9_symbols::{Layout, symbol_entries, symbol_tables};
use p9_text::routines;
use std::alloc::Global;

/// The address of the first instruction.
const TEXT_START: u32 = 0x1020;

// The bytes of a text of so many lines.
fn text_size(lines: &[Line]) -> Result<u32, NoMemory>
    ensures { IfOk result (λ n. n ≡ 4 * length lines.now) }
{
    let words = u32::try_from(lines.len()).map_err(|_| NoMemory)?;
    words.checked_mul(4).ok_or(NoMemory)
}

// The bytes of symbol entries. 2^32 and more are want of memory.
fn entries_size(entries: &[AoutSym]) -> Result<u32, NoMemory>
    ensures size { IfOk result (λ n. n ≡ length (symbol_bytes entries.now)) }
{
    let mut size: u32 = 0;
    let mut rest = entries;
    while let [entry, after @ ..] = rest {
        let name = u32::try_from(entry.name.list.len()).map_err(|_| NoMemory)?;
        size = size.checked_add(6).ok_or(NoMemory)?;
        size = size.checked_add(name).ok_or(NoMemory)?;
        rest = after;
    }
    Ok(size)
}

// The parts of the executable of expanded modules, from their scheduled lines and the addresses of
// functions and instructions.
fn image(
    alloc: Global,
    modules: &Vec<AModule>,
    expansion: &Expansion,
    lines: &[Line],
    places: &[u32],
    text_size: u32,
) -> Result<Image, NoMemory>
    requires count { length modules.now.items < 2 ^ 32 }
    requires small { All (λ m. length m.symbols < 2 ^ 32) modules.now.items }
    requires expansion { IsExpansion modules.now.items expansion.now }
    requires fit { LinesFit lines.now }
    requires lines { length lines.now < 2 ^ 32 }
    ensures entry { IfOk result (λ image. image.entry ≡ 0x1020) }
    ensures text { IfOk result (λ image. image.text ≡ text_bytes (symbol_tables modules.now.items (placing_of modules.now.items places.now text_size)) lines.now) }
    ensures init { IfOk result (λ image. image.init ≡ init_bytes modules.now.items (placing_of modules.now.items places.now text_size)) }
    ensures bss { IfOk result (λ image. image.bss ≡ bss_size (linked modules.now.items)) }
    ensures symbols { IfOk result (λ image. image.syms.items ≡ symbol_entries modules.now.items (placing_of modules.now.items places.now text_size)) }
{
    let last = builtin(alloc)?;
    let routines = routines(alloc, modules, &last)?;
    let data = &expansion.places;
    let layout = Layout::new(
        alloc,
        modules,
        &last,
        &expansion.table,
        data,
        &routines,
        places,
        text_size,
    )?;
    let tables = symbol_tables(alloc, &layout, modules, &last)?;
    let text = text_bytes(alloc, &tables, lines)?;
    let init = data_bytes(alloc, &tables, modules, &last)?;
    Ok(Image {
        entry: TEXT_START,
        text: Bytes { list: text },
        init: Bytes { list: init },
        bss: data.bss_size,
        syms: symbol_entries(alloc, &layout, &routines, data)?,
    })
}

/// The executable of expanded modules.
pub(crate) fn written(
    alloc: Global,
    modules: &Vec<AModule>,
    expansion: &Expansion,
) -> Result<Loaded, NoMemory>
    requires objects { All IsObject modules.now.items }
    requires count { length modules.now.items < 2 ^ 32 }
    requires expansion { IsExpansion modules.now.items expansion.now }
    requires loadable { AreLoadable modules.now.items }
    ensures loads { IfOk result (Loads modules.now.items) }
    ensures placed { IfOk result (λ loaded. IsPlacing modules.now.items (placing modules.now.items loaded)) }
    ensures runs { IfOk result (RunsAsModules modules.now.items) }
{
    let scheduled = schedule(alloc, &expansion.lines)?;
    let lines = scheduled.lines.list.as_slice();
    let places = entered_addresses(alloc, &expansion.starts, &scheduled.moved, lines)?;
    let text_size = text_size(lines)?;
    let image = image(alloc, modules, expansion, lines, &places, text_size)?;
    entries_size(&image.syms)?;
    let bytes = write_aout(alloc, &image)?;
    Ok(Loaded {
        bytes,
        entry: TEXT_START,
        text_size,
        places,
    })
}
