// The first content of an object.
ghost use Rattle.std.specs.Prelude.{◌≡◌, ◌≢◌, ◌⊎◌, ◌<◌, ◌≤◌, ◌+◌, ◌^◌, length, map, slice_get, All, Some, Err, IfOk, IfErr, OnOk};
ghost use Rattle.p9_abs.specs.Validity.{IsFilled};
ghost use Rattle.p9_lang.specs.Layout.{size_of};
ghost use Rattle.p9_lang.specs.TagRules.{NoneContainsItself};
ghost use Rattle.p9_lang.specs.Types.{tags_of, type_of};
ghost use Rattle.p9_tree.specs.declared.module.TSym.{TSym};
ghost use Rattle.p9_tree.specs.Contents as contents;
ghost use Rattle.p9_tree.specs.Modules.{entry_of, initialiser_of};
ghost use Rattle.p9_init.specs.Cells.{ArePlaced};
ghost use Rattle.p9_init.specs.Contents.{HasSize, IsImage, broken_item};
ghost use Rattle.p9_init.specs.Images.{EntryInside, EntryWritten, AllWritten, IsObjectOf, LieInside};

use crate::cell::InitCell;
use crate::content::content_of;
use crate::fault::InitFault;
use crate::parting::pieces_of;
use crate::value::write_content;
use p9_abs::Pieces;
use p9_lang::{CType, Tags};
use p9_tree::{TEntry, TInit, TModule};
use p9_types::{TypeFault, layout};
use std::alloc::Global;

// How many bytes an object of the type has.
fn size_of(alloc: Global, ty: &CType, tags: &Tags) -> Result<u32, InitFault>
    requires ends { NoneContainsItself (tags_of tags.now.list) }
    requires size { HasSize (tags_of tags.now.list) (type_of ty.now) }
    ensures size { IfOk result (λ size. size ≡ size_of (tags_of tags.now.list) (type_of ty.now)) }
    ensures within { IfOk result (λ size. size ≤ 16777216) }
    ensures no_memory { IfErr result (λ fault. fault ≡ InitFault.Memory) }
{
    match layout(alloc, ty, tags) {
        Ok(layout) => Ok(layout.size),
        Err(TypeFault::Memory) => Err(InitFault::Memory),
        Err(TypeFault::Incomplete | TypeFault::BadConstant) => unreachable!(),
    }
}

// Writes an entry into the cells of its object.
fn write_entry(cells: &mut [InitCell], entry: &TEntry) -> Result<(), InitFault>
    requires size { length cells.old + 8 ≤ 2 ^ 32 }
    requires inside { EntryInside entry.now (length cells.old) }
    requires parts { ArePlaced cells.old }
    ensures written { OnOk result (EntryWritten entry.now cells.old cells.new) }
    ensures refused { IfErr result (λ fault. contents.entry_write (entry_of entry.now) ≡ Err (broken_item fault)) }
    ensures named { IfErr result (λ fault. fault ≢ InitFault.Memory) }
{
    let content = content_of(entry)?;
    write_content(cells, entry.offset as usize, &entry.ty, content);
    Ok(())
}

// Writes entries one after the other.
fn write_entries(cells: &mut [InitCell], entries: &[TEntry]) -> Result<(), InitFault>
    requires size { length cells.old + 8 ≤ 2 ^ 32 }
    requires inside { All (λ entry. EntryInside entry (length cells.old)) entries.now }
    requires parts { ArePlaced cells.old }
    ensures written { OnOk result (AllWritten entries.now cells.old cells.new) }
    ensures refused { IfErr result (λ fault. contents.writes_of (map entry_of entries.now) ≡ Err (broken_item fault)) }
    ensures named { IfErr result (λ fault. fault ≢ InitFault.Memory) }
{
    let mut rest = entries;
    while let [entry, after @ ..] = rest {
        write_entry(cells, entry)?;
        rest = after;
    }
    Ok(())
}

// The pieces that an initialiser leaves in an object of this type.
fn pieces_in(alloc: Global, init: &TInit, ty: &CType, tags: &Tags) -> Result<Pieces, InitFault>
    requires ends { NoneContainsItself (tags_of tags.now.list) }
    requires size { HasSize (tags_of tags.now.list) (type_of ty.now) }
    requires inside { LieInside (tags_of tags.now.list) (type_of ty.now) init.now.entries }
    ensures image { IfOk result (IsImage (tags_of tags.now.list) (type_of ty.now) (initialiser_of init.now).entries) }
    ensures filled { IfOk result (λ pieces. All IsFilled pieces) }
    ensures refused { IfErr result (λ fault. (fault ≡ InitFault.Memory)
        ⊎ (contents.writes_of (initialiser_of init.now).entries ≡ Err (broken_item fault))) }
{
    let size = size_of(alloc, ty, tags)?;
    let mut cells = vec![in alloc; InitCell::Byte(0); size as usize]?;
    write_entries(&mut cells, init.entries.as_slice())?;
    Ok(pieces_of(alloc, &cells)?)
}

/// The bytes and addresses that an initialiser of a module leaves in its object; what no entry writes is
/// 0. Refused is the first item that is no constant or is too many, by its node. A later entry writes
/// over an earlier one; of an address that it writes over in part the other bytes become 0.
pub fn image(alloc: Global, init: &TInit, whole: &TModule) -> Result<Pieces, InitFault>
    requires ends { NoneContainsItself (tags_of whole.now.tags.list) }
    requires symbol { init.now.symbol < length whole.now.symbols }
    requires object { (symbol : TSym) → slice_get whole.now.symbols init.now.symbol ≡ Some symbol → IsObjectOf whole.now symbol init.now }
    ensures image { (symbol : TSym) → slice_get whole.now.symbols init.now.symbol ≡ Some symbol
        → IfOk result (IsImage (tags_of whole.now.tags.list) (type_of symbol.ty) (initialiser_of init.now).entries) }
    ensures filled { IfOk result (λ pieces. All IsFilled pieces) }
    ensures refused { IfErr result (λ fault. (fault ≡ InitFault.Memory)
        ⊎ (contents.writes_of (initialiser_of init.now).entries ≡ Err (broken_item fault))) }
{
    let symbol = &whole.symbols.as_slice()[init.symbol as usize];
    pieces_in(alloc, init, &symbol.ty, &whole.tags)
}
