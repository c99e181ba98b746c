// The executable of files that share variables.
ghost use Rattle.std.specs.Prelude.{◌≡◌, ◌≤◌, ◌<◌, ◌^◌, [], length, map, All, IfOk, Ok};
ghost use Rattle.p9_aout.specs.Image.{ImageParts, image_of, parts_of, IsWithinBounds};
ghost use Rattle.p9_first.specs.Form.{IsFile};
ghost use Rattle.p9_form.specs.Items.{items_of, source_of};
ghost use Rattle.p9_form.specs.Sharing.{AreJoined, IsSmall};
ghost use Rattle.p9_straight.specs.Code.{parts_for};
ghost use Rattle.p9_straight.specs.Building.{IsLaid};
ghost use Rattle.p9_headline.specs.Executable.{IsStripped};
ghost use Rattle.p9_headline.specs.Headline.{KeepsMeaning};
ghost use Rattle.p9_straight.specs.Headline.{EndsInTime, union_run};

use crate::code::main_code;
use crate::commons::add_files;
use crate::layout::{lay_files, push_text};
use crate::sizes::{TEXT_START, data_start, main_statements, texts_at};
use indexmap::IndexMap;
use p9_aout::{Image, write_aout};
use p9_base::{Bytes, Name, NoMemory};
use p9_form::{File, FileList};
use std::alloc::Global;

// The data that are laid out: the place of each variable, the bytes, the address of the text that the
// program ends with where `main` returns, and how many zero bytes follow.
#[derive(Drop)]
struct Laid {
    places: IndexMap<Name, u32>,
    init: Vec<u8>,
    end: u32,
    bss: u32,
}

// The data of files, from this address on.
fn laid_out(alloc: Global, start: u32, files: &[File]) -> Result<Laid, NoMemory>
    requires small { All IsSmall files.now }
    requires count { length files.now ≤ 16 }
    requires room { start < 2 ^ 23 }
    ensures { IfOk result (λ laid. IsLaid start files.now laid.places.entries laid.init.items laid.end laid.bss) }
{
    let mut places = IndexMap::new(alloc);
    let mut init = Vec::new(alloc);
    lay_files(alloc, start, &mut places, &mut init, files)?;
    let end = (start as usize + init.len()) as u32;
    push_text(&mut init, b"main")?;
    let begin = (start as usize + init.len()) as u32;
    let mut next = begin;
    add_files(alloc, &mut places, &mut next, files)?;
    Ok(Laid {
        places,
        init,
        end,
        bss: next - begin,
    })
}

// The image of files.
fn image(alloc: Global, files: &[File]) -> Result<Image, NoMemory>
    requires small { All IsSmall files.now }
    requires count { length files.now ≤ 16 }
    ensures parts { IfOk result (λ image. parts_of image ≡ parts_for files.now) }
    ensures bounds { IfOk result (λ image. IsWithinBounds (parts_of image)) }
    ensures no_symbols { IfOk result (λ image. image.syms.items ≡ []) }
{
    let statements = main_statements(files);
    let start = data_start(statements);
    let texts = texts_at(start, files);
    let laid = laid_out(alloc, start, files)?;
    let mut text = Vec::new(alloc);
    main_code(&mut text, &laid.places, texts, laid.end, statements)?;
    Ok(Image {
        entry: TEXT_START,
        text: Bytes { list: text },
        init: Bytes { list: laid.init },
        bss: laid.bss,
        syms: Vec::new(alloc),
    })
}

// The bytes of the executable.
fn image_bytes(alloc: Global, files: &FileList) -> Result<Bytes, NoMemory>
    requires form { All (λ f. IsFile (items_of f)) files.now }
    requires small { All IsSmall files.now }
    requires count { length files.now ≤ 16 }
    requires joined { AreJoined files.now }
    ensures image { IfOk result (λ bytes. image_of bytes ≡ Ok (parts_for files.now)) }
    ensures bounds { IfOk result (λ bytes. IsWithinBounds (parts_for files.now)) }
    ensures stripped { IfOk result (λ bytes. IsStripped bytes) }
{
    let image = image(alloc, &files.list)?;
    write_aout(alloc, &image)
}

/// Compiles files that are joined.
#[tactic(auto, using(crate::proofs::Compiled::compiled_keeps))]
pub fn compile(alloc: Global, files: &FileList) -> Result<Bytes, NoMemory>
    requires form { All (λ f. IsFile (items_of f)) files.now }
    requires small { All IsSmall files.now }
    requires count { length files.now ≤ 16 }
    requires joined { AreJoined files.now }
    ensures image { IfOk result (λ bytes. image_of bytes ≡ Ok (parts_for files.now)) }
    ensures bounds { IfOk result (λ bytes. IsWithinBounds (parts_for files.now)) }
    ensures stripped { IfOk result (λ bytes. IsStripped bytes) }
    ensures keeps { IfOk result (λ bytes. KeepsMeaning (union_run (map source_of files.now)) bytes) }
    ensures ends { IfOk result (λ bytes. EndsInTime (map source_of files.now) bytes) }
{
    image_bytes(alloc, files)
}
