// Contents that are written into an object's cells.
ghost use Rattle.std.specs.Prelude.{◌≡◌, ◌≤◌, ◌+◌, ◌/◌, ◌%◌, ◌<◌, ◌^◌, ℕ, length, IsTrue, List};
ghost use Rattle.p9_lang.specs.Conversions.{is_scalar};
ghost use Rattle.p9_lang.specs.Layout.{size_of};
ghost use Rattle.p9_lang.specs.Types.{Tags, type_of};
ghost use Rattle.p9_init.specs.Cells.{ArePlaced};
ghost use Rattle.p9_init.specs.Contents.{FitsType, IsWidth, IsWithin, IsWritten};

use crate::cell::InitCell;
use crate::content::Content;
use crate::writing::write;
use p9_lang::CType;

/// How many bytes a scalar has.
#[tactic(auto, using(p9_types::proofs::Shapes::shapes))]
fn scalar_size(ty: &CType) -> u32
    requires { IsTrue (is_scalar (type_of ty.now)) }
    ensures size { (tags : Tags) → size_of tags (type_of ty.now) ≡ result }
    ensures width { IsWidth result }
{
    match ty {
        CType::Char | CType::UChar => 1,
        CType::Short | CType::UShort => 2,
        CType::Int | CType::UInt | CType::Long | CType::ULong | CType::Pointer(_) => 4,
        CType::Void | CType::Array(..) | CType::Function(..) | CType::Tagged(_) => unreachable!(),
    }
}

// The byte of a word that comes so many values above its lowest.
fn byte_cell(word: u32, scale: u32) -> InitCell
    requires { 1 ≤ scale }
    ensures { result ≡ InitCell.Byte (word / scale % 256) }
{
    InitCell::Byte((word / scale % 256) as u8)
}

fn write_byte(cells: &mut [InitCell], start: usize, word: u32)
    requires size { length cells.old + 8 ≤ 2 ^ 32 }
    requires within { start + 1 ≤ length cells.old }
    requires parts { ArePlaced cells.old }
    ensures { IsWritten start 1 (Content.Word word) cells.old cells.new }
{
    write(cells, start, &[byte_cell(word, 1)]);
}

fn write_half(cells: &mut [InitCell], start: usize, word: u32)
    requires size { length cells.old + 8 ≤ 2 ^ 32 }
    requires within { start + 2 ≤ length cells.old }
    requires parts { ArePlaced cells.old }
    ensures { IsWritten start 2 (Content.Word word) cells.old cells.new }
{
    write(cells, start, &[byte_cell(word, 256), byte_cell(word, 1)]);
}

fn write_word(cells: &mut [InitCell], start: usize, word: u32)
    requires size { length cells.old + 8 ≤ 2 ^ 32 }
    requires within { start + 4 ≤ length cells.old }
    requires parts { ArePlaced cells.old }
    ensures { IsWritten start 4 (Content.Word word) cells.old cells.new }
{
    let bytes = [
        byte_cell(word, 16_777_216),
        byte_cell(word, 65_536),
        byte_cell(word, 256),
        byte_cell(word, 1),
    ];
    write(cells, start, &bytes);
}

fn part_cell(part: u8, symbol: u32, offset: u32) -> InitCell
    ensures { result ≡ InitCell.Part part symbol offset }
{
    InitCell::Part {
        part,
        symbol,
        offset,
    }
}

fn write_address(cells: &mut [InitCell], start: usize, symbol: u32, offset: u32)
    requires size { length cells.old + 8 ≤ 2 ^ 32 }
    requires within { start + 4 ≤ length cells.old }
    requires parts { ArePlaced cells.old }
    ensures { (size : ℕ) → IsWritten start size (Content.AddressOf symbol offset) cells.old cells.new }
{
    let parts = [
        part_cell(0, symbol, offset),
        part_cell(1, symbol, offset),
        part_cell(2, symbol, offset),
        part_cell(3, symbol, offset),
    ];
    write(cells, start, &parts);
}

fn write_number(cells: &mut [InitCell], start: usize, size: u32, word: u32)
    requires size { length cells.old + 8 ≤ 2 ^ 32 }
    requires width { IsWidth size }
    requires within { start + size ≤ length cells.old }
    requires parts { ArePlaced cells.old }
    ensures { IsWritten start size (Content.Word word) cells.old cells.new }
{
    match size {
        1 => write_byte(cells, start, word),
        2 => write_half(cells, start, word),
        _ => write_word(cells, start, word),
    }
}

/// Writes the content of a scalar of this type over the cells from `start` on.
pub(crate) fn write_content(cells: &mut [InitCell], start: usize, ty: &CType, content: Content)
    requires size { length cells.old + 8 ≤ 2 ^ 32 }
    requires scalar { IsTrue (is_scalar (type_of ty.now)) }
    requires fits { FitsType (type_of ty.now) content }
    requires within { IsWithin start (type_of ty.now) (length cells.old) }
    requires parts { ArePlaced cells.old }
    ensures { (tags : Tags) → IsWritten start (size_of tags (type_of ty.now)) content cells.old cells.new }
{
    match content {
        Content::Word(word) => write_number(cells, start, scalar_size(ty), word),
        Content::AddressOf { symbol, offset } => write_address(cells, start, symbol, offset),
    }
}
