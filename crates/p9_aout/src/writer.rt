// An image as the bytes of an executable.
ghost use Rattle.std.specs.Prelude.{◌≡◌, ◌^◌, ◌<◌, ◌++◌, length, vec_len, All, IfOk, OnOk};
ghost use Rattle.p9_base.specs.Numbers.{word_bytes};
ghost use Rattle.p9_aout.specs.Header.{header_bytes};
ghost use Rattle.p9_aout.specs.Image.{image_of, parts_of, IsWithinBounds};
ghost use Rattle.p9_aout.specs.Symbols.{entry_bytes, symbol_bytes, symbols_at, HasPlainLetter, HasWordValue, HasWholeName};
ghost use Rattle.p9_aout.specs.Spelled.{spelled, symbol_part};

use crate::format::{AoutSym, HEADER_SIZE, Header, Image, MAGIC};
use byteorder::{BigEndian, ByteOrder};
use p9_base::{Bytes, NoMemory};
use std::alloc::Global;

// Appends a word, its highest byte first.
fn push_word(out: &mut Vec<u8>, word: u32) -> Result<(), NoMemory>
    ensures { OnOk result (out.new.items ≡ out.old.items ++ word_bytes word) }
{
    let mut bytes = [0u8; 4];
    BigEndian::write_u32(&mut bytes, word);
    out.extend_from_slice(&bytes)?;
    Ok(())
}

// Appends the words of a header.
fn push_header(out: &mut Vec<u8>, header: &Header) -> Result<(), NoMemory>
    ensures { OnOk result (out.new.items ≡ out.old.items ++ header_bytes header.now) }
{
    push_word(out, header.magic)?;
    push_word(out, header.text_size)?;
    push_word(out, header.data_size)?;
    push_word(out, header.bss_size)?;
    push_word(out, header.syms_size)?;
    push_word(out, header.entry)?;
    push_word(out, header.sp_size)?;
    push_word(out, header.pc_size)?;
    Ok(())
}

// Appends a symbol entry.
fn push_symbol(out: &mut Vec<u8>, symbol: &AoutSym) -> Result<(), NoMemory>
    ensures entry { OnOk result (out.new.items ≡ out.old.items ++ entry_bytes symbol.now) }
    ensures word { HasWordValue symbol.now }
{
    push_word(out, symbol.value)?;
    out.extend_from_slice(&[symbol.letter % 128 + 128])?;
    out.extend_from_slice(&symbol.name.list)?;
    out.extend_from_slice(&[0])?;
    Ok(())
}

// The symbol entries, in order.
fn symbol_table(alloc: Global, symbols: &[AoutSym]) -> Result<Vec<u8>, NoMemory>
    ensures entries { IfOk result (λ table. table.items ≡ symbol_bytes symbols.now) }
    ensures words { OnOk result (All HasWordValue symbols.now) }
{
    let mut table = Vec::new(alloc);
    for symbol in symbols {
        push_symbol(&mut table, symbol)?;
    }
    Ok(table)
}

// The bytes of an executable.
#[tactic(auto, unfolding(crate::specs::Spelled::spelled))]
fn spelled_bytes(alloc: Global, image: &Image) -> Result<Bytes, NoMemory>
    requires bounds { IsWithinBounds (parts_of image.now) }
    requires symbols { length (symbol_bytes image.now.syms.items) < 2 ^ 32 }
    ensures bytes { IfOk result (λ bytes. bytes ≡ spelled image.now) }
    ensures words { OnOk result (All HasWordValue image.now.syms.items) }
{
    let symbols = symbol_table(alloc, &image.syms)?;
    let text = image.text.list.as_slice();
    let data = image.init.list.as_slice();
    let header = Header {
        magic: MAGIC,
        text_size: text.len() as u32,
        data_size: data.len() as u32,
        bss_size: image.bss,
        syms_size: symbols.len() as u32,
        entry: image.entry,
        sp_size: 0,
        pc_size: 0,
    };
    let size = HEADER_SIZE + text.len() + data.len() + symbols.len();
    let mut list = Vec::with_capacity(alloc, size)?;
    push_header(&mut list, &header)?;
    list.extend_from_slice(text)?;
    list.extend_from_slice(data)?;
    list.extend_from_slice(&symbols)?;
    Ok(Bytes { list })
}

/// The bytes of an executable, with the symbols in the order given and no table for debuggers. A
/// letter's high bit is set in its type byte, whether or not it was set before.
#[tactic(auto, using(crate::proofs::Writing::bytes_read_back, crate::proofs::Entries::symbols_read_back))]
pub fn write_aout(alloc: Global, image: &Image) -> Result<Bytes, NoMemory>
    requires bounds { IsWithinBounds (parts_of image.now) }
    requires symbols { length (symbol_bytes image.now.syms.items) < 2 ^ 32 }
    requires names { All HasWholeName image.now.syms.items }
    ensures bytes { IfOk result (λ bytes. bytes ≡ spelled image.now) }
    ensures read_back { IfOk result (λ bytes. image_of bytes ≡ Ok (parts_of image.now)) }
    ensures symbols_read_back { All HasPlainLetter image.now.syms.items →
        IfOk result (λ bytes.
        symbols_at (vec_len image.now.syms) (symbol_part image.now bytes) ≡ image.now.syms.items) }
{
    spelled_bytes(alloc, image)
}
