// Bytes as an executable.
ghost use Rattle.std.specs.Prelude.{◌≡◌, ◌+◌, ◌≤◌, ◌↔◌, ℕ, [], true, length, IfOk, IfErr, IsErrOf};
ghost use Rattle.p9_base.specs.Numbers.{word_at};
ghost use Rattle.p9_aout.specs.Header.{header_of, has_good_segments, file_size};
ghost use Rattle.p9_aout.specs.Image.{image_for, image_of, parts_of, parts_at, IsWithinBounds};

use crate::format::{
    AoutFault, HEADER_SIZE, Header, Image, MAGIC, MOST_DATA, MOST_TEXT, TEXT_START,
};
use byteorder::{BigEndian, ByteOrder};
use p9_base::Bytes;
use std::alloc::Global;

// The word of the four bytes from `at` on.
fn word(bytes: &[u8], at: usize) -> u32
    requires { at + 4 ≤ length bytes.now }
    ensures { result ≡ word_at bytes.now at }
{
    BigEndian::read_u32(&bytes[at..])
}

// The words at the head of a file.
fn read_header(bytes: &[u8]) -> Header
    requires { 32 ≤ length bytes.now }
    ensures { result ≡ header_of bytes.now }
{
    Header {
        magic: word(bytes, 0),
        text_size: word(bytes, 4),
        data_size: word(bytes, 8),
        bss_size: word(bytes, 12),
        syms_size: word(bytes, 16),
        entry: word(bytes, 20),
        sp_size: word(bytes, 24),
        pc_size: word(bytes, 28),
    }
}

// Whether the sizes of text and data and the entry are within the bounds.
fn has_good_segments(header: &Header) -> bool
    ensures { result ≡ has_good_segments header.now }
{
    header.text_size % 4 == 0
        && header.text_size > 0
        && header.text_size <= MOST_TEXT
        && u64::from(header.data_size) + u64::from(header.bss_size) <= u64::from(MOST_DATA)
        && header.entry % 4 == 0
        && header.entry >= TEXT_START
        && u64::from(header.entry) < u64::from(TEXT_START) + u64::from(header.text_size)
}

// The bytes that a file with this header has.
fn file_size(header: &Header) -> u64
    ensures { result ≡ file_size header.now }
{
    32 + u64::from(header.text_size)
        + u64::from(header.data_size)
        + u64::from(header.syms_size)
        + u64::from(header.sp_size)
        + u64::from(header.pc_size)
}

// The header of an image for the machine with this magic number, or the first fault.
#[tactic(auto, using(crate::proofs::Reading::no_header, crate::proofs::Reading::other_magic, crate::proofs::Reading::bad_segment, crate::proofs::Reading::cut_short, crate::proofs::Reading::whole))]
fn checked_header(magic: u32, bytes: &[u8]) -> Result<Header, AoutFault>
    ensures header { IfOk result (λ header. header ≡ header_of bytes.now) }
    ensures good { IfOk result (λ header. has_good_segments header ≡ true) }
    ensures long { IfOk result (λ header. file_size header ≤ length bytes.now) }
    ensures image { IfOk result (λ header. image_for magic bytes.now ≡ Ok (parts_at bytes.now header)) }
    ensures fault { IfErr result (λ fault. image_for magic bytes.now ≡ Err fault) }
{
    if bytes.len() < HEADER_SIZE {
        return Err(AoutFault::ShortFile(32));
    }
    let header = read_header(bytes);
    if header.magic != magic {
        return Err(AoutFault::BadMagic(header.magic));
    }
    if !has_good_segments(&header) {
        return Err(AoutFault::BadSegment);
    }
    let need = file_size(&header);
    if (bytes.len() as u64) < need {
        return Err(AoutFault::ShortFile(need));
    }
    Ok(header)
}

// The parts of a file with this header.
fn image_at(alloc: Global, bytes: &[u8], header: &Header) -> Result<Image, AoutFault>
    requires { file_size header.now ≤ length bytes.now }
    ensures parts { IfOk result (λ image. parts_of image ≡ parts_at bytes.now header.now) }
    ensures no_symbols { IfOk result (λ image. image.syms.items ≡ []) }
    ensures memory { IfErr result (λ fault. fault ≡ AoutFault.Memory) }
{
    let text_end = HEADER_SIZE + header.text_size as usize;
    let data_end = text_end + header.data_size as usize;
    let text = bytes[HEADER_SIZE..text_end].to_vec(alloc)?;
    let init = bytes[text_end..data_end].to_vec(alloc)?;
    Ok(Image {
        entry: header.entry,
        text: Bytes { list: text },
        init: Bytes { list: init },
        bss: header.bss_size,
        syms: Vec::new(alloc),
    })
}

/// The image of a file's bytes, without its symbols, for the machine whose executables begin with
/// this magic number. Of several faults the first counts, in the order of a file too short for a
/// header, the magic number, the sizes with the entry, and a file too short for its sizes. Want of
/// memory hides no fault.
#[tactic(auto, using(crate::proofs::Reading::within_bounds))]
pub fn read_with_magic(alloc: Global, magic: u32, bytes: &[u8]) -> Result<Image, AoutFault>
    ensures image { IfOk result (λ image. image_for magic bytes.now ≡ Ok (parts_of image)) }
    ensures bounds { IfOk result (λ image. IsWithinBounds (parts_of image)) }
    ensures no_symbols { IfOk result (λ image. image.syms.items ≡ []) }

    ensures magic { (m : ℕ) →
        IsErrOf result (AoutFault.BadMagic m) ↔ (image_for magic bytes.now ≡ Err (AoutFault.BadMagic m)) }
    ensures short { (need : ℕ) →
        IsErrOf result (AoutFault.ShortFile need) ↔ (image_for magic bytes.now ≡ Err (AoutFault.ShortFile need)) }
    ensures segment { IsErrOf result AoutFault.BadSegment ↔ (image_for magic bytes.now ≡ Err AoutFault.BadSegment) }
{
    let header = checked_header(magic, bytes)?;
    image_at(alloc, bytes, &header)
}

/// The image of a file's bytes, without its symbols, for the big-endian R3000. Faults come in the
/// order of `read_with_magic`.
pub fn read_aout(alloc: Global, bytes: &[u8]) -> Result<Image, AoutFault>
    ensures image { IfOk result (λ image. image_of bytes.now ≡ Ok (parts_of image)) }
    ensures bounds { IfOk result (λ image. IsWithinBounds (parts_of image)) }
    ensures no_symbols { IfOk result (λ image. image.syms.items ≡ []) }

    ensures magic { (m : ℕ) →
        IsErrOf result (AoutFault.BadMagic m) ↔ (image_of bytes.now ≡ Err (AoutFault.BadMagic m)) }
    ensures short { (need : ℕ) →
        IsErrOf result (AoutFault.ShortFile need) ↔ (image_of bytes.now ≡ Err (AoutFault.ShortFile need)) }
    ensures segment { IsErrOf result AoutFault.BadSegment ↔ (image_of bytes.now ≡ Err AoutFault.BadSegment) }
{
    read_with_magic(alloc, MAGIC, bytes)
}
