// Words of 32 bits: their fields, signs and bytes.
ghost use Rattle.std.specs.Prelude.{◌≡◌, ◌+◌, ◌≤◌, ◌++◌, length, take, drop};
ghost use Rattle.p9_base.specs.Numbers.{field_of, sign_extended, word_at, word_bytes};

/// The low 8 bits, with the highest of them as the sign.
pub fn sext8(w: u32) -> u32
    ensures { result ≡ sign_extended 8 w }
{
    let low = w % 0x100;
    if low < 0x80 { low } else { low + 0xFFFF_FF00 }
}

/// The low 16 bits, with the highest of them as the sign.
pub fn sext16(w: u32) -> u32
    ensures { result ≡ sign_extended 16 w }
{
    let low = w % 0x1_0000;
    if low < 0x8000 { low } else { low + 0xFFFF_0000 }
}

/// `count` bits from bit `low`, which counts from the least.
pub fn field(w: u32, low: u32, count: u32) -> u32
    requires some { 1 ≤ count }
    requires within { low + count ≤ 32 }
    ensures { result ≡ field_of w low count }
{
    let shifted = u64::from(w >> low);
    let size = 1u64 << count;
    (shifted % size) as u32
}

/// The word of the four bytes from `at` on, the highest first.
pub fn get32(bytes: &[u8], at: usize) -> u32
    requires { at + 4 ≤ length bytes.now }
    ensures { result ≡ word_at bytes.now at }
{
    let first = u32::from(bytes[at]);
    let second = u32::from(bytes[at + 1]);
    let third = u32::from(bytes[at + 2]);
    let fourth = u32::from(bytes[at + 3]);
    first * 0x100_0000 + second * 0x1_0000 + third * 0x100 + fourth
}

/// Writes a word into the four bytes from `at` on, the highest first.
pub fn put32(bytes: &mut [u8], at: usize, w: u32)
    requires { at + 4 ≤ length bytes.old }
    ensures { bytes.new ≡ take at bytes.old ++ word_bytes w ++ drop (at + 4) bytes.old }
{
    let word = [
        (w / 0x100_0000 % 0x100) as u8,
        (w / 0x1_0000 % 0x100) as u8,
        (w / 0x100 % 0x100) as u8,
        (w % 0x100) as u8,
    ];
    bytes[at..at + 4].copy_from_slice(&word);
}
