// The operations on words that C's meaning and the machine share.
ghost use Rattle.std.specs.Prelude.{◌≡◌, ◌<◌, ◌≢◌, bit_and, bit_or, bit_xor};
ghost use Rattle.p9_base.specs.Words.{word_sum, word_difference, word_negation, word_product, is_negative, is_signed_less, magnitude, with_sign, wide, signed_quotient, signed_remainder, unsigned_product, signed_product, shift_left, shift_right, shift_right_signed, low8, low16, word_complement, word_nor};

/// The sum modulo 2^32.
pub fn word_sum(a: u32, b: u32) -> u32
    ensures { result ≡ word_sum a b }
{
    a.wrapping_add(b)
}

/// The difference modulo 2^32.
pub fn word_difference(a: u32, b: u32) -> u32
    ensures { result ≡ word_difference a b }
{
    a.wrapping_sub(b)
}

/// What is added to a word to give 0 modulo 2^32.
pub fn word_negation(a: u32) -> u32
    ensures { result ≡ word_negation a }
{
    if a == 0 { 0 } else { u32::MAX - a + 1 }
}

/// The product modulo 2^32.
pub fn word_product(a: u32, b: u32) -> u32
    ensures { result ≡ word_product a b }
{
    a.wrapping_mul(b)
}

/// Whether the word's signed reading is below 0.
pub fn is_negative(a: u32) -> bool
    ensures { result ≡ is_negative a }
{
    a >= 0x8000_0000
}

/// Whether the one word is below the other in the signed reading.
pub fn is_signed_less(a: u32, b: u32) -> bool
    ensures { result ≡ is_signed_less a b }
{
    if is_negative(a) {
        if is_negative(b) { a < b } else { true }
    } else if is_negative(b) {
        false
    } else {
        a < b
    }
}

// How far the signed reading is from 0.
fn magnitude(a: u32) -> u32
    ensures { result ≡ magnitude a }
{
    if is_negative(a) { u32::MAX - a + 1 } else { a }
}

// A size with a sign.
fn with_sign(negative: bool, size: u32) -> u32
    ensures { result ≡ with_sign negative size }
{
    if negative { word_negation(size) } else { size }
}

/// The quotient of the signed readings, cut towards 0.
pub fn signed_quotient(a: u32, b: u32) -> u32
    requires { b ≢ 0 }
    ensures { result ≡ signed_quotient a b }
{
    with_sign(
        is_negative(a) != is_negative(b),
        magnitude(a) / magnitude(b),
    )
}

/// The remainder of that quotient, with the dividend's sign.
pub fn signed_remainder(a: u32, b: u32) -> u32
    requires { b ≢ 0 }
    ensures { result ≡ signed_remainder a b }
{
    with_sign(is_negative(a), magnitude(a) % magnitude(b))
}

/// The product of the words as they stand, whole.
pub fn unsigned_product(a: u32, b: u32) -> u64
    ensures { result ≡ unsigned_product a b }
{
    u64::from(a) * u64::from(b)
}

// The word with its sign in 64 bits.
fn wide(a: u32) -> u64
    ensures { result ≡ wide a }
{
    if is_negative(a) {
        u64::from(a) + 0xFFFF_FFFF_0000_0000
    } else {
        u64::from(a)
    }
}

/// The product of the signed readings, as 64 bits.
pub fn signed_product(a: u32, b: u32) -> u64
    ensures { result ≡ signed_product a b }
{
    wide(a).wrapping_mul(wide(b))
}

/// The word shifted left, modulo 2^32.
pub fn shift_left(a: u32, k: u32) -> u32
    requires { k < 32 }
    ensures { result ≡ shift_left a k }
{
    a << k
}

/// The word shifted right, zeros coming in.
pub fn shift_right(a: u32, k: u32) -> u32
    requires { k < 32 }
    ensures { result ≡ shift_right a k }
{
    a >> k
}

/// The word shifted right, its sign coming in.
#[tactic(auto, using(crate::proofs::Shifts::ones_shifted, crate::proofs::Shifts::shifted_below))]
pub fn shift_right_signed(a: u32, k: u32) -> u32
    requires { k < 32 }
    ensures { result ≡ shift_right_signed a k }
{
    if is_negative(a) {
        (a >> k) + (u32::MAX - (u32::MAX >> k))
    } else {
        a >> k
    }
}

/// The low 8 bits.
pub fn low8(a: u32) -> u32
    ensures { result ≡ low8 a }
{
    a % 0x100
}

/// The low 16 bits.
pub fn low16(a: u32) -> u32
    ensures { result ≡ low16 a }
{
    a % 0x1_0000
}

/// The bits that both words have.
pub fn word_and(a: u32, b: u32) -> u32
    ensures { result ≡ bit_and a b }
{
    a & b
}

/// The bits that either word has.
pub fn word_or(a: u32, b: u32) -> u32
    ensures { result ≡ bit_or a b }
{
    a | b
}

/// The bits that one of the words has.
pub fn word_xor(a: u32, b: u32) -> u32
    ensures { result ≡ bit_xor a b }
{
    a ^ b
}

/// The bits that the word lacks.
pub fn word_complement(a: u32) -> u32
    ensures { result ≡ word_complement a }
{
    !a
}

/// The bits that neither word has.
pub fn word_nor(a: u32, b: u32) -> u32
    ensures { result ≡ word_nor a b }
{
    !(a | b)
}
