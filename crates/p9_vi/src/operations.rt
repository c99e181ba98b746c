// What arithmetic instructions do, as effects.
ghost use Rattle.std.specs.Prelude.{◌≡◌, ◌<◌, ◌^◌, ◌%◌, ◌/◌, ◌||◌, ◌==◌};
ghost use Rattle.p9_base.specs.Words.{word_sum, word_difference, is_negative, signed_quotient, signed_remainder};
ghost use Rattle.p9_r3k.specs.Effects.{truth, low5, sum_overflows, difference_overflows, unless_overflow, wide_pair, unless_zero};

use p9_base::{is_negative, signed_quotient, signed_remainder, word_difference, word_sum};
use p9_r3k::{Effect, HaltCause};

pub fn write(register: u32, value: u32) -> Effect
    ensures { result ≡ Effect.Write register value }
{
    Effect::Write { register, value }
}

pub fn pair(hi: u32, lo: u32) -> Effect
    ensures { result ≡ Effect.Pair hi lo }
{
    Effect::Pair { hi, lo }
}

// HI and LO from 64 bits.
pub fn wide_pair(product: u64) -> Effect
    ensures { result ≡ wide_pair product }
{
    pair(
        (product / 0x1_0000_0000) as u32,
        (product % 0x1_0000_0000) as u32,
    )
}

// 1 or 0.
pub fn truth(b: bool) -> u32
    ensures { result ≡ truth b }
{
    if b { 1 } else { 0 }
}

pub fn low5(a: u32) -> u32
    ensures exact { result ≡ low5 a }
    ensures below { result < 32 }
{
    a % 32
}

// Whether the signed reading isn't above 0.
pub fn is_at_most_zero(a: u32) -> bool
    ensures { result ≡ (is_negative a || (a == 0)) }
{
    is_negative(a) || a == 0
}

// The sum, or the stop where its signed reading doesn't fit.
pub fn checked_sum(register: u32, a: u32, b: u32) -> Effect
    ensures { result ≡ unless_overflow (sum_overflows a b) register (word_sum a b) }
{
    let sum = word_sum(a, b);
    if is_negative(a) == is_negative(b) && is_negative(a) != is_negative(sum) {
        Effect::Stop(HaltCause::Overflow)
    } else {
        write(register, sum)
    }
}

// The difference, or the stop where its signed reading doesn't fit.
pub fn checked_difference(register: u32, a: u32, b: u32) -> Effect
    ensures { result ≡ unless_overflow (difference_overflows a b) register (word_difference a b) }
{
    let difference = word_difference(a, b);
    if is_negative(a) != is_negative(b) && is_negative(a) != is_negative(difference) {
        Effect::Stop(HaltCause::Overflow)
    } else {
        write(register, difference)
    }
}

// The remainder to HI and the quotient to LO, or the stop.
pub fn signed_division(a: u32, b: u32) -> Effect
    ensures { result ≡ unless_zero b (signed_remainder a b) (signed_quotient a b) }
{
    if b == 0 {
        Effect::Stop(HaltCause::Divide)
    } else {
        pair(signed_remainder(a, b), signed_quotient(a, b))
    }
}

pub fn unsigned_division(a: u32, b: u32) -> Effect
    ensures { result ≡ unless_zero b (a % b) (a / b) }
{
    if b == 0 {
        Effect::Stop(HaltCause::Divide)
    } else {
        pair(a % b, a / b)
    }
}
