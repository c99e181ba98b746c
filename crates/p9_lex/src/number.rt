// Numbers.
ghost use Rattle.std.specs.Prelude.{◌≡◌, ◌+◌, ◌*◌, ◌^◌, ◌<◌, ◌≤◌, IsTrue, length, SomeIff};
ghost use Rattle.p9_lex.specs.Classes.{digit_value, is_digit};
ghost use Rattle.p9_lex.specs.Number.{is_unsigned_mark, is_long_mark, number_end, after_unsigned, after_long, after_digits, digits, hexadecimal, after_zero, number};
ghost use Rattle.p9_lex.specs.Broken.{IsInside};

use crate::broken::{Break, bad_byte, wide_number};
use crate::classes::{digit_value, is_digit_of, is_name_byte};

/// A number, and how many bytes spell it.
#[derive(Clone, Copy, Debug, PartialEq, Eq, Drop)]
pub struct Numeral {
    pub value: u32,
    pub unsigned: bool,
    pub long: bool,
    pub length: usize,
}

fn is_unsigned_mark(b: u8) -> bool
    ensures { result ≡ is_unsigned_mark b }
{
    b == b'u' || b == b'U'
}

fn is_long_mark(b: u8) -> bool
    ensures { result ≡ is_long_mark b }
{
    b == b'l' || b == b'L'
}

fn number_end(
    value: u32,
    at: usize,
    unsigned: bool,
    long: bool,
    rest: &[u8],
) -> Result<Numeral, Break>
    ensures value { result ≡ number_end value at unsigned long rest.now }
    ensures inside { IsInside at (at + length rest.now) (λ i. i.length) result }
{
    if let [b, ..] = rest {
        if is_name_byte(*b) || *b == b'.' {
            return Err(bad_byte(at));
        }
    }
    Ok(Numeral {
        value,
        unsigned,
        long,
        length: at,
    })
}

fn after_unsigned(value: u32, at: usize, rest: &[u8]) -> Result<Numeral, Break>
    requires { at + length rest.now < 2 ^ 64 }
    ensures value { result ≡ after_unsigned value at rest.now }
    ensures inside { IsInside at (at + length rest.now) (λ i. i.length) result }
{
    if let [b, after @ ..] = rest {
        if is_long_mark(*b) {
            return number_end(value, at + 1, true, true, after);
        }
    }
    number_end(value, at, true, false, rest)
}

fn after_long(value: u32, at: usize, rest: &[u8]) -> Result<Numeral, Break>
    requires { at + length rest.now < 2 ^ 64 }
    ensures value { result ≡ after_long value at rest.now }
    ensures inside { IsInside at (at + length rest.now) (λ i. i.length) result }
{
    if let [b, after @ ..] = rest {
        if is_unsigned_mark(*b) {
            return number_end(value, at + 1, true, true, after);
        }
    }
    number_end(value, at, false, true, rest)
}

fn after_digits(value: u32, at: usize, rest: &[u8]) -> Result<Numeral, Break>
    requires { at + length rest.now < 2 ^ 64 }
    ensures value { result ≡ after_digits value at rest.now }
    ensures inside { IsInside at (at + length rest.now) (λ i. i.length) result }
{
    if let [b, after @ ..] = rest {
        if is_unsigned_mark(*b) {
            return after_unsigned(value, at + 1, after);
        }
        if is_long_mark(*b) {
            return after_long(value, at + 1, after);
        }
    }
    number_end(value, at, false, false, rest)
}

// One more digit behind a value, if the number is a word still.
fn with_digit(base: u32, value: u32, digit: u32) -> Option<u32>
    ensures { SomeIff result (base * value + digit < 2 ^ 32) (base * value + digit) }
{
    base.checked_mul(value)?.checked_add(digit)
}

fn digits(base: u32, from_value: u32, from: usize, rest: &[u8]) -> Result<Numeral, Break>
    requires { from + length rest.now < 2 ^ 64 }
    ensures value { result ≡ digits base from_value from rest.now }
    ensures inside { IsInside from (from + length rest.now) (λ i. i.length) result }
{
    let mut value = from_value;
    let mut length = from;
    let mut left = rest;
    while let [b, after @ ..] = left {
        if !is_digit_of(base, *b) {
            return after_digits(value, length, left);
        }
        match with_digit(base, value, digit_value(*b)) {
            None => return Err(wide_number(length)),
            Some(more) => value = more,
        }
        length += 1;
        left = after;
    }
    after_digits(value, length, left)
}

fn hexadecimal(rest: &[u8]) -> Result<Numeral, Break>
    requires { 2 + length rest.now < 2 ^ 64 }
    ensures value { result ≡ hexadecimal rest.now }
    ensures inside { IsInside 2 (2 + length rest.now) (λ i. i.length) result }
{
    match rest {
        [b, ..] if is_digit_of(16, *b) => digits(16, 0, 2, rest),
        _ => Err(bad_byte(1)),
    }
}

fn after_zero(rest: &[u8]) -> Result<Numeral, Break>
    requires { 2 + length rest.now < 2 ^ 64 }
    ensures value { result ≡ after_zero rest.now }
    ensures inside { IsInside 1 (1 + length rest.now) (λ i. i.length) result }
{
    if let [b, after @ ..] = rest {
        if *b == b'x' || *b == b'X' {
            return hexadecimal(after);
        }
    }
    digits(8, 0, 1, rest)
}

/// The number that begins with a digit.
pub fn number(digit: u8, rest: &[u8]) -> Result<Numeral, Break>
    requires digit { IsTrue (is_digit digit) }
    requires small { 2 + length rest.now < 2 ^ 64 }
    ensures value { result ≡ number digit rest.now }
    ensures inside { IsInside 1 (1 + length rest.now) (λ i. i.length) result }
{
    if digit == b'0' {
        after_zero(rest)
    } else {
        digits(10, u32::from(digit - b'0'), 1, rest)
    }
}
