// Characters and texts.
ghost use Rattle.std.specs.Prelude.{◌≡◌, ◌+◌, ◌^◌, ◌<◌, ◌≤◌, [], ◌∷◌, ◌++◌, length, IfOk, IfErr, OnOk};
ghost use Rattle.p9_lex.specs.Quoted.{simple_escape, octal_third, octal_second, hex_second, hex_escape, coded_escape, escape, quoted, character_end, character, text};
ghost use Rattle.p9_lex.specs.Broken.{IsBreak, IsInside, IsRead};

use crate::broken::{Break, PieceFault, bad_byte, open_text};
use crate::classes::{digit_value, is_digit_of, is_newline};
use p9_base::{Bytes, sext8};
use std::alloc::{AllocError, Global};

/// A byte of a character or text, and how many bytes spell it.
#[derive(Clone, Copy, Debug, PartialEq, Eq, Drop)]
pub struct Item {
    pub value: u8,
    pub length: usize,
}

/// A character's value, and how many bytes spell it.
#[derive(Clone, Copy, Debug, PartialEq, Eq, Drop)]
pub struct Character {
    pub value: u32,
    pub length: usize,
}

/// A text's bytes, and how many bytes spell it.
#[derive(Drop)]
pub struct Text {
    pub bytes: Bytes,
    pub length: usize,
}

fn simple_escape(b: u8) -> Option<u8>
    ensures { result ≡ simple_escape b }
{
    match b {
        b'n' => Some(b'\n'),
        b't' => Some(b'\t'),
        b'r' => Some(b'\r'),
        b'b' => Some(0x08),
        b'f' => Some(0x0C),
        b'v' => Some(0x0B),
        b'a' => Some(0x07),
        b'\\' => Some(b'\\'),
        b'\'' => Some(b'\''),
        b'"' => Some(b'"'),
        _ => None,
    }
}

fn octal_third(k: usize, value: u8, rest: &[u8]) -> Result<Item, Break>
    ensures value { result ≡ octal_third k value rest.now }
    ensures inside { IfErr result (λ e. e.by ≤ k + length rest.now) }
{
    if let [b, ..] = rest {
        if is_digit_of(8, *b) {
            let value = 8 * u32::from(value) + digit_value(*b);
            if value < 256 {
                return Ok(Item {
                    value: value as u8,
                    length: 4,
                });
            }
            return Err(bad_byte(k));
        }
    }
    Ok(Item { value, length: 3 })
}

fn octal_second(k: usize, value: u8, rest: &[u8]) -> Result<Item, Break>
    requires digit { value < 8 }
    requires small { k + length rest.now < 2 ^ 64 }
    ensures value { result ≡ octal_second k value rest.now }
    ensures inside { IfErr result (λ e. e.by ≤ k + length rest.now) }
{
    if let [b, after @ ..] = rest {
        if is_digit_of(8, *b) {
            return octal_third(k + 1, 8 * value + digit_value(*b) as u8, after);
        }
    }
    Ok(Item { value, length: 2 })
}

fn hex_second(value: u8, rest: &[u8]) -> Result<Item, Break>
    requires { value < 16 }
    ensures { result ≡ hex_second value rest.now }
{
    if let [b, ..] = rest {
        if is_digit_of(16, *b) {
            return Ok(Item {
                value: 16 * value + digit_value(*b) as u8,
                length: 4,
            });
        }
    }
    Ok(Item { value, length: 3 })
}

fn hex_escape(k: usize, rest: &[u8]) -> Result<Item, Break>
    ensures value { result ≡ hex_escape k rest.now }
    ensures inside { IfErr result (λ e. e.by ≤ k + length rest.now) }
{
    match rest {
        [] => Err(open_text(k)),
        [b, after @ ..] => {
            if is_newline(*b) {
                Err(open_text(k))
            } else if is_digit_of(16, *b) {
                hex_second(digit_value(*b) as u8, after)
            } else {
                Err(bad_byte(k))
            }
        }
    }
}

fn coded_escape(k: usize, b: u8, rest: &[u8]) -> Result<Item, Break>
    requires { k + 1 + length rest.now < 2 ^ 64 }
    ensures value { result ≡ coded_escape k b rest.now }
    ensures inside { IfErr result (λ e. e.by ≤ k + 1 + length rest.now) }
{
    if is_digit_of(8, b) {
        octal_second(k + 1, digit_value(b) as u8, rest)
    } else if b == b'x' {
        hex_escape(k + 1, rest)
    } else {
        Err(bad_byte(k))
    }
}

fn escape(k: usize, rest: &[u8]) -> Result<Item, Break>
    requires { k + length rest.now < 2 ^ 64 }
    ensures value { result ≡ escape k rest.now }
    ensures inside { IfErr result (λ e. e.by ≤ k + length rest.now) }
{
    match rest {
        [] => Err(open_text(k)),
        [b, after @ ..] => {
            if is_newline(*b) {
                return Err(open_text(k));
            }
            match simple_escape(*b) {
                Some(value) => Ok(Item { value, length: 2 }),
                None => coded_escape(k, *b, after),
            }
        }
    }
}

fn quoted(k: usize, b: u8, rest: &[u8]) -> Result<Item, Break>
    requires { k + 1 + length rest.now < 2 ^ 64 }
    ensures value { result ≡ quoted k b rest.now }
    ensures inside { IfErr result (λ e. e.by ≤ k + 1 + length rest.now) }
{
    if is_newline(b) {
        Err(open_text(k))
    } else if b == 0 {
        Err(bad_byte(k))
    } else if b == b'\\' {
        escape(k + 1, rest)
    } else {
        Ok(Item {
            value: b,
            length: 1,
        })
    }
}

fn character_end(k: usize, value: u8, rest: &[u8]) -> Result<Character, Break>
    requires { k + length rest.now < 2 ^ 64 }
    ensures value { result ≡ character_end k value rest.now }
    ensures inside { IsInside k (k + length rest.now) (λ i. i.length) result }
{
    match rest {
        [] => Err(open_text(k)),
        [b, ..] => {
            if *b == b'\'' {
                Ok(Character {
                    value: sext8(u32::from(value)),
                    length: k + 1,
                })
            } else if is_newline(*b) {
                Err(open_text(k))
            } else {
                Err(bad_byte(k))
            }
        }
    }
}

#[tactic(auto, unfolding(crate::specs::Quoted::character), using(crate::proofs::QuotedLemmas::quoted_some))]
/// The character whose first `'` stands before `rest`.
pub fn read_character(rest: &[u8]) -> Result<Character, Break>
    requires { 1 + length rest.now < 2 ^ 64 }
    ensures value { result ≡ character rest.now }
    ensures inside { IsInside 1 (1 + length rest.now) (λ i. i.length) result }
{
    match rest {
        [] => Err(open_text(1)),
        [b, after @ ..] => {
            if *b == b'\'' {
                return Err(bad_byte(1));
            }
            let item = quoted(1, *b, after)?;
            character_end(1 + item.length, item.value, &rest[item.length..])
        }
    }
}

fn push_byte(bytes: &mut Vec<u8>, b: u8) -> Result<(), AllocError>
    ensures { OnOk result (bytes.new.items ≡ bytes.old.items ++ b ∷ []) }
{
    bytes.push(b)?;
    Ok(())
}

/// The text whose first `"` stands before `rest`.
#[tactic(auto, using(crate::proofs::QuotedLemmas::quoted_some, crate::proofs::TextLemmas::with_bytes_none))]
pub fn read_text(alloc: Global, rest: &[u8]) -> Result<Text, PieceFault>
    requires { 1 + length rest.now < 2 ^ 64 }
    ensures ok { IfOk result (λ t. text 0 1 rest.now ≡ Ok t) }
    ensures err { IfErr result (λ e. IsBreak e (text 0 1 rest.now)) }
    ensures inside { IsRead 1 (1 + length rest.now) (λ t. t.length) result }
{
    let mut bytes = Vec::new(alloc);
    let mut length = 1;
    let mut left = rest;
    while let [b, after @ ..] = left {
        if *b == b'"' {
            return Ok(Text {
                bytes: Bytes { list: bytes },
                length: length + 1,
            });
        }
        let item = quoted(length, *b, after)?;
        push_byte(&mut bytes, item.value)?;
        length += item.length;
        left = &left[item.length..];
    }
    Err(PieceFault::Break(open_text(length)))
}
