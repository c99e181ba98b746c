// From the bytes of a file to its tokens.
ghost use Rattle.std.specs.Prelude.{◌≡◌, ◌≤◌, ◌<◌, ◌+◌, ◌^◌, false, List, [], ◌∷◌, ◌++◌, length, IsTrue, IfOk, OnOk, IfSome, IsSomeAnd, Some};
ghost use Rattle.p9_first.specs.Form.{is_letter, is_letter_or_digit};
ghost use Rattle.p9_form.specs.Spelling.{is_blank, Spells};
ghost use Rattle.p9_form.specs.Scanning.{seen, is_mark, AreFormTokens, weights, after_blanks, run_length, is_digit, number_after, number_of, is_plain, quoted_from, found_word, found_number, found_text, token_at};
ghost use Rattle.p9_first.specs.Tokens as tree;

use crate::token::{Token, Tokens};
use p9_base::{Bytes, NoMemory};
use std::alloc::Global;

const MAX_NUMBER: u64 = 0x7fff_ffff;

/// A token, and how many bytes spell it.
#[derive(Drop)]
pub(crate) struct Found {
    pub(crate) token: Token,
    pub(crate) length: usize,
}

/// A text's bytes, and how many bytes spell it.
#[derive(Drop)]
pub(crate) struct Quoted {
    pub(crate) bytes: Bytes,
    pub(crate) length: usize,
}

fn is_blank(b: u8) -> bool
    ensures { result ≡ is_blank b }
{
    b == b' ' || (b == b'\t' || b == b'\n')
}

/// A letter or an underscore.
pub(crate) fn is_letter(b: u8) -> bool
    ensures { result ≡ is_letter b }
{
    b'a' <= b && b <= b'z' || b'A' <= b && b <= b'Z' || b == b'_'
}

fn is_digit(b: u8) -> bool
    ensures { result ≡ is_digit b }
{
    b'0' <= b && b <= b'9'
}

/// A letter, an underscore or a digit.
pub(crate) fn is_letter_or_digit(b: u8) -> bool
    ensures { result ≡ is_letter_or_digit b }
{
    is_letter(b) || is_digit(b)
}

fn is_plain(b: u8) -> bool
    ensures { result ≡ is_plain b }
{
    b' ' <= b && b <= b'~' && b != b'"' && b != b'\\'
}

fn is_mark(b: u8) -> bool
    ensures { result ≡ is_mark b }
{
    matches!(b, b'(' | b')' | b'{' | b'}' | b';' | b',' | b'=' | b'+')
}

fn after_blanks(bytes: &[u8]) -> &[u8]
    ensures { result.now ≡ after_blanks bytes.now }
{
    let mut left = bytes;
    while let [b, after @ ..] = left {
        if !is_blank(*b) {
            return left;
        }
        left = after;
    }
    left
}

fn run_length(bytes: &[u8]) -> usize
    ensures value { result ≡ run_length bytes.now }
    ensures within { result ≤ length bytes.now }
{
    let mut count = 0;
    let mut left = bytes;
    while let [b, after @ ..] = left {
        if !is_letter_or_digit(*b) {
            return count;
        }
        count += 1;
        left = after;
    }
    count
}

fn number_after(first: u32, digits: &[u8]) -> Option<u32>
    requires { first ≤ 2147483647 }
    ensures { result ≡ number_after first digits.now }
{
    let mut value = first;
    let mut left = digits;
    while let [digit, after @ ..] = left {
        if !is_digit(*digit) {
            return None;
        }
        let next = u64::from(value) * 10 + u64::from(*digit - b'0');
        if next > MAX_NUMBER {
            return None;
        }
        value = next as u32;
        left = after;
    }
    Some(value)
}

fn number(digit: u8, more: &[u8]) -> Option<u32>
    requires { IsTrue (is_digit digit) }
    ensures { result ≡ number_of digit more.now }
{
    if more.is_empty() {
        return Some(u32::from(digit - b'0'));
    }
    if digit == b'0' {
        return None;
    }
    number_after(u32::from(digit - b'0'), more)
}

fn word(alloc: Global, first: u8, more: &[u8]) -> Result<Bytes, NoMemory>
    ensures { IfOk result (λ word. word ≡ first ∷ more.now) }
{
    let mut list = Vec::new(alloc);
    list.push(first)?;
    list.extend_from_slice(more)?;
    Ok(Bytes { list })
}

fn push_byte(bytes: &mut Vec<u8>, b: u8) -> Result<(), NoMemory>
    ensures { OnOk result (bytes.new.items ≡ bytes.old.items ++ b ∷ []) }
{
    bytes.push(b)?;
    Ok(())
}

#[tactic(auto, using(crate::proofs::ScanTexts::with_bytes_none, crate::proofs::ScanTexts::with_bytes_more))]
// The text whose first quotation mark stands before `rest`.
fn read_text(alloc: Global, rest: &[u8]) -> Result<Option<Quoted>, NoMemory>
    requires { 1 + length rest.now < 2 ^ 64 }
    ensures { IfOk result (λ answer. answer ≡ quoted_from false 1 rest.now) }
{
    let mut bytes = Vec::new(alloc);
    let mut length = 1;
    let mut escaped = false;
    let mut left = rest;
    while let [b, after @ ..] = left {
        if escaped {
            if *b != b'n' {
                return Ok(None);
            }
            push_byte(&mut bytes, b'\n')?;
            escaped = false;
        } else if *b == b'"' {
            return Ok(Some(Quoted {
                bytes: Bytes { list: bytes },
                length: length + 1,
            }));
        } else if *b == b'\\' {
            escaped = true;
        } else if is_plain(*b) {
            push_byte(&mut bytes, *b)?;
        } else {
            return Ok(None);
        }
        length += 1;
        left = after;
    }
    Ok(None)
}

fn word_token(alloc: Global, first: u8, after: &[u8]) -> Result<Found, NoMemory>
    requires { 1 + length after.now < 2 ^ 64 }
    ensures { IfOk result (λ answer. Some answer ≡ found_word first after.now) }
{
    let more = run_length(after);
    Ok(Found {
        token: Token::Word(word(alloc, first, &after[..more])?),
        length: more + 1,
    })
}

fn number_token(digit: u8, after: &[u8]) -> Option<Found>
    requires digit { IsTrue (is_digit digit) }
    requires small { 1 + length after.now < 2 ^ 64 }
    ensures { result ≡ found_number digit after.now }
{
    let more = run_length(after);
    match number(digit, &after[..more]) {
        None => None,
        Some(value) => Some(Found {
            token: Token::Number(value),
            length: more + 1,
        }),
    }
}

fn text_token(alloc: Global, after: &[u8]) -> Result<Option<Found>, NoMemory>
    requires { 1 + length after.now < 2 ^ 64 }
    ensures { IfOk result (λ answer. answer ≡ found_text after.now) }
{
    match read_text(alloc, after)? {
        None => Ok(None),
        Some(text) => Ok(Some(Found {
            token: Token::Text(text.bytes),
            length: text.length,
        })),
    }
}

// The token that the bytes begin with.
#[tactic(auto, unfolding(crate::specs::Scanning::token_at))]
fn read_token(alloc: Global, first: u8, after: &[u8]) -> Result<Option<Found>, NoMemory>
    requires { 1 + length after.now < 2 ^ 64 }
    ensures { IfOk result (λ answer. answer ≡ token_at first after.now) }
{
    if is_letter(first) {
        Ok(Some(word_token(alloc, first, after)?))
    } else if is_digit(first) {
        Ok(number_token(first, after))
    } else if first == b'"' {
        text_token(alloc, after)
    } else if is_mark(first) {
        Ok(Some(Found {
            token: Token::Mark(first),
            length: 1,
        }))
    } else {
        Ok(None)
    }
}

fn push_token(list: &mut Vec<Token>, token: Token) -> Result<(), NoMemory>
    ensures { OnOk result (list.new.items ≡ list.old.items ++ token ∷ []) }
{
    list.push(token)?;
    Ok(())
}

/// The tokens of a file of the form, and the end behind them; none where the bytes are no such
/// tokens.
pub(crate) fn scan(alloc: Global, bytes: &[u8]) -> Result<Option<Tokens>, NoMemory>
    ensures spelled { IfOk result (λ answer. IfSome answer (λ tokens. Spells (seen tokens) bytes.now × AreFormTokens (seen tokens))) }
    ensures weighs { IfOk result (λ answer. IfSome answer (λ tokens. weights (seen tokens) ≤ length bytes.now)) }

    // Each spelling is found, and so there is no second one.
    ensures exact { (ts : List tree.Token) → AreFormTokens ts → Spells ts bytes.now → IfOk result (λ answer. IsSomeAnd answer (λ tokens. seen tokens ≡ ts)) }
{
    let mut list = Vec::new(alloc);
    let mut left = after_blanks(bytes);
    while let [first, after @ ..] = left {
        let Some(found) = read_token(alloc, *first, after)? else {
            return Ok(None);
        };
        push_token(&mut list, found.token)?;
        left = after_blanks(&left[found.length..]);
    }
    push_token(&mut list, Token::End)?;
    Ok(Some(Tokens { list }))
}
