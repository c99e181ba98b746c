// Pieces: what is passed over, ends of lines, and tokens.
ghost use Rattle.std.specs.Prelude.{◌≡◌, ◌+◌, ◌^◌, ◌<◌, ◌≤◌, ◌∷◌, length, IfOk, IfErr, IsTrue};
ghost use Rattle.p9_lex.specs.Classes.{is_digit};
ghost use Rattle.p9_lex.specs.Piece.{name_bytes, word, continued_line, number_piece, character_piece, text_piece, mark_piece, slash, piece};
ghost use Rattle.p9_lex.specs.Broken.{IsBreak, IsInside, IsRead};

use crate::blank::{block_comment, line_comment};
use crate::broken::{Break, PieceFault, bad_byte};
use crate::classes::{is_blank, is_digit, is_name_byte, is_name_start, is_newline};
use crate::mark::longest_mark;
use crate::number::number;
use crate::quoted::{read_character, read_text};
use crate::token::{Dialect, TokenKind};
use p9_base::Bytes;
use std::alloc::{AllocError, Global};

#[derive(Drop)]
pub enum Piece {
    Blank,
    LineEnd,
    Token(TokenKind),
}

/// A piece, and how many bytes it has.
#[derive(Drop)]
pub struct Found {
    pub piece: Piece,
    pub length: usize,
}

fn blank(length: usize) -> Found
    ensures { result ≡ record { piece = Piece.Blank; length = length } }
{
    Found {
        piece: Piece::Blank,
        length,
    }
}

fn token(kind: TokenKind, length: usize) -> Found
    ensures { result ≡ record { piece = Piece.Token kind; length = length } }
{
    Found {
        piece: Piece::Token(kind),
        length,
    }
}

fn name_bytes(rest: &[u8]) -> usize
    ensures value { result ≡ name_bytes rest.now }
    ensures within { result ≤ length rest.now }
{
    let mut count = 0;
    let mut left = rest;
    while let [b, after @ ..] = left {
        if !is_name_byte(*b) {
            return count;
        }
        count += 1;
        left = after;
    }
    count
}

#[tactic(auto, unfolding(crate::specs::Piece::word))]
fn word(alloc: Global, first: u8, rest: &[u8]) -> Result<Found, PieceFault>
    ensures ok { IfOk result (λ f. word first rest.now ≡ Ok f) }
    ensures err { IfErr result (λ e. IsBreak e (word first rest.now)) }
    ensures inside { IsRead 1 (1 + length rest.now) (λ f. f.length) result }
{
    let more = name_bytes(rest);
    if more >= 255 {
        return Err(PieceFault::Break(bad_byte(255)));
    }
    let mut list = Vec::with_capacity(alloc, more + 1)?;
    list.push(first).map_err(AllocError::from)?;
    list.extend_from_slice(&rest[..more])?;
    Ok(token(TokenKind::Word(Bytes { list }), more + 1))
}

fn continued_line(rest: &[u8]) -> Result<Found, Break>
    ensures value { result ≡ continued_line rest.now }
    ensures inside { IsInside 1 (1 + length rest.now) (λ f. f.length) result }
{
    match rest {
        [b, ..] if is_newline(*b) => Ok(blank(2)),
        _ => Err(bad_byte(0)),
    }
}

fn mark_piece(dialect: Dialect, first: u8, rest: &[u8]) -> Result<Found, Break>
    ensures value { result ≡ mark_piece dialect first rest.now }
    ensures inside { IsInside 1 (1 + length rest.now) (λ f. f.length) result }
{
    let mark = longest_mark(dialect, first, rest)?;
    Ok(token(TokenKind::Mark(mark.number), mark.length))
}

fn number_piece(first: u8, rest: &[u8]) -> Result<Found, Break>
    requires digit { IsTrue (is_digit first) }
    requires small { 2 + length rest.now < 2 ^ 64 }
    ensures value { result ≡ number_piece first rest.now }
    ensures inside { IsInside 1 (1 + length rest.now) (λ f. f.length) result }
{
    let numeral = number(first, rest)?;
    let kind = TokenKind::Number {
        value: numeral.value,
        unsigned: numeral.unsigned,
        long: numeral.long,
    };
    Ok(token(kind, numeral.length))
}

fn character_piece(rest: &[u8]) -> Result<Found, Break>
    requires { 1 + length rest.now < 2 ^ 64 }
    ensures value { result ≡ character_piece rest.now }
    ensures inside { IsInside 1 (1 + length rest.now) (λ f. f.length) result }
{
    let character = read_character(rest)?;
    Ok(token(TokenKind::Char(character.value), character.length))
}

fn text_piece(alloc: Global, rest: &[u8]) -> Result<Found, PieceFault>
    requires { 1 + length rest.now < 2 ^ 64 }
    ensures ok { IfOk result (λ f. text_piece rest.now ≡ Ok f) }
    ensures err { IfErr result (λ e. IsBreak e (text_piece rest.now)) }
    ensures inside { IsRead 1 (1 + length rest.now) (λ f. f.length) result }
{
    let text = read_text(alloc, rest)?;
    Ok(token(TokenKind::Text(text.bytes), text.length))
}

fn slash(dialect: Dialect, rest: &[u8]) -> Result<Found, Break>
    requires { 2 + length rest.now < 2 ^ 64 }
    ensures value { result ≡ slash dialect rest.now }
    ensures inside { IsInside 1 (1 + length rest.now) (λ f. f.length) result }
{
    match rest {
        [b'/', after @ ..] => Ok(blank(line_comment(2, after)?)),
        [b'*', after @ ..] => Ok(blank(block_comment(2, after)?)),
        _ => mark_piece(dialect, b'/', rest),
    }
}

/// The piece that `first` and `rest` begin with.
#[tactic(auto, unfolding(crate::specs::Piece::piece))]
pub fn read_piece(
    alloc: Global,
    dialect: Dialect,
    first: u8,
    rest: &[u8],
) -> Result<Found, PieceFault>
    requires { 2 + length rest.now < 2 ^ 64 }
    ensures ok { IfOk result (λ f. piece dialect first rest.now ≡ Ok f) }
    ensures err { IfErr result (λ e. IsBreak e (piece dialect first rest.now)) }
    ensures inside { IsRead 1 (1 + length rest.now) (λ f. f.length) result }
{
    if is_blank(first) {
        Ok(blank(1))
    } else if is_newline(first) {
        Ok(Found {
            piece: Piece::LineEnd,
            length: 1,
        })
    } else if first == b'\\' {
        Ok(continued_line(rest)?)
    } else if first == b'/' {
        Ok(slash(dialect, rest)?)
    } else if is_name_start(first) {
        word(alloc, first, rest)
    } else if is_digit(first) {
        Ok(number_piece(first, rest)?)
    } else if first == b'\'' {
        Ok(character_piece(rest)?)
    } else if first == b'"' {
        text_piece(alloc, rest)
    } else {
        Ok(mark_piece(dialect, first, rest)?)
    }
}
