// A file's tokens.
ghost use Rattle.std.specs.Prelude.{◌≡◌, ◌+◌, ◌-◌, ◌≤◌, ◌++◌, true, false, [], length, count_by, IfOk, IfErr, OnOk};
ghost use Rattle.p9_lex.specs.Broken.{IsFaultInside};
ghost use Rattle.p9_lex.specs.Classes.{is_newline};
ghost use Rattle.p9_lex.specs.Made.{AreTokens, HaveLines};
ghost use Rattle.p9_lex.specs.Tokens.{kind_of, first_after, tokens_at, too_long, scan, limited, line_of, fault_of, lexed, IsStop, IsStopped, IsStopWithin, IsRefusal};

use crate::broken::{PieceFault, Reason, Stop};
use crate::classes::is_newline;
use crate::piece::{Piece, read_piece};
use crate::token::{Dialect, LexFault, Token, TokenKind, Tokens};
use std::alloc::{AllocError, Global};

const MAX_BYTES: usize = 0x100_0000;

// Why a file is not read.
#[derive(Clone, Copy, Debug, PartialEq, Eq, Drop)]
enum ScanFault {
    Stop(Stop),
    Memory,
}

impl From<AllocError> for ScanFault {
    ghost use Rattle.std.specs.Prelude.{◌≡◌};
    ghost use Rattle.p9_lex.specs.declared.scan.ScanFault.{ScanFault};

    ghost from_gives = { λ _ e. e ≡ ScanFault.Memory };

    fn from(_: AllocError) -> ScanFault {
        ScanFault::Memory
    }
}

fn newlines(bytes: &[u8]) -> usize
    ensures value { result ≡ count_by is_newline bytes.now }
    ensures small { result ≤ length bytes.now }
{
    bytes.iter().filter(|b| is_newline(**b)).count()
}

// The line of a byte, from 1.
fn line_of(bytes: &[u8], at: usize) -> u32
    requires place { at ≤ length bytes.now }
    requires small { at ≤ 16777216 }
    ensures { result ≡ line_of bytes.now at }
{
    newlines(&bytes[..at]) as u32 + 1
}

fn kind_of(dialect: Dialect, piece: Piece) -> Option<TokenKind>
    ensures { result ≡ kind_of dialect piece }
{
    match piece {
        Piece::Blank => None,
        Piece::LineEnd => match dialect {
            Dialect::C => None,
            Dialect::Asm => Some(TokenKind::NewLine),
        },
        Piece::Token(kind) => Some(kind),
    }
}

fn first_after(first: bool, piece: &Piece) -> bool
    ensures { result ≡ first_after first piece.now }
{
    match piece {
        Piece::Blank => first,
        Piece::LineEnd => true,
        Piece::Token(_) => false,
    }
}

fn too_long() -> Stop
    ensures { result ≡ too_long }
{
    Stop {
        reason: Reason::BadByte,
        start: MAX_BYTES,
        by: MAX_BYTES,
    }
}

// The refusal of a file of `count` bytes, by that of its piece at `start`.
fn stopped(count: usize, start: usize, fault: PieceFault) -> ScanFault
    requires start { start ≤ 16777216 }
    requires place { start ≤ count }
    requires inside { IsFaultInside (count - start) fault }
    ensures value { IsStopped count start fault result }
    ensures within { IsStopWithin count result }
{
    match fault {
        PieceFault::Break(broken) => {
            let by = start + broken.by;
            if count > MAX_BYTES && by >= MAX_BYTES {
                return ScanFault::Stop(too_long());
            }
            ScanFault::Stop(Stop {
                reason: broken.reason,
                start,
                by,
            })
        }
        PieceFault::Memory => ScanFault::Memory,
    }
}

// Adds a token, if there is one.
fn put(
    list: &mut Vec<Token>,
    kind: Option<TokenKind>,
    start: usize,
    end: usize,
    line: usize,
    first: bool,
    joined: bool,
) -> Result<(), AllocError>
    requires start { start ≤ 16777216 }
    requires end { end ≤ 16777216 }
    requires line { line ≤ 16777217 }
    ensures { OnOk result (list.new.items ≡ list.old.items ++ tokens_at kind start end line first joined) }
{
    if let Some(kind) = kind {
        list.push(Token {
            kind,
            start: start as u32,
            end: end as u32,
            line: line as u32,
            file: 0,
            first,
            joined,
        })?;
    }
    Ok(())
}

// The tokens of a file, one piece after the other.
fn scan(alloc: Global, dialect: Dialect, bytes: &[u8]) -> Result<Vec<Token>, ScanFault>
    ensures ok { IfOk result (λ ts. limited bytes.now (scan dialect 0 0 1 true false bytes.now) ≡ Ok ts.items) }
    ensures err { IfErr result (λ e. IsStop e (limited bytes.now (scan dialect 0 0 1 true false bytes.now))) }
    ensures within { IfErr result (λ e. IsStopWithin (length bytes.now) e) }
{
    let mut list = Vec::new(alloc);
    let mut place = 0;
    let mut line = 1;
    let mut first = true;
    let mut joined = false;
    let mut left = bytes;
    while let [b, after @ ..] = left {
        let found = match read_piece(alloc, dialect, *b, after) {
            Ok(found) => found,
            Err(fault) => return Err(stopped(bytes.len(), place, fault)),
        };
        let end = place + found.length;
        if end > MAX_BYTES {
            return Err(ScanFault::Stop(too_long()));
        }
        let next_first = first_after(first, &found.piece);
        let kind = kind_of(dialect, found.piece);
        let next_joined = kind.is_some();
        put(&mut list, kind, place, end, line, first, joined)?;
        line += newlines(&left[..found.length]);
        left = &left[found.length..];
        place = end;
        first = next_first;
        joined = next_joined;
    }
    put(
        &mut list,
        Some(TokenKind::End),
        place,
        place,
        line,
        first,
        joined,
    )?;
    Ok(list)
}

fn fault_of(bytes: &[u8], stop: Stop) -> LexFault
    requires start { stop.start ≤ length bytes.now }
    requires by { stop.by ≤ length bytes.now }
    requires small_start { stop.start ≤ 16777216 }
    requires small_by { stop.by ≤ 16777216 }
    ensures { result ≡ fault_of bytes.now stop }
{
    let start = stop.start as u32;
    match stop.reason {
        Reason::BadByte => LexFault::BadByte {
            at: stop.by as u32,
            line: line_of(bytes, stop.by),
        },
        Reason::OpenComment => LexFault::OpenComment {
            at: start,
            line: line_of(bytes, stop.start),
        },
        Reason::OpenText => LexFault::OpenText {
            at: start,
            line: line_of(bytes, stop.start),
        },
        Reason::WideNumber => LexFault::WideNumber {
            at: start,
            line: line_of(bytes, stop.start),
        },
    }
}

/// The tokens of a file. `sources` and `marks` are empty, and `file` is 0.
pub fn lex(alloc: Global, bytes: &[u8], dialect: Dialect) -> Result<Tokens, LexFault>
    ensures tokens { IfOk result (λ t. lexed dialect bytes.now ≡ Ok t.list.items) }

    // One after the other they make the file, with what is passed over between them.
    ensures made { IfOk result (λ t. AreTokens dialect 0 true false bytes.now t.list.items) }
    ensures lines { IfOk result (λ t. HaveLines bytes.now t.list.items) }

    ensures no_sources { IfOk result (λ t. t.sources.items ≡ []) }
    ensures no_marks { IfOk result (λ t. t.marks.items ≡ []) }
    ensures refused { IfErr result (λ e. IsRefusal dialect bytes.now e) }
{
    match scan(alloc, dialect, bytes) {
        Ok(list) => Ok(Tokens {
            list,
            sources: Vec::new(alloc),
            marks: Vec::new(alloc),
        }),
        Err(ScanFault::Stop(stop)) => Err(fault_of(bytes, stop)),
        Err(ScanFault::Memory) => Err(LexFault::Memory),
    }
}
