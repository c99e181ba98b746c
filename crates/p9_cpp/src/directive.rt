// Directives, by the tokens behind their `#`.
ghost use Rattle.std.specs.Prelude.{◌≡◌, not, IfOk};
ghost use Rattle.p9_cpp.specs.Macros.{is_among, word_in};
ghost use Rattle.p9_cpp.specs.Directives.{word_of, only_word, are_distinct, listed, listed_from, opens, listed_definition, plain_definition, defined, is_greater, angled_end, between, inclusion, included, is_number, is_text, line_directive, is_incomplete, pragma, condition, by_word, directive_of, head_by, head_of};

use crate::brackets::{Bracket, bracket_of};
use crate::macros::{Macro, word_at, word_in};
use crate::pile::Pile;
use crate::row::Row;
use p9_base::{Bytes, Name, NoMemory};
use p9_lex::{Token, TokenKind};
use std::alloc::Global;

/// The word that a directive begins with.
#[derive(Clone, Copy, Debug, PartialEq, Eq, Drop)]
pub enum Word {
    Include,
    Define,
    Undef,
    IfDefined,
    IfNotDefined,
    If,
    Else,
    EndIf,
    Line,
    Pragma,
    Other,
}

/// A directive. `alone` says that nothing stands behind the word.
#[derive(Drop)]
pub enum Directive {
    Include { angled: bool, name: Name },
    Define { name: Name, definition: Macro },
    Undef(Name),
    IfDefined { name: Name, wanted: bool },
    Else { alone: bool },
    EndIf { alone: bool },
    Mark(Name),
    Nothing,
    Bad,
}

/// What a directive is in a group that is passed over.
#[derive(Clone, Copy, Debug, PartialEq, Eq, Drop)]
pub enum Head {
    Opens,
    Else { alone: bool },
    EndIf { alone: bool },
    Nothing,
}

/// Parameters, and the tokens behind their `)`.
#[derive(Drop)]
pub struct Listed {
    pub params: Row<Name>,
    pub body: Pile<Token>,
}

fn word_of(name: &Name) -> Word
    ensures { result ≡ word_of name.now }
{
    let word = name.list.as_slice();
    if word == b"include".as_slice() {
        Word::Include
    } else if word == b"define".as_slice() {
        Word::Define
    } else if word == b"undef".as_slice() {
        Word::Undef
    } else if word == b"ifdef".as_slice() {
        Word::IfDefined
    } else if word == b"ifndef".as_slice() {
        Word::IfNotDefined
    } else if word == b"if".as_slice() {
        Word::If
    } else if word == b"else".as_slice() {
        Word::Else
    } else if word == b"endif".as_slice() {
        Word::EndIf
    } else if word == b"line".as_slice() {
        Word::Line
    } else if word == b"pragma".as_slice() {
        Word::Pragma
    } else {
        Word::Other
    }
}

// The name, where nothing else is left.
fn only_word(line: Pile<Token>) -> Option<Name>
    ensures { result ≡ only_word line }
{
    let mut line = line;
    let t = line.pop()?;
    if line.is_empty() {
        word_in(t.kind)
    } else {
        None
    }
}

fn is_distinct(name: &Name, names: &[Name]) -> bool
    ensures { result ≡ not (is_among names.now name.now) }
{
    let mut rest = names;
    while let [first, after @ ..] = rest {
        if *name == *first {
            return false;
        }
        rest = after;
    }
    true
}

fn are_distinct(names: &[Name]) -> bool
    ensures { result ≡ are_distinct names.now }
{
    let mut rest = names;
    while let [first, after @ ..] = rest {
        if !is_distinct(first, after) {
            return false;
        }
        rest = after;
    }
    true
}

// Parameters from the first on, up to their `)`.
#[tactic(auto, using(crate::proofs::Params::behind_one))]
fn listed_from(alloc: Global, line: Pile<Token>) -> Result<Option<Listed>, NoMemory>
    ensures { IfOk result (λ l. l ≡ listed_from line) }
{
    let mut line = line;
    let mut params = Row::new(alloc);
    while let Some(t) = line.pop() {
        let Some(name) = word_in(t.kind) else {
            return Ok(None);
        };
        let Some(next) = line.pop() else {
            return Ok(None);
        };
        params.push(name)?;
        match bracket_of(&next.kind) {
            Bracket::Comma => {}
            Bracket::Close => return Ok(Some(Listed { params, body: line })),
            Bracket::Open => return Ok(None),
            Bracket::Other => return Ok(None),
        }
    }
    Ok(None)
}

// Parameters behind their `(`.
fn parameters(alloc: Global, line: Pile<Token>) -> Result<Option<Listed>, NoMemory>
    ensures { IfOk result (λ l. l ≡ listed line) }
{
    let mut line = line;
    let Some(t) = line.pop() else {
        return Ok(None);
    };
    if let Bracket::Close = bracket_of(&t.kind) {
        return Ok(Some(Listed {
            params: Row::new(alloc),
            body: line,
        }));
    }
    line.push(t)?;
    listed_from(alloc, line)
}

fn opens(t: &Token) -> bool
    ensures { result ≡ opens t.now }
{
    if t.joined {
        bracket_of(&t.kind) == Bracket::Open
    } else {
        false
    }
}

fn listed_definition(name: Name, listed: Option<Listed>) -> Directive
    ensures { result ≡ listed_definition name listed }
{
    match listed {
        Some(listed) => {
            if are_distinct(listed.params.as_slice()) {
                Directive::Define {
                    name,
                    definition: Macro {
                        params: Some(listed.params),
                        body: listed.body.into_row(),
                    },
                }
            } else {
                Directive::Bad
            }
        }
        None => Directive::Bad,
    }
}

fn plain_definition(name: Name, body: Row<Token>) -> Directive
    ensures { result ≡ plain_definition name body }
{
    Directive::Define {
        name,
        definition: Macro { params: None, body },
    }
}

fn defined(alloc: Global, line: Pile<Token>) -> Result<Directive, NoMemory>
    ensures { IfOk result (λ d. d ≡ defined line) }
{
    let mut line = line;
    let Some(t) = line.pop() else {
        return Ok(Directive::Bad);
    };
    let Some(name) = word_in(t.kind) else {
        return Ok(Directive::Bad);
    };
    let Some(next) = line.pop() else {
        return Ok(plain_definition(name, Row::new(alloc)));
    };
    if opens(&next) {
        return Ok(listed_definition(name, parameters(alloc, line)?));
    }
    line.push(next)?;
    Ok(plain_definition(name, line.into_row()))
}

// The place of the `>` that ends the line, where all tokens up to it are joined.
fn angled_end(line: Pile<Token>) -> Option<u32>
    ensures { result ≡ angled_end line }
{
    let mut line = line;
    while let Some(t) = line.pop() {
        if !t.joined {
            return None;
        }
        if is_greater(&t.kind) {
            return if line.is_empty() { Some(t.start) } else { None };
        }
    }
    None
}

fn is_greater(kind: &TokenKind) -> bool
    ensures { result ≡ is_greater kind.now }
{
    match kind {
        TokenKind::Mark(number) => *number == 23,
        TokenKind::Word(_) => false,
        TokenKind::Number {
            value: _,
            unsigned: _,
            long: _,
        } => false,
        TokenKind::Char(_) => false,
        TokenKind::Text(_) => false,
        TokenKind::NewLine => false,
        TokenKind::End => false,
    }
}

// The bytes of a file from one place to another.
fn between(alloc: Global, bytes: &[u8], start: usize, end: usize) -> Result<Name, NoMemory>
    ensures { IfOk result (λ name. name ≡ between bytes.now start end) }
{
    let rest = &bytes[start.min(bytes.len())..];
    let count = end.saturating_sub(start).min(rest.len());
    Ok(Bytes {
        list: rest[..count].to_vec(alloc)?,
    })
}

// An include, if the name isn't empty.
fn inclusion(angled: bool, name: Name) -> Directive
    ensures { result ≡ inclusion angled name }
{
    if name.list.is_empty() {
        Directive::Bad
    } else {
        Directive::Include { angled, name }
    }
}

fn included(alloc: Global, bytes: &[u8], line: Pile<Token>) -> Result<Directive, NoMemory>
    ensures { IfOk result (λ d. d ≡ included bytes.now line) }
{
    let mut line = line;
    let Some(t) = line.pop() else {
        return Ok(Directive::Bad);
    };
    let start = t.end;
    match t.kind {
        TokenKind::Text(name) => {
            if line.is_empty() {
                Ok(inclusion(false, name))
            } else {
                Ok(Directive::Bad)
            }
        }
        TokenKind::Mark(number) => {
            if number != 22 {
                return Ok(Directive::Bad);
            }
            match angled_end(line) {
                Some(end) => {
                    let name = between(alloc, bytes, start as usize, end as usize)?;
                    Ok(inclusion(true, name))
                }
                None => Ok(Directive::Bad),
            }
        }
        TokenKind::Word(_) => Ok(Directive::Bad),
        TokenKind::Number {
            value: _,
            unsigned: _,
            long: _,
        } => Ok(Directive::Bad),
        TokenKind::Char(_) => Ok(Directive::Bad),
        TokenKind::NewLine => Ok(Directive::Bad),
        TokenKind::End => Ok(Directive::Bad),
    }
}

fn is_number(kind: &TokenKind) -> bool
    ensures { result ≡ is_number kind.now }
{
    match kind {
        TokenKind::Number {
            value: _,
            unsigned: _,
            long: _,
        } => true,
        TokenKind::Mark(_) => false,
        TokenKind::Word(_) => false,
        TokenKind::Char(_) => false,
        TokenKind::Text(_) => false,
        TokenKind::NewLine => false,
        TokenKind::End => false,
    }
}

fn is_text(kind: &TokenKind) -> bool
    ensures { result ≡ is_text kind.now }
{
    match kind {
        TokenKind::Text(_) => true,
        TokenKind::Number {
            value: _,
            unsigned: _,
            long: _,
        } => false,
        TokenKind::Mark(_) => false,
        TokenKind::Word(_) => false,
        TokenKind::Char(_) => false,
        TokenKind::NewLine => false,
        TokenKind::End => false,
    }
}

// `#line` with a number, and with or without a text.
fn line_directive(line: &[Token]) -> Directive
    ensures { result ≡ line_directive line.now }
{
    match line {
        [number] => {
            if is_number(&number.kind) {
                Directive::Nothing
            } else {
                Directive::Bad
            }
        }
        [number, text] => {
            if is_number(&number.kind) && is_text(&text.kind) {
                Directive::Nothing
            } else {
                Directive::Bad
            }
        }
        _ => Directive::Bad,
    }
}

fn is_incomplete(kind: &TokenKind) -> bool
    ensures { result ≡ is_incomplete (word_in kind.now) }
{
    match word_at(kind) {
        Some(word) => word.list.as_slice() == b"incomplete".as_slice(),
        None => false,
    }
}

fn pragma(line: Pile<Token>) -> Directive
    ensures { result ≡ pragma line }
{
    let mut line = line;
    let Some(t) = line.pop() else {
        return Directive::Nothing;
    };
    if !is_incomplete(&t.kind) {
        return Directive::Nothing;
    }
    match only_word(line) {
        Some(name) => Directive::Mark(name),
        None => Directive::Nothing,
    }
}

fn by_word(
    alloc: Global,
    bytes: &[u8],
    word: Word,
    line: Pile<Token>,
) -> Result<Directive, NoMemory>
    ensures { IfOk result (λ d. d ≡ by_word bytes.now word line) }
{
    match word {
        Word::Include => included(alloc, bytes, line),
        Word::Define => defined(alloc, line),
        Word::Undef => Ok(match only_word(line) {
            Some(name) => Directive::Undef(name),
            None => Directive::Bad,
        }),
        Word::IfDefined => Ok(condition(true, only_word(line))),
        Word::IfNotDefined => Ok(condition(false, only_word(line))),
        Word::If => Ok(Directive::Bad),
        Word::Else => Ok(Directive::Else {
            alone: line.is_empty(),
        }),
        Word::EndIf => Ok(Directive::EndIf {
            alone: line.is_empty(),
        }),
        Word::Line => Ok(line_directive(line.into_row().as_slice())),
        Word::Pragma => Ok(pragma(line)),
        Word::Other => Ok(Directive::Bad),
    }
}

fn condition(wanted: bool, name: Option<Name>) -> Directive
    ensures { result ≡ condition wanted name }
{
    match name {
        Some(name) => Directive::IfDefined { name, wanted },
        None => Directive::Bad,
    }
}

/// The directive of the tokens behind a `#`, in a file of these bytes.
#[tactic(auto, unfolding(crate::specs::Directives::directive_of))]
pub fn directive_of(alloc: Global, bytes: &[u8], line: Pile<Token>) -> Result<Directive, NoMemory>
    ensures { IfOk result (λ d. d ≡ directive_of bytes.now line) }
{
    let mut line = line;
    let Some(t) = line.pop() else {
        return Ok(Directive::Bad);
    };
    match word_at(&t.kind) {
        Some(name) => by_word(alloc, bytes, word_of(name), line),
        None => Ok(Directive::Bad),
    }
}

fn head_by(word: Word, alone: bool) -> Head
    ensures { result ≡ head_by word alone }
{
    match word {
        Word::If => Head::Opens,
        Word::IfDefined => Head::Opens,
        Word::IfNotDefined => Head::Opens,
        Word::Else => Head::Else { alone },
        Word::EndIf => Head::EndIf { alone },
        Word::Include => Head::Nothing,
        Word::Define => Head::Nothing,
        Word::Undef => Head::Nothing,
        Word::Line => Head::Nothing,
        Word::Pragma => Head::Nothing,
        Word::Other => Head::Nothing,
    }
}

/// What a directive is in a group that is passed over.
#[tactic(auto, unfolding(crate::specs::Directives::head_of))]
pub fn head_of(line: &[Token]) -> Head
    ensures { result ≡ head_of line.now }
{
    match line {
        [t, after @ ..] => match word_at(&t.kind) {
            Some(name) => head_by(word_of(name), after.is_empty()),
            None => Head::Nothing,
        },
        [] => Head::Nothing,
    }
}
