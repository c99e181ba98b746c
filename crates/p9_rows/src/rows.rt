// The lines of a file: what each is, and where in which function it stands.
ghost use Rattle.std.specs.Prelude.{◌≡◌, ◌<◌, ◌≤◌, ◌+◌, ◌^◌, ℕ, length, position, List, if◌then◌else◌, ◌==◌, IfOk, OnOk, IfSome, Some, None, bytes_eq};
ghost use Rattle.std.specs.HashMap.{get};
ghost use Rattle.std.specs.List.{position_from};
ghost use Rattle.std.specs.Option.{option_or};
ghost use Rattle.p9_rows.specs.Rows.{is_word, first_by, lexemes_by, lexemes_of, is_line_end, after_statement, after_content, rows_of, before_all};

use p9_base::{Name, NoMemory};
use p9_lex::{Token, TokenKind};
use p9_statement::{Lexeme, Line, Statement, lexeme_of, line_of};
use std::alloc::Global;
use std::collections::HashMap;

/// Where a line stands: the row of its function's TEXT line, that function's frame, and how many of
/// its instructions stand before.
#[derive(Clone, Copy)]
pub struct Place {
    pub function: Option<u32>,
    pub frame: u32,
    pub number: u32,
}

/// A line: the place of its first token among the file's, what it is, and where it stands.
#[derive(Clone, Copy)]
pub struct Row {
    pub token: u32,
    pub content: Option<Line>,
    pub place: Place,
}

// Notes where a name stands, if it stands nowhere before.
fn note_name(
    alloc: Global,
    places: &mut HashMap<Name, u32>,
    name: &Name,
    place: u32,
) -> Result<(), NoMemory>
    ensures { OnOk result ((q : List ℕ) → get bytes_eq places.new q ≡ option_or (get bytes_eq places.old q) (if bytes_eq q name.now then Some place else None)) }
{
    if !places.contains_key(name) {
        places.insert(name.copied(alloc)?, place)?;
    }
    Ok(())
}

// Notes where a token's name stands, if it is one.
fn note_token(
    alloc: Global,
    places: &mut HashMap<Name, u32>,
    token: &Token,
    place: u32,
) -> Result<(), NoMemory>
    ensures { OnOk result ((q : List ℕ) → get bytes_eq places.new q ≡ option_or (get bytes_eq places.old q) (if is_word q token.now then Some place else None)) }
{
    match &token.kind {
        TokenKind::Word(name) => note_name(alloc, places, name, place),
        _ => Ok(()),
    }
}

// The place where each name stands first.
fn first_places(alloc: Global, tokens: &[Token]) -> Result<HashMap<Name, u32>, NoMemory>
    requires { length tokens.now ≤ 2 ^ 25 }
    ensures { IfOk result (λ places. (q : List ℕ) → get bytes_eq places q ≡ position_from (is_word q) 0 tokens.now) }
{
    let mut places = HashMap::new(alloc);
    let mut place = 0u32;
    let mut rest = tokens;
    while let [token, after @ ..] = rest {
        note_token(alloc, &mut places, token, place)?;
        place += 1;
        rest = after;
    }
    Ok(places)
}

// The place where a token's spelling stands first.
fn first_by(places: &HashMap<Name, u32>, place: u32, kind: &TokenKind) -> u32
    ensures { result ≡ first_by (get bytes_eq places.now) place kind.now }
{
    match kind {
        TokenKind::Word(name) => places.get(name).copied().unwrap_or(place),
        _ => place,
    }
}

// The tokens of a file, where names go by what is known of them.
fn lexemes_by(
    alloc: Global,
    places: &HashMap<Name, u32>,
    tokens: &[Token],
) -> Result<Vec<Lexeme>, NoMemory>
    requires { length tokens.now ≤ 2 ^ 25 }
    ensures value { IfOk result (λ lexemes. lexemes.items ≡ lexemes_by (get bytes_eq places.now) tokens.now) }
    ensures len { IfOk result (λ lexemes. length lexemes.items ≡ length tokens.now) }
{
    let mut lexemes = Vec::new(alloc);
    let mut place = 0u32;
    let mut rest = tokens;
    while let [token, after @ ..] = rest {
        let first = first_by(places, place, &token.kind);
        lexemes.push(lexeme_of(place, first, &token.kind))?;
        place += 1;
        rest = after;
    }
    Ok(lexemes)
}

/// The tokens of a file, as the grammar of statements sees them.
#[tactic(auto, using(crate::proofs::NameLemmas::lexemes_same))]
pub fn lexemes_of(alloc: Global, tokens: &[Token]) -> Result<Vec<Lexeme>, NoMemory>
    requires { length tokens.now ≤ 2 ^ 25 }
    ensures value { IfOk result (λ lexemes. lexemes.items ≡ lexemes_of tokens.now) }
    ensures len { IfOk result (λ lexemes. length lexemes.items ≡ length tokens.now) }
{
    let places = first_places(alloc, tokens)?;
    lexemes_by(alloc, &places, tokens)
}

fn is_line_end(lexeme: Lexeme) -> bool
    ensures { result ≡ is_line_end lexeme }
{
    match lexeme {
        Lexeme::LineEnd => true,
        _ => false,
    }
}

fn line_end(lexemes: &[Lexeme]) -> Option<usize>
    ensures place { result ≡ position is_line_end lexemes.now }
    ensures within { IfSome result (λ at. at < length lexemes.now) }
{
    lexemes.iter().position(|l| is_line_end(*l))
}

fn after_statement(index: u32, place: Place, statement: Option<Statement>) -> Place
    requires { place.number < 2 ^ 25 }
    ensures { result ≡ after_statement index place statement }
{
    match statement {
        Some(Statement::Text(_, frame)) => Place {
            function: Some(index),
            frame,
            number: 0,
        },
        Some(Statement::Instruction(_, _)) => Place {
            function: place.function,
            frame: place.frame,
            number: place.number + 1,
        },
        _ => place,
    }
}

fn after_content(index: u32, place: Place, content: Option<Line>) -> Place
    requires { place.number < 2 ^ 25 }
    ensures value { result ≡ after_content index place content }
    ensures more { result.number ≤ place.number + 1 }
{
    match content {
        None => place,
        Some(line) => after_statement(index, place, line.statement),
    }
}

/// The lines of a file.
#[tactic(auto, using(crate::proofs::LineLemmas::lines_last))]
pub fn rows_of(alloc: Global, lexemes: &[Lexeme]) -> Result<Vec<Row>, NoMemory>
    requires { length lexemes.now ≤ 2 ^ 25 }
    ensures value { IfOk result (λ rows. rows.items ≡ rows_of lexemes.now) }
    ensures few { IfOk result (λ rows. length rows.items < 2 ^ 32) }
{
    let mut rows = Vec::new(alloc);
    let mut place = Place {
        function: None,
        frame: 0,
        number: 0,
    };
    let mut token = 0u32;
    let mut rest = lexemes;
    while let Some(end) = line_end(rest) {
        let content = line_of(&rest[..end]);
        let index = rows.len() as u32;
        rows.push(Row {
            token,
            content,
            place,
        })?;
        place = after_content(index, place, content);
        token += end as u32 + 1;
        rest = &rest[end + 1..];
    }
    rows.push(Row {
        token,
        content: line_of(rest),
        place,
    })?;
    Ok(rows)
}
