// The symbols of a module.
ghost use Rattle.std.specs.Prelude.{◌≡◌, ◌≤◌, [], IfOk, option_and_then};
ghost use Rattle.p9_asm.specs.Files.{file_in, statement_at};
ghost use Rattle.p9_asm.specs.Modules.{name_at, text_at, signature_in, signature_of, text_body, data_body, undefined_body, defined_body, body_by, body_of, symbol_of, symbols_by};

use crate::code::code_of;
use crate::pieces::pieces_of;
use crate::tables::Tables;
use p9_abs::{AModule, Body, Symbol, Symbols, TextDef};
use p9_base::{Bytes, Name, NoMemory};
use p9_facts::Fact;
use p9_lex::{Token, TokenKind};
use p9_statement::{Statement, SymbolName};
use std::alloc::Global;

fn no_bytes(alloc: Global) -> Bytes
    ensures { result ≡ [] }
{
    Bytes {
        list: Vec::new(alloc),
    }
}

/// The name that the token at a place spells.
pub(crate) fn name_at(alloc: Global, tokens: &[Token], place: u32) -> Result<Name, NoMemory>
    ensures { IfOk result (λ name. name ≡ name_at tokens.now place) }
{
    match tokens.get(place as usize) {
        Some(token) => match &token.kind {
            TokenKind::Word(name) => name.copied(alloc),
            _ => Ok(no_bytes(alloc)),
        },
        None => Ok(no_bytes(alloc)),
    }
}

fn text_at(alloc: Global, tokens: &[Token], place: u32) -> Result<Bytes, NoMemory>
    ensures { IfOk result (λ text. text ≡ text_at tokens.now place) }
{
    match tokens.get(place as usize) {
        Some(token) => match &token.kind {
            TokenKind::Text(text) => text.copied(alloc),
            _ => Ok(no_bytes(alloc)),
        },
        None => Ok(no_bytes(alloc)),
    }
}

fn signature_in(
    alloc: Global,
    tokens: &[Token],
    statement: Option<Statement>,
) -> Result<Bytes, NoMemory>
    ensures { IfOk result (λ text. text ≡ signature_in tokens.now statement) }
{
    match statement {
        Some(Statement::Signature(_, place)) => text_at(alloc, tokens, place),
        _ => Ok(no_bytes(alloc)),
    }
}

fn signature_of(
    alloc: Global,
    tokens: &[Token],
    tables: &Tables,
    symbol: SymbolName,
) -> Result<Bytes, NoMemory>
    ensures { IfOk result (λ text. text ≡ signature_of tokens.now (file_in tables.now) symbol) }
{
    let row = tables.facts.first(Fact::signature(symbol));
    signature_in(alloc, tokens, tables.statement_by(row))
}

fn data_body(
    alloc: Global,
    tables: &Tables,
    symbol: SymbolName,
    size: u32,
) -> Result<Body, NoMemory>
    ensures { IfOk result (λ body. body ≡ data_body (file_in tables.now) symbol size) }
{
    match tables.facts.first(Fact::value_of(symbol)) {
        Some(_) => Ok(Body::Data(pieces_of(alloc, tables, symbol, size)?)),
        None => Ok(Body::Common(size)),
    }
}

fn text_body(alloc: Global, tables: &Tables, row: u32, frame: u32) -> Result<Body, NoMemory>
    ensures { IfOk result (λ body. body ≡ text_body (file_in tables.now) row frame) }
{
    let rows = tables.rows.as_slice();
    let begin = (row as usize + 1).min(rows.len());
    let code = code_of(alloc, tables, row, &rows[begin..])?;
    Ok(Body::Text(TextDef { frame, code }))
}

fn undefined_body(tables: &Tables, symbol: SymbolName) -> Body
    ensures { result ≡ undefined_body (file_in tables.now) symbol }
{
    match tables.facts.first(Fact::use_of(symbol)) {
        Some(_) => Body::Used,
        None => Body::Declared,
    }
}

fn defined_body(
    alloc: Global,
    tables: &Tables,
    symbol: SymbolName,
    row: u32,
    statement: Option<Statement>,
) -> Result<Body, NoMemory>
    ensures { IfOk result (λ body. body ≡ defined_body (file_in tables.now) symbol row statement) }
{
    match statement {
        Some(Statement::Text(_, frame)) => text_body(alloc, tables, row, frame),
        Some(Statement::Globl(_, size)) => data_body(alloc, tables, symbol, size),
        _ => Ok(undefined_body(tables, symbol)),
    }
}

fn body_of(alloc: Global, tables: &Tables, symbol: SymbolName) -> Result<Body, NoMemory>
    ensures { IfOk result (λ body. body ≡ body_of (file_in tables.now) symbol) }
{
    match tables.facts.first(Fact::definition(symbol)) {
        Some(row) => defined_body(alloc, tables, symbol, row, tables.statement_at(row)),
        None => Ok(undefined_body(tables, symbol)),
    }
}

#[tactic(auto, unfolding(crate::specs::Modules::symbol_of))]
fn symbol_of(
    alloc: Global,
    tokens: &[Token],
    tables: &Tables,
    symbol: SymbolName,
) -> Result<Symbol, NoMemory>
    ensures { IfOk result (λ made. made ≡ symbol_of tokens.now (file_in tables.now) symbol) }
{
    let name = name_at(alloc, tokens, symbol.word)?;
    let sig = signature_of(alloc, tokens, tables, symbol)?;
    let body = body_of(alloc, tables, symbol)?;
    Ok(Symbol {
        name,
        local: symbol.local,
        sig,
        body,
    })
}

/// The symbols of a file.
pub(crate) fn symbols_of(
    alloc: Global,
    tokens: &[Token],
    tables: &Tables,
) -> Result<Vec<Symbol>, NoMemory>
    ensures { IfOk result (λ symbols. symbols.items ≡ symbols_by tokens.now (file_in tables.now) tables.now.names.list.items) }
{
    let mut list = Vec::new(alloc);
    let mut rest = tables.names.list();
    while let [symbol, after @ ..] = rest {
        list.push(symbol_of(alloc, tokens, tables, *symbol)?)?;
        rest = after;
    }
    Ok(list)
}
