// The module of a text, or why the text is refused.
ghost use Rattle.std.specs.Prelude.{◌≡◌, ◌≤◌, ◌<◌, ◌^◌, length, IfOk, IfErr, true, false, Ok, Err};
ghost use Rattle.p9_lex.specs.declared.token.Dialect.TheVariants.{Asm};
ghost use Rattle.p9_lex.specs.Tokens.{lexed};
ghost use Rattle.p9_lex.specs.Made.{AreTokens};
ghost use Rattle.p9_abs.specs.Validity.{IsValid};
ghost use Rattle.p9_object.specs.Laws.{Fits};
ghost use Rattle.p9_asm.specs.Files.{file_in};
ghost use Rattle.p9_asm.specs.Breaks.{shown, unfinished};
ghost use Rattle.p9_asm.specs.Modules.{symbols_by};
ghost use Rattle.p9_asm.specs.Assembled.{broken_at, lex_fault, first_by, first_break, line_at, fault_of, assembled_tokens, assembled, IsFault, IsRefusal};

use crate::breaks::Break;
use crate::fault::AsmFault;
use crate::shown::shown;
use crate::symbols::{name_at, symbols_of};
use crate::tables::Tables;
use crate::unfinished::unfinished;
use p9_abs::{AModule, Symbols};
use p9_base::NoMemory;
use p9_lex::{Dialect, LexFault, Token, Tokens, lex};
use p9_rows::Row;
use std::alloc::Global;

/// A line that breaks a rule, by its first token.
#[derive(Clone, Copy)]
pub struct Broken {
    token: u32,
    by: Break,
}

fn broken_at(row: &Row, by: Option<Break>) -> Option<Broken>
    ensures { result ≡ broken_at row.now by }
{
    let by = by?;
    Some(Broken {
        token: row.token,
        by,
    })
}

fn first_shown(tables: &Tables) -> Option<Broken>
    requires { length tables.now.rows.items < 2 ^ 32 }
    ensures { result ≡ first_by (shown (file_in tables.now)) 0 tables.now.rows.items }
{
    let mut index = 0u32;
    let mut rest = tables.rows.as_slice();
    while let [row, after @ ..] = rest {
        let broken = broken_at(row, shown(tables, index, row));
        if broken.is_some() {
            return broken;
        }
        index += 1;
        rest = after;
    }
    None
}

fn first_unfinished(tables: &Tables) -> Option<Broken>
    requires { length tables.now.rows.items < 2 ^ 32 }
    ensures { result ≡ first_by (unfinished (file_in tables.now)) 0 tables.now.rows.items }
{
    let mut index = 0u32;
    let mut rest = tables.rows.as_slice();
    while let [row, after @ ..] = rest {
        let broken = broken_at(row, unfinished(tables, index, row));
        if broken.is_some() {
            return broken;
        }
        index += 1;
        rest = after;
    }
    None
}

fn first_break(tables: &Tables) -> Option<Broken>
    requires { length tables.now.rows.items < 2 ^ 32 }
    ensures { result ≡ first_break (file_in tables.now) }
{
    match first_shown(tables) {
        Some(broken) => Some(broken),
        None => first_unfinished(tables),
    }
}

fn line_at(tokens: &[Token], place: u32) -> u32
    ensures { result ≡ line_at tokens.now place }
{
    match tokens.get(place as usize) {
        Some(token) => token.line,
        None => 0,
    }
}

fn fault_of(alloc: Global, tokens: &[Token], broken: Broken) -> Result<AsmFault, NoMemory>
    ensures { IfOk result (λ fault. fault ≡ fault_of tokens.now broken) }
{
    let line = line_at(tokens, broken.token);
    match broken.by {
        Break::Syntax => Ok(AsmFault::AsmSyntax { line }),
        Break::Reserved(register) => Ok(AsmFault::Reserved { line, register }),
        Break::NoLabel(word) => {
            let name = name_at(alloc, tokens, word)?;
            Ok(AsmFault::NoLabel { line, name })
        }
        Break::LabelTwice(word) => {
            let name = name_at(alloc, tokens, word)?;
            Ok(AsmFault::LabelTwice { line, name })
        }
    }
}

fn module_of(alloc: Global, tokens: &[Token], tables: &Tables) -> Result<AModule, NoMemory>
    ensures { IfOk result (λ m. m.symbols ≡ symbols_by tokens.now (file_in tables.now) tables.now.names.list.items) }
{
    let list = symbols_of(alloc, tokens, tables)?;
    Ok(AModule {
        symbols: Symbols { list },
    })
}

fn assembled(alloc: Global, tokens: &[Token]) -> Result<AModule, AsmFault>
    requires { length tokens.now ≤ 2 ^ 25 }
    ensures module { IfOk result (λ m. assembled_tokens tokens.now ≡ Ok m) }
    ensures refused { IfErr result (IsFault (assembled_tokens tokens.now)) }
{
    let tables = Tables::new(alloc, tokens)?;
    match first_break(&tables) {
        Some(broken) => Err(fault_of(alloc, tokens, broken)?),
        None => Ok(module_of(alloc, tokens, &tables)?),
    }
}

fn lex_fault(fault: LexFault) -> AsmFault
    ensures { result ≡ lex_fault fault }
{
    match fault {
        LexFault::Memory => AsmFault::Memory,
        _ => AsmFault::Lex(fault),
    }
}

fn lexed(alloc: Global, bytes: &[u8]) -> Result<Tokens, AsmFault>
    ensures tokens { IfOk result (λ t. lexed Asm bytes.now ≡ Ok t.list.items) }
    ensures few { IfOk result (λ t. length t.list.items ≤ 2 ^ 25) }
    ensures made { IfOk result (λ t. AreTokens Asm 0 true false bytes.now t.list.items) }
    ensures refused { IfErr result (IsRefusal bytes.now) }
{
    match lex(alloc, bytes, Dialect::Asm) {
        Ok(tokens) => Ok(tokens),
        Err(fault) => Err(lex_fault(fault)),
    }
}

/// The module of a text in the assembler's language.
pub fn assemble(alloc: Global, bytes: &[u8]) -> Result<AModule, AsmFault>
    ensures module { IfOk result (λ m. assembled bytes.now ≡ Ok m) }
    ensures valid { IfOk result IsValid }
    ensures fits { IfOk result Fits }
    ensures refused { IfErr result (IsRefusal bytes.now) }
{
    let tokens = lexed(alloc, bytes)?;
    assembled(alloc, &tokens.list)
}
