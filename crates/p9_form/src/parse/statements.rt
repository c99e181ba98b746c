// Statements.
ghost use Rattle.std.specs.Prelude.{◌≡◌, None, Some, IfOk, IfErr};
ghost use Rattle.p9_form.specs.Reading.{got, read_operand, read_right, read_assignment, read_one, read_text, read_piece, read_write, read_exits, read_call, read_arguments, read_behind, read_statement};
ghost use Rattle.p9_form.specs.Found.{IsBody, HasNoBody};
ghost use Rattle.p9_form.specs.declared.parse.cursor.Refusal.TheVariants.{NoForm};

use crate::file::{Operand, Statement, Statements};
use crate::parse::cursor::{Cursor, LARGEST, Refusal};
use crate::parse::names::Names;
use crate::parse::text::is_text;
use crate::token::Token;
use p9_base::Name;
use std::alloc::Global;

// A variable that is declared, or a number.
#[tactic(auto, unfolding(crate::specs::Reading::read_operand))]
fn operand(alloc: Global, names: &Names, cursor: &mut Cursor) -> Result<Operand, Refusal>
    ensures ok { IfOk result (λ x. read_operand names.now cursor.old ≡ Some (got x cursor.new)) }
    ensures err { IfErr result (λ e. e ≡ NoForm → read_operand names.now cursor.old ≡ None) }
{
    match cursor.next() {
        Some(Token::Word(name)) if names.has(name) => Ok(Operand::Variable(name.copied(alloc)?)),
        Some(Token::Number(value)) if *value <= LARGEST => Ok(Operand::Number(*value)),
        _ => Err(Refusal::NoForm),
    }
}

// What is added, if a plus sign is next.
#[tactic(auto, using(crate::proofs::ParseSteps::after_some, crate::proofs::ParseSteps::after_none), unfolding(crate::specs::Reading::read_right))]
fn right(alloc: Global, names: &Names, cursor: &mut Cursor) -> Result<Option<Operand>, Refusal>
    ensures ok { IfOk result (λ x. read_right names.now cursor.old ≡ Some (got x cursor.new)) }
    ensures err { IfErr result (λ e. e ≡ NoForm → read_right names.now cursor.old ≡ None) }
{
    if cursor.takes(b'+') {
        let right = operand(alloc, names, cursor)?;
        return Ok(Some(right));
    }
    Ok(None)
}

// An assignment from its equals sign on.
#[tactic(auto, using(crate::proofs::ParseSteps::after_some, crate::proofs::ParseSteps::after_none), unfolding(crate::specs::Reading::read_assignment))]
fn assignment(
    alloc: Global,
    names: &Names,
    place: Name,
    cursor: &mut Cursor,
) -> Result<Statement, Refusal>
    ensures ok { IfOk result (λ x. read_assignment names.now place cursor.old ≡ Some (got x cursor.new)) }
    ensures err { IfErr result (λ e. e ≡ NoForm → read_assignment names.now place cursor.old ≡ None) }
{
    let left = operand(alloc, names, cursor)?;
    let right = right(alloc, names, cursor)?;
    cursor.mark(b';')?;
    Ok(Statement::Assign { place, left, right })
}

// The number 1, which stands for the output.
#[tactic(auto, unfolding(crate::specs::Reading::read_one))]
fn one(cursor: &mut Cursor) -> Result<(), Refusal>
    ensures ok { IfOk result (λ _. read_one cursor.old ≡ Some cursor.new) }
    ensures err { IfErr result (λ e. e ≡ NoForm → read_one cursor.old ≡ None) }
{
    match cursor.next() {
        Some(Token::Number(1)) => Ok(()),
        _ => Err(Refusal::NoForm),
    }
}

// The text and the count of `write`, from the first comma on.
#[tactic(auto, using(crate::proofs::ParseSteps::after_some, crate::proofs::ParseSteps::after_none), unfolding(crate::specs::Reading::read_piece))]
fn piece(alloc: Global, names: &Names, cursor: &mut Cursor) -> Result<Statement, Refusal>
    ensures ok { IfOk result (λ x. read_piece names.now cursor.old ≡ Some (got x cursor.new)) }
    ensures err { IfErr result (λ e. e ≡ NoForm → read_piece names.now cursor.old ≡ None) }
{
    cursor.mark(b',')?;
    let text = cursor.text()?;
    cursor.mark(b',')?;
    let count = operand(alloc, names, cursor)?;
    Ok(Statement::Write {
        text: text.copied(alloc)?,
        count,
    })
}

// What `write` is given.
#[tactic(auto, using(crate::proofs::ParseSteps::after_some, crate::proofs::ParseSteps::after_none), unfolding(crate::specs::Reading::read_write))]
fn write(alloc: Global, names: &Names, cursor: &mut Cursor) -> Result<Statement, Refusal>
    ensures ok { IfOk result (λ x. read_write names.now cursor.old ≡ Some (got x cursor.new)) }
    ensures err { IfErr result (λ e. e ≡ NoForm → read_write names.now cursor.old ≡ None) }
{
    one(cursor)?;
    piece(alloc, names, cursor)
}

// What `exits` is given: a text, or the number 0.
#[tactic(auto, unfolding(crate::specs::Reading::read_exits))]
fn exits(alloc: Global, cursor: &mut Cursor) -> Result<Statement, Refusal>
    ensures ok { IfOk result (λ x. read_exits cursor.old ≡ Some (got x cursor.new)) }
    ensures err { IfErr result (λ e. e ≡ NoForm → read_exits cursor.old ≡ None) }
{
    match cursor.next() {
        Some(Token::Text(bytes)) if is_text(bytes) => {
            let text = bytes.copied(alloc)?;
            Ok(Statement::Exits(Some(text)))
        }
        Some(Token::Number(0)) => Ok(Statement::Exits(None)),
        _ => Err(Refusal::NoForm),
    }
}

// What the function with this name is given.
#[tactic(auto, using(crate::proofs::ParseSteps::same_bytes), unfolding(crate::specs::Reading::read_call))]
fn call(
    alloc: Global,
    names: &Names,
    function: &Name,
    cursor: &mut Cursor,
) -> Result<Statement, Refusal>
    ensures ok { IfOk result (λ x. read_call names.now function.now cursor.old ≡ Some (got x cursor.new)) }
    ensures err { IfErr result (λ e. e ≡ NoForm → read_call names.now function.now cursor.old ≡ None) }
{
    if function.list.as_slice() == b"write".as_slice() {
        return write(alloc, names, cursor);
    }
    if function.list.as_slice() == b"exits".as_slice() {
        return exits(alloc, cursor);
    }
    Err(Refusal::NoForm)
}

// A call from its parenthesis on.
#[tactic(auto, using(crate::proofs::ParseSteps::after_some, crate::proofs::ParseSteps::after_none), unfolding(crate::specs::Reading::read_arguments))]
fn arguments(
    alloc: Global,
    names: &Names,
    function: &Name,
    cursor: &mut Cursor,
) -> Result<Statement, Refusal>
    ensures ok { IfOk result (λ x. read_arguments names.now function.now cursor.old ≡ Some (got x cursor.new)) }
    ensures err { IfErr result (λ e. e ≡ NoForm → read_arguments names.now function.now cursor.old ≡ None) }
{
    cursor.mark(b'(')?;
    let call = call(alloc, names, function, cursor)?;
    cursor.mark(b')')?;
    cursor.mark(b';')?;
    Ok(call)
}

// A statement from behind its first word on.
#[tactic(auto, unfolding(crate::specs::Reading::read_behind))]
fn behind(
    alloc: Global,
    names: &Names,
    word: &Name,
    cursor: &mut Cursor,
) -> Result<Statement, Refusal>
    ensures ok { IfOk result (λ x. read_behind names.now word.now cursor.old ≡ Some (got x cursor.new)) }
    ensures err { IfErr result (λ e. e ≡ NoForm → read_behind names.now word.now cursor.old ≡ None) }
{
    if !cursor.takes(b'=') {
        return arguments(alloc, names, word, cursor);
    }
    if !names.has(word) {
        return Err(Refusal::NoForm);
    }
    assignment(alloc, names, word.copied(alloc)?, cursor)
}

/// A statement.
#[tactic(auto, using(crate::proofs::ParseSteps::after_some, crate::proofs::ParseSteps::after_none), unfolding(crate::specs::Reading::read_statement))]
pub(crate) fn statement(
    alloc: Global,
    names: &Names,
    cursor: &mut Cursor,
) -> Result<Statement, Refusal>
    ensures ok { IfOk result (λ x. read_statement names.now cursor.old ≡ Some (got x cursor.new)) }
    ensures err { IfErr result (λ e. e ≡ NoForm → read_statement names.now cursor.old ≡ None) }
{
    let word = cursor.word()?;
    behind(alloc, names, word, cursor)
}

/// Statements up to the closing brace.
#[tactic(auto, using(crate::proofs::ParseBodies::none_read, crate::proofs::ParseBodies::one_more, crate::proofs::ParseBodies::statement_shortens, crate::proofs::ParseBodies::body_ends, crate::proofs::ParseBodies::body_refused))]
pub(crate) fn statements(
    alloc: Global,
    names: &Names,
    cursor: &mut Cursor,
) -> Result<Statements, Refusal>
    ensures ok { IfOk result (λ list. IsBody names.now cursor.old list cursor.new) }
    ensures err { IfErr result (λ e. e ≡ NoForm → HasNoBody names.now cursor.old) }
{
    let mut list = Vec::new(alloc);
    'each: while !cursor.takes(b'}') {
        let next = statement(alloc, names, cursor)?;
        list.push(next)?;
    }
    Ok(Statements { list })
}
