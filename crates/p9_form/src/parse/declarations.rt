// Declarations.
ghost use Rattle.std.specs.Prelude.{◌≡◌, ◌&&◌, not, None, Some, IfOk, IfErr, codes};
ghost use Rattle.p9_first.specs.Form.{is_variable_name, is_among};
ghost use Rattle.p9_form.specs.Reading.{got, read_type, read_new_name, read_value, read_first, read_typed, read_declaration};
ghost use Rattle.p9_form.specs.Phrases.{declared};
ghost use Rattle.p9_form.specs.Found.{AreDeclared, HasNoDeclarations};
ghost use Rattle.p9_form.specs.declared.parse.cursor.Refusal.TheVariants.{NoForm};

use crate::file::{Declaration, Declarations, First};
use crate::parse::cursor::{Cursor, Refusal, is_word};
use crate::parse::names::{Names, is_variable_name};
use crate::token::Token;
use p9_base::Name;
use std::alloc::Global;

// The type: whether it is long.
#[tactic(auto, using(crate::proofs::ParseSteps::same_bytes), unfolding(crate::specs::Reading::read_type))]
fn is_long(cursor: &mut Cursor) -> Result<bool, Refusal>
    ensures ok { IfOk result (λ x. read_type cursor.old ≡ Some (got x cursor.new)) }
    ensures err { IfErr result (λ e. e ≡ NoForm → read_type cursor.old ≡ None) }
{
    match cursor.next() {
        Some(Token::Word(word)) if is_word(word, b"int") => Ok(false),
        Some(Token::Word(word)) if is_word(word, b"long") => Ok(true),
        _ => Err(Refusal::NoForm),
    }
}

// A name that is declared here, and wasn't before.
#[tactic(auto, unfolding(crate::specs::Reading::read_new_name))]
fn new_name(alloc: Global, names: &Names, cursor: &mut Cursor) -> Result<Name, Refusal>
    ensures ok { IfOk result (λ x. read_new_name names.now cursor.old ≡ Some (got x cursor.new)) }
    ensures err { IfErr result (λ e. e ≡ NoForm → read_new_name names.now cursor.old ≡ None) }
{
    match cursor.next() {
        Some(Token::Word(name)) if is_variable_name(name) && !names.has(name) => {
            let name = name.copied(alloc)?;
            Ok(name)
        }
        _ => Err(Refusal::NoForm),
    }
}

// The first value, if an equals sign is next.
#[tactic(auto, using(crate::proofs::ParseSteps::after_some, crate::proofs::ParseSteps::after_none), unfolding(crate::specs::Reading::read_value))]
fn value(cursor: &mut Cursor) -> Result<First, Refusal>
    ensures ok { IfOk result (λ x. read_value cursor.old ≡ Some (got x cursor.new)) }
    ensures err { IfErr result (λ e. e ≡ NoForm → read_value cursor.old ≡ None) }
{
    if cursor.takes(b'=') {
        let value = cursor.number()?;
        return Ok(First::Number(value));
    }
    Ok(First::Zero)
}

// What the declaration says of the first value.
#[tactic(auto, unfolding(crate::specs::Reading::read_first))]
fn first(is_extern: bool, cursor: &mut Cursor) -> Result<First, Refusal>
    ensures ok { IfOk result (λ x. read_first is_extern cursor.old ≡ Some (got x cursor.new)) }
    ensures err { IfErr result (λ e. e ≡ NoForm → read_first is_extern cursor.old ≡ None) }
{
    if is_extern {
        return Ok(First::Extern);
    }
    value(cursor)
}

// A declaration from its type on.
#[tactic(auto, using(crate::proofs::ParseSteps::after_some, crate::proofs::ParseSteps::after_none), unfolding(crate::specs::Reading::read_typed))]
fn typed(
    alloc: Global,
    names: &Names,
    is_extern: bool,
    cursor: &mut Cursor,
) -> Result<Declaration, Refusal>
    ensures ok { IfOk result (λ x. read_typed names.now is_extern cursor.old ≡ Some (got x cursor.new)) }
    ensures err { IfErr result (λ e. e ≡ NoForm → read_typed names.now is_extern cursor.old ≡ None) }
{
    let is_long = is_long(cursor)?;
    let name = new_name(alloc, names, cursor)?;
    let first = first(is_extern, cursor)?;
    cursor.mark(b';')?;
    Ok(Declaration {
        name,
        is_long,
        first,
    })
}

// A declaration.
#[tactic(auto, unfolding(crate::specs::Reading::read_declaration))]
fn declaration(alloc: Global, names: &Names, cursor: &mut Cursor) -> Result<Declaration, Refusal>
    ensures ok { IfOk result (λ x. read_declaration names.now cursor.old ≡ Some (got x cursor.new)) }
    ensures err { IfErr result (λ e. e ≡ NoForm → read_declaration names.now cursor.old ≡ None) }
{
    if cursor.takes_word(b"extern") {
        return typed(alloc, names, true, cursor);
    }
    typed(alloc, names, false, cursor)
}

/// As many declarations as there are. Their names are added.
#[tactic(auto, using(crate::proofs::ParseDeclared::none_noted, crate::proofs::ParseDeclared::one_more_noted, crate::proofs::ParseDeclared::declaration_shortens, crate::proofs::ParseDeclared::declarations_end, crate::proofs::ParseDeclared::declarations_refused))]
pub(crate) fn declarations(
    alloc: Global,
    names: &mut Names,
    cursor: &mut Cursor,
) -> Result<Declarations, Refusal>
    ensures ok { IfOk result (λ list. AreDeclared names.old cursor.old list cursor.new) }
    ensures names { IfOk result (λ list. names.new ≡ declared names.old list) }
    ensures err { IfErr result (λ e. e ≡ NoForm → HasNoDeclarations names.old cursor.old) }
{
    let mut list = Vec::new(alloc);
    'each: while cursor.begins_declaration() {
        let declaration = declaration(alloc, names, cursor)?;
        names.add(declaration.name.copied(alloc)?)?;
        list.push(declaration)?;
    }
    Ok(Declarations { list })
}
