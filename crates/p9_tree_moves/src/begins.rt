// The first token of a part.
ghost use Rattle.std.specs.Prelude.{◌≡◌, ◌∷◌, [], nat_le, not, IfOk};
ghost use Rattle.p9_lang.specs.declared.tree.Kind.TheVariants as kind;
ghost use Rattle.p9_grammar.specs.declared.head.Context.TheVariants as context;
ghost use Rattle.p9_grammar.specs.declared.terminal.Terminal.TheVariants.{Mark};
ghost use Rattle.p9_grammar.specs.Scopes.{is_type};
ghost use Rattle.p9_grammar.specs.Machine as machine;
ghost use Rattle.p9_tree_moves.specs.Moves.{begin_of, move_of};
ghost use Rattle.p9_tree_moves.specs.Marks.{label_of};

use crate::heads::spec_move;
use crate::marks::is_open_brace;
use crate::words::pushed;
use crate::{Begin, Move};
use p9_grammar::{Class, Context, Head, Keyword, Naming, Punctuator, Terminal};
use p9_lang::{CUnary, EntryBy, Ident, Kind};
use p9_tree_build::Scope;
use sqlite_items::Items;
use std::alloc::{AllocError, Global};

fn begin_by(taken: Move) -> Begin
    ensures { begin_of result ≡ machine.begin_by (move_of taken) }
{
    match taken {
        Move::Shift(head) => Begin::Pushes(head),
        Move::Ends(_) | Move::Opens(_) | Move::Over(_) | Move::Refused => Begin::Nowhere,
    }
}

fn begin_spec(
    alloc: Global,
    scope: &Scope,
    context: Context,
    token: &Terminal,
) -> Result<Begin, AllocError>
    ensures { IfOk result (λ b. begin_of b ≡ machine.begin_spec scope.now.levels context token.now) }
{
    Ok(begin_by(spec_move(alloc, scope, context, Items::new(alloc), token)?))
}

fn is_begun(begin: &Begin) -> bool
    ensures { result ≡ machine.is_begun (begin_of begin.now) }
{
    match begin {
        Begin::Pushes(_) | Begin::Leaf(_) | Begin::Under(_) => true,
        Begin::Nowhere => false,
    }
}

/// Whether a type in a cast or a parameter begins with this token.
pub fn begins_type(alloc: Global, scope: &Scope, token: &Terminal) -> Result<bool, AllocError>
    ensures { IfOk result (λ b. b ≡ machine.begins_type scope.now.levels token.now) }
{
    let begin = begin_spec(alloc, scope, Context::Type, token)?;
    Ok(is_begun(&begin))
}

// An operator before an operand, where the level lets one stand.
fn unary(level: u8, head: Head) -> Begin
    ensures { begin_of result ≡ machine.only_if (nat_le level 15) (machine.Pushes head) }
{
    if level <= 15 {
        Begin::Pushes(head)
    } else {
        Begin::Nowhere
    }
}

fn begin_use(alloc: Global, scope: &Scope, name: &Ident) -> Result<Begin, AllocError>
    ensures { IfOk result (λ b. begin_of b ≡ machine.only_if (not (is_type scope.now.levels name.now)) (machine.Leaf (kind.Name name.now))) }
{
    if scope.is_type(name.list.as_slice()) {
        Ok(Begin::Nowhere)
    } else {
        Ok(Begin::Leaf(Kind::Name(name.copied(alloc)?)))
    }
}

fn begin_by_mark(level: u8, mark: Punctuator) -> Begin
    ensures { begin_of result ≡ machine.begin_expression [] level (Mark mark) }
{
    match mark {
        Punctuator::OpenParen => Begin::Pushes(Head::Opened(level)),
        Punctuator::Ampersand => unary(level, Head::UnaryOf(CUnary::Address)),
        Punctuator::Star => unary(level, Head::UnaryOf(CUnary::Deref)),
        Punctuator::Plus => unary(level, Head::UnaryOf(CUnary::Plus)),
        Punctuator::Minus => unary(level, Head::UnaryOf(CUnary::Minus)),
        Punctuator::Tilde => unary(level, Head::UnaryOf(CUnary::Complement)),
        Punctuator::Bang => unary(level, Head::UnaryOf(CUnary::Not)),
        Punctuator::PlusPlus => unary(level, Head::PreOf(false)),
        Punctuator::MinusMinus => unary(level, Head::PreOf(true)),
        _ => Begin::Nowhere,
    }
}

#[tactic(auto, using(crate::proofs::Beginnings::mark_begins))]
fn begin_expression(
    alloc: Global,
    scope: &Scope,
    level: u8,
    token: &Terminal,
) -> Result<Begin, AllocError>
    ensures { IfOk result (λ b. begin_of b ≡ machine.begin_expression scope.now.levels level token.now) }
{
    match token {
        Terminal::Name(name) => begin_use(alloc, scope, name),
        Terminal::Number {
            value,
            unsigned,
            long,
        } => Ok(Begin::Leaf(Kind::Number {
            value: *value,
            unsigned: *unsigned,
            long: *long,
        })),
        Terminal::Character(value) => Ok(Begin::Leaf(Kind::Character(*value))),
        Terminal::Text(bytes) => {
            let texts = pushed(Items::new(alloc), bytes.copied(alloc)?)?;
            Ok(Begin::Leaf(Kind::Text(texts)))
        }
        Terminal::Mark(mark) => Ok(begin_by_mark(level, *mark)),
        Terminal::Key(Keyword::Sizeof) => Ok(unary(level, Head::SizeofStart)),
        _ => Ok(Begin::Nowhere),
    }
}

fn begin_name(
    alloc: Global,
    scope: &Scope,
    naming: Naming,
    name: &Ident,
) -> Result<Begin, AllocError>
    ensures { IfOk result (λ b. begin_of b ≡ machine.begin_name scope.now.levels naming name.now) }
{
    match naming {
        Naming::Named | Naming::Either => Ok(Begin::Leaf(Kind::DeclName(name.copied(alloc)?))),
        Naming::Hidden => {
            if scope.is_type(name.list.as_slice()) {
                Ok(Begin::Nowhere)
            } else {
                Ok(Begin::Leaf(Kind::DeclName(name.copied(alloc)?)))
            }
        }
        Naming::Bare => Ok(Begin::Nowhere),
    }
}

// A parenthesis where no declarator stands before.
fn begin_group(naming: Naming) -> Begin
    ensures { begin_of result ≡ machine.begin_group naming }
{
    match naming {
        Naming::Named => Begin::Pushes(Head::DeclGroup(Naming::Named)),
        Naming::Either | Naming::Hidden | Naming::Bare => Begin::Pushes(Head::DeclOpened(naming)),
    }
}

// A bracket where no declarator stands before.
fn begin_brackets(naming: Naming) -> Begin
    ensures { begin_of result ≡ machine.begin_brackets naming }
{
    match naming {
        Naming::Named => Begin::Nowhere,
        Naming::Either | Naming::Hidden | Naming::Bare => {
            Begin::Pushes(Head::BracketsStart(false))
        }
    }
}

fn begin_declarator(
    alloc: Global,
    scope: &Scope,
    naming: Naming,
    token: &Terminal,
) -> Result<Begin, AllocError>
    ensures { IfOk result (λ b. begin_of b ≡ machine.begin_declarator scope.now.levels naming token.now) }
{
    match token {
        Terminal::Name(name) => begin_name(alloc, scope, naming, name),
        Terminal::Mark(Punctuator::Star) => {
            Ok(Begin::Pushes(Head::Stars(naming, Items::new(alloc))))
        }
        Terminal::Mark(Punctuator::OpenParen) => Ok(begin_group(naming)),
        Terminal::Mark(Punctuator::OpenBracket) => Ok(begin_brackets(naming)),
        _ => Ok(Begin::Nowhere),
    }
}

fn begin_statement(token: &Terminal) -> Begin
    ensures { begin_of result ≡ machine.begin_statement token.now }
{
    match token {
        Terminal::Mark(Punctuator::OpenBrace) => Begin::Pushes(Head::BlockItems),
        Terminal::Mark(Punctuator::Semicolon) => Begin::Leaf(Kind::Expression),
        Terminal::Key(Keyword::If) => Begin::Pushes(Head::IfStart),
        Terminal::Key(Keyword::While) => Begin::Pushes(Head::WhileStart),
        Terminal::Key(Keyword::Do) => Begin::Pushes(Head::DoBody),
        Terminal::Key(Keyword::For) => Begin::Pushes(Head::ForStart),
        Terminal::Key(Keyword::Switch) => Begin::Pushes(Head::SwitchStart),
        Terminal::Key(Keyword::Break) => Begin::Pushes(Head::BreakEnd),
        Terminal::Key(Keyword::Continue) => Begin::Pushes(Head::ContinueEnd),
        Terminal::Key(Keyword::Return) => Begin::Pushes(Head::ReturnOf),
        _ => Begin::Under(Head::ExpressionOf),
    }
}

fn label_of(token: &Terminal) -> Option<Head>
    ensures { result ≡ label_of token.now }
{
    match token {
        Terminal::Key(Keyword::Case) => Some(Head::CaseOf),
        Terminal::Key(Keyword::Default) => Some(Head::DefaultEnd),
        _ => None,
    }
}

#[tactic(auto, using(crate::proofs::Beginnings::label_begins, crate::proofs::Beginnings::statement_begins))]
fn begin_switch_item(token: &Terminal) -> Begin
    ensures { begin_of result ≡ machine.begin_switch_item token.now }
{
    match label_of(token) {
        Some(head) => Begin::Pushes(head),
        None => begin_statement(token),
    }
}

fn begin_body(token: &Terminal) -> Begin
    ensures { begin_of result ≡ machine.begin_body token.now }
{
    match token {
        Terminal::Mark(Punctuator::OpenBrace) => Begin::Pushes(Head::BlockItems),
        _ => Begin::Nowhere,
    }
}

#[tactic(auto, using(crate::proofs::Beginnings::braces_begin, crate::proofs::Beginnings::value_begins))]
fn begin_initialiser(alloc: Global, scope: &Scope, token: &Terminal) -> Result<Begin, AllocError>
    ensures { IfOk result (λ b. begin_of b ≡ machine.begin_initialiser scope.now.levels token.now) }
{
    if is_open_brace(token) {
        return Ok(Begin::Pushes(Head::ListStart));
    }
    begin_expression(alloc, scope, 2, token)
}

fn begin_entry(token: &Terminal) -> Begin
    ensures { begin_of result ≡ machine.begin_entry token.now }
{
    match token {
        Terminal::Mark(Punctuator::OpenBracket) => Begin::Pushes(Head::EntryIndex),
        Terminal::Mark(Punctuator::Dot) => Begin::Pushes(Head::EntryDot),
        _ => Begin::Under(Head::EntryOf(EntryBy::Nothing, false)),
    }
}

fn begin_constant(alloc: Global, token: &Terminal) -> Result<Begin, AllocError>
    ensures { IfOk result (λ b. begin_of b ≡ machine.begin_constant token.now) }
{
    match token {
        Terminal::Name(name) => Ok(Begin::Pushes(Head::ConstantNamed(name.copied(alloc)?))),
        _ => Ok(Begin::Nowhere),
    }
}

fn begin_block_item(alloc: Global, scope: &Scope, token: &Terminal) -> Result<Begin, AllocError>
    ensures { IfOk result (λ b. begin_of b ≡ machine.or_else (machine.begin_spec scope.now.levels context.Local token.now) (machine.begin_statement token.now)) }
{
    match begin_spec(alloc, scope, Context::Local, token)? {
        Begin::Nowhere => Ok(begin_statement(token)),
        Begin::Pushes(head) => Ok(Begin::Pushes(head)),
        Begin::Leaf(kind) => Ok(Begin::Leaf(kind)),
        Begin::Under(head) => Ok(Begin::Under(head)),
    }
}

/// How a part of this class begins.
pub fn begin(
    alloc: Global,
    scope: &Scope,
    class: Class,
    token: &Terminal,
) -> Result<Begin, AllocError>
    ensures { IfOk result (λ b. begin_of b ≡ machine.begin scope.now.levels class token.now) }
{
    match class {
        Class::Expression(level) => begin_expression(alloc, scope, level, token),
        Class::Declarator(naming, _) => begin_declarator(alloc, scope, naming, token),
        Class::Initialiser => begin_initialiser(alloc, scope, token),
        Class::Entry => Ok(begin_entry(token)),
        Class::Param | Class::OnlyParam => begin_spec(alloc, scope, Context::Param, token),
        Class::Type => begin_spec(alloc, scope, Context::Type, token),
        Class::Member => begin_spec(alloc, scope, Context::Member, token),
        Class::Constant => begin_constant(alloc, token),
        Class::FileItem => begin_spec(alloc, scope, Context::File, token),
        Class::HeadItem => begin_spec(alloc, scope, Context::Head, token),
        Class::BlockItem => begin_block_item(alloc, scope, token),
        Class::Statement(_) => Ok(begin_statement(token)),
        Class::SwitchItem => Ok(begin_switch_item(token)),
        Class::Body => Ok(begin_body(token)),
    }
}
