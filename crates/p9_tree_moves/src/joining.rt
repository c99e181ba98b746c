// What a token makes of the expression or declarator before it.
ghost use Rattle.std.specs.Prelude.{◌≡◌, nat_le, ◌&&◌, IfOk};
ghost use Rattle.p9_grammar.specs.declared.head.Head.TheVariants as head;
ghost use Rattle.p9_grammar.specs.Grammar.{sort};
ghost use Rattle.p9_grammar.specs.Machine as machine;
ghost use Rattle.p9_grammar.specs.Trees.{tree_of};
ghost use Rattle.p9_tree_moves.specs.Moves.{infix_of, join_of, joined_of, is_text, IsOfText};

use crate::wants::binds;
use crate::{Join, Joined};
use p9_grammar::{Class, Head, Punctuator, Terminal};
use p9_lang::{CBinary, Ident, Kind, Node};
use std::alloc::{AllocError, Global};

/// What stands behind an operand: how tightly it binds, how tightly what stands before it must bind,
/// and what it makes of that.
#[derive(Drop)]
pub struct Infix {
    level: u8,
    left: u8,
    join: Join,
}

fn binary(op: CBinary) -> Option<Infix>
    ensures { infix_of result ≡ machine.binary op }
{
    let level = binds(op);
    Some(Infix {
        level,
        left: level,
        join: Join::Joins(Head::BinaryOf(op)),
    })
}

fn assigns(op: Option<CBinary>) -> Option<Infix>
    ensures { infix_of result ≡ machine.assigns op }
{
    Some(Infix {
        level: 2,
        left: 15,
        join: Join::Joins(Head::AssignOf(op)),
    })
}

fn postfix(join: Join) -> Option<Infix>
    ensures { infix_of result ≡ machine.Binds 16 16 (join_of join) }
{
    Some(Infix {
        level: 16,
        left: 16,
        join,
    })
}

fn binding(mark: Punctuator) -> Option<Infix>
    ensures { infix_of result ≡ machine.binding mark }
{
    match mark {
        Punctuator::OpenParen => postfix(Join::Joins(Head::CallStart)),
        Punctuator::OpenBracket => postfix(Join::Joins(Head::IndexOf)),
        Punctuator::Dot => postfix(Join::Joins(Head::DotOf(false))),
        Punctuator::Arrow => postfix(Join::Joins(Head::DotOf(true))),
        Punctuator::PlusPlus => postfix(Join::Posts(Kind::Post { minus: false })),
        Punctuator::MinusMinus => postfix(Join::Posts(Kind::Post { minus: true })),
        Punctuator::Star => binary(CBinary::Mul),
        Punctuator::Slash => binary(CBinary::Div),
        Punctuator::Percent => binary(CBinary::Rem),
        Punctuator::Plus => binary(CBinary::Add),
        Punctuator::Minus => binary(CBinary::Sub),
        Punctuator::ShiftLeft => binary(CBinary::Shl),
        Punctuator::ShiftRight => binary(CBinary::Shr),
        Punctuator::Less => binary(CBinary::Lt),
        Punctuator::Greater => binary(CBinary::Gt),
        Punctuator::LessEqual => binary(CBinary::Le),
        Punctuator::GreaterEqual => binary(CBinary::Ge),
        Punctuator::EqualEqual => binary(CBinary::Eq),
        Punctuator::BangEqual => binary(CBinary::Ne),
        Punctuator::Ampersand => binary(CBinary::And),
        Punctuator::Caret => binary(CBinary::Xor),
        Punctuator::Bar => binary(CBinary::Or),
        Punctuator::AmpersandAmpersand => binary(CBinary::AndAnd),
        Punctuator::BarBar => binary(CBinary::OrOr),
        Punctuator::Question => Some(Infix {
            level: 3,
            left: 4,
            join: Join::Joins(Head::ChooseYes),
        }),
        Punctuator::Equal => assigns(None),
        Punctuator::StarEqual => assigns(Some(CBinary::Mul)),
        Punctuator::SlashEqual => assigns(Some(CBinary::Div)),
        Punctuator::PercentEqual => assigns(Some(CBinary::Rem)),
        Punctuator::PlusEqual => assigns(Some(CBinary::Add)),
        Punctuator::MinusEqual => assigns(Some(CBinary::Sub)),
        Punctuator::ShiftLeftEqual => assigns(Some(CBinary::Shl)),
        Punctuator::ShiftRightEqual => assigns(Some(CBinary::Shr)),
        Punctuator::AmpersandEqual => assigns(Some(CBinary::And)),
        Punctuator::CaretEqual => assigns(Some(CBinary::Xor)),
        Punctuator::BarEqual => assigns(Some(CBinary::Or)),
        Punctuator::Comma => Some(Infix {
            level: 1,
            left: 1,
            join: Join::Joins(Head::CommaOf),
        }),
        Punctuator::OpenBrace
        | Punctuator::CloseBrace
        | Punctuator::CloseParen
        | Punctuator::CloseBracket
        | Punctuator::Semicolon
        | Punctuator::Tilde
        | Punctuator::Bang
        | Punctuator::Colon
        | Punctuator::Hash => None,
    }
}

fn is_between(wanted: u8, here: u8, level: u8, left: u8) -> bool
    ensures { result ≡ (nat_le wanted level && nat_le left here) }
{
    match wanted <= level {
        true => left <= here,
        false => false,
    }
}

fn join_at(wanted: u8, here: u8, found: Option<Infix>) -> Join
    ensures { join_of result ≡ machine.join_at wanted here (infix_of found) }
{
    match found {
        Some(infix) => {
            if is_between(wanted, here, infix.level, infix.left) {
                infix.join
            } else {
                Join::Apart
            }
        }
        None => Join::Apart,
    }
}

fn level_of_kind(kind: &Kind) -> u8
    ensures { result ≡ machine.level_of_sort (sort kind.now) }
{
    match kind {
        Kind::Index
        | Kind::Call
        | Kind::Dot { arrow: _, name: _ }
        | Kind::Post { minus: _ }
        | Kind::Parens
        | Kind::Name(_)
        | Kind::Number {
            value: _,
            unsigned: _,
            long: _,
        }
        | Kind::Character(_)
        | Kind::Text(_) => 16,
        Kind::Pre { minus: _ } | Kind::Unary(_) | Kind::SizeofValue | Kind::SizeofType => 15,
        Kind::Cast => 14,
        Kind::Binary(op) => binds(*op),
        Kind::Choose => 3,
        Kind::Assign(_) => 2,
        Kind::Comma => 1,
        _ => 0,
    }
}

fn direct_of_kind(kind: &Kind) -> u8
    ensures { result ≡ machine.direct_of_sort (sort kind.now) }
{
    match kind {
        Kind::DeclName(_)
        | Kind::Brackets { inner: _, sized: _ }
        | Kind::Params {
            inner: _,
            void_word: _,
        }
        | Kind::DeclParens => 16,
        Kind::Star { volatiles: _ } => 15,
        _ => 0,
    }
}

#[tactic(auto, using(crate::proofs::Binding::level_of_node))]
fn level_of(node: &Node) -> u8
    ensures { result ≡ machine.level_of (tree_of node.now) }
{
    level_of_kind(&node.kind)
}

#[tactic(auto, using(crate::proofs::Binding::direct_of_node))]
fn direct_of(node: &Node) -> u8
    ensures { result ≡ machine.direct_of (tree_of node.now) }
{
    direct_of_kind(&node.kind)
}

#[tactic(auto, using(crate::proofs::Binding::text_found, crate::proofs::Binding::text_absent))]
fn is_text(node: &Node) -> bool
    ensures { result ≡ is_text (tree_of node.now) }
{
    match &node.kind {
        Kind::Text(_) => true,
        _ => false,
    }
}

#[tactic(auto, using(crate::proofs::Binding::not_longer))]
fn lengthen(alloc: Global, node: &Node, bytes: &Ident) -> Result<Joined, AllocError>
    ensures join { IfOk result (λ j. joined_of (tree_of node.now) j ≡ machine.lengthen (tree_of node.now) bytes.now) }
    ensures text { IfOk result (λ j. IsOfText (tree_of node.now) j) }
{
    if is_text(node) {
        return Ok(Joined::Longer(bytes.copied(alloc)?));
    }
    Ok(Joined::Marked(Join::Apart))
}

fn join_expression(
    alloc: Global,
    level: u8,
    node: &Node,
    token: &Terminal,
) -> Result<Joined, AllocError>
    ensures join { IfOk result (λ j. joined_of (tree_of node.now) j ≡ machine.join_expression level (tree_of node.now) token.now) }
    ensures text { IfOk result (λ j. IsOfText (tree_of node.now) j) }
{
    match token {
        Terminal::Mark(mark) => Ok(Joined::Marked(join_at(level, level_of(node), binding(*mark)))),
        Terminal::Text(bytes) => lengthen(alloc, node, bytes),
        _ => Ok(Joined::Marked(Join::Apart)),
    }
}

fn join_if(holds: bool, head: Head) -> Join
    ensures { join_of result ≡ machine.join_if holds (machine.Joins head) }
{
    match holds {
        true => Join::Joins(head),
        false => Join::Apart,
    }
}

fn join_declarator(node: &Node, token: &Terminal) -> Join
    ensures { join_of result ≡ machine.join_declarator (tree_of node.now) token.now }
{
    match token {
        Terminal::Mark(Punctuator::OpenBracket) => {
            join_if(16 <= direct_of(node), Head::BracketsStart(true))
        }
        Terminal::Mark(Punctuator::OpenParen) => {
            join_if(16 <= direct_of(node), Head::ParamsStart(true))
        }
        _ => Join::Apart,
    }
}

/// What a token makes of a node before it, in a place that wants this class.
pub fn join(
    alloc: Global,
    class: Class,
    node: &Node,
    token: &Terminal,
) -> Result<Joined, AllocError>
    ensures join { IfOk result (λ j. joined_of (tree_of node.now) j ≡ machine.join class (tree_of node.now) token.now) }
    ensures text { IfOk result (λ j. IsOfText (tree_of node.now) j) }
{
    match class {
        Class::Expression(level) => join_expression(alloc, level, node, token),
        Class::Initialiser => join_expression(alloc, 2, node, token),
        Class::Declarator(_, _) => Ok(Joined::Marked(join_declarator(node, token))),
        _ => Ok(Joined::Marked(Join::Apart)),
    }
}
