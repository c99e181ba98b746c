// Trees as they are before the program runs.
ghost use Rattle.std.specs.Prelude.{◌≡◌, ◌==◌, if◌then◌else◌};
ghost use Rattle.p9_lang.specs.Constants as constants;
ghost use Rattle.p9_tree.specs.Trees.{tree_of};
ghost use Rattle.p9_tree.specs.Operations as operations;
ghost use Rattle.p9_tree.specs.Contents as contents;
ghost use Rattle.p9_init.specs.Fixing.{told};

use p9_base::{
    low8, low16, sext8, sext16, word_complement, word_difference, word_negation, word_sum,
};
use p9_lang::CBinary;
use p9_operand::{Constant, word_operation};
use p9_tree::{BinOp, TTree, UnOp, Width};

/// A number; the address of a symbol, moved; or nothing fixed.
#[derive(Clone, Copy)]
pub(crate) enum Fixed {
    Number(u32),
    At { symbol: u32, offset: u32 },
    NotFixed,
}

fn operator_of(op: BinOp) -> CBinary
    ensures { result ≡ operations.operator_of op }
{
    match op {
        BinOp::Mul => CBinary::Mul,
        BinOp::Div | BinOp::DivU => CBinary::Div,
        BinOp::Rem | BinOp::RemU => CBinary::Rem,
        BinOp::Add => CBinary::Add,
        BinOp::Sub => CBinary::Sub,
        BinOp::Shl => CBinary::Shl,
        BinOp::Shr | BinOp::ShrU => CBinary::Shr,
        BinOp::Lt | BinOp::LtU => CBinary::Lt,
        BinOp::Gt | BinOp::GtU => CBinary::Gt,
        BinOp::Le | BinOp::LeU => CBinary::Le,
        BinOp::Ge | BinOp::GeU => CBinary::Ge,
        BinOp::Eq => CBinary::Eq,
        BinOp::Ne => CBinary::Ne,
        BinOp::And => CBinary::And,
        BinOp::Xor => CBinary::Xor,
        BinOp::Or => CBinary::Or,
    }
}

fn is_unsigned_form(op: BinOp) -> bool
    ensures { result ≡ operations.is_unsigned_form op }
{
    match op {
        BinOp::DivU
        | BinOp::RemU
        | BinOp::ShrU
        | BinOp::LtU
        | BinOp::GtU
        | BinOp::LeU
        | BinOp::GeU => true,
        BinOp::Mul
        | BinOp::Div
        | BinOp::Rem
        | BinOp::Add
        | BinOp::Sub
        | BinOp::Shl
        | BinOp::Shr
        | BinOp::Lt
        | BinOp::Gt
        | BinOp::Le
        | BinOp::Ge
        | BinOp::Eq
        | BinOp::Ne
        | BinOp::And
        | BinOp::Xor
        | BinOp::Or => false,
    }
}

// An operation on two numbers.
#[tactic(auto, using(crate::proofs::Fixing::operation_told))]
fn fixed_words(op: BinOp, a: u32, b: u32) -> Fixed
    ensures { told result ≡ contents.fixed_words op a b }
{
    match word_operation(operator_of(op), is_unsigned_form(op), a, b) {
        Constant::Value(word) => Fixed::Number(word),
        Constant::NotConstant | Constant::Undefined | Constant::Null => Fixed::NotFixed,
    }
}

// An address that is moved by a number.
fn moved_address(op: BinOp, symbol: u32, offset: u32, n: u32) -> Fixed
    ensures { told result ≡ contents.moved_address op symbol offset n }
{
    match op {
        BinOp::Add => Fixed::At {
            symbol,
            offset: word_sum(offset, n),
        },
        BinOp::Sub => Fixed::At {
            symbol,
            offset: word_difference(offset, n),
        },
        BinOp::Mul
        | BinOp::Div
        | BinOp::DivU
        | BinOp::Rem
        | BinOp::RemU
        | BinOp::Shl
        | BinOp::Shr
        | BinOp::ShrU
        | BinOp::Lt
        | BinOp::LtU
        | BinOp::Gt
        | BinOp::GtU
        | BinOp::Le
        | BinOp::LeU
        | BinOp::Ge
        | BinOp::GeU
        | BinOp::Eq
        | BinOp::Ne
        | BinOp::And
        | BinOp::Xor
        | BinOp::Or => Fixed::NotFixed,
    }
}

// A number and an address behind it.
fn added_address(op: BinOp, n: u32, symbol: u32, offset: u32) -> Fixed
    ensures { told result ≡ contents.added_address op n symbol offset }
{
    match op {
        BinOp::Add => Fixed::At {
            symbol,
            offset: word_sum(offset, n),
        },
        BinOp::Sub
        | BinOp::Mul
        | BinOp::Div
        | BinOp::DivU
        | BinOp::Rem
        | BinOp::RemU
        | BinOp::Shl
        | BinOp::Shr
        | BinOp::ShrU
        | BinOp::Lt
        | BinOp::LtU
        | BinOp::Gt
        | BinOp::GtU
        | BinOp::Le
        | BinOp::LeU
        | BinOp::Ge
        | BinOp::GeU
        | BinOp::Eq
        | BinOp::Ne
        | BinOp::And
        | BinOp::Xor
        | BinOp::Or => Fixed::NotFixed,
    }
}

fn fixed_two(op: BinOp, left: Fixed, right: Fixed) -> Fixed
    ensures { told result ≡ contents.fixed_two op (told left) (told right) }
{
    match left {
        Fixed::Number(a) => match right {
            Fixed::Number(b) => fixed_words(op, a, b),
            Fixed::At { symbol, offset } => added_address(op, a, symbol, offset),
            Fixed::NotFixed => Fixed::NotFixed,
        },
        Fixed::At { symbol, offset } => match right {
            Fixed::Number(b) => moved_address(op, symbol, offset, b),
            Fixed::At { .. } | Fixed::NotFixed => Fixed::NotFixed,
        },
        Fixed::NotFixed => Fixed::NotFixed,
    }
}

fn truth(holds: bool) -> u32
    ensures { result ≡ constants.truth holds }
{
    if holds { 1 } else { 0 }
}

fn fixed_one(op: UnOp, a: Fixed) -> Fixed
    ensures { told result ≡ contents.on_number (contents.fixed_one op) (told a) }
{
    match a {
        Fixed::Number(word) => match op {
            UnOp::Neg => Fixed::Number(word_negation(word)),
            UnOp::Com => Fixed::Number(word_complement(word)),
            UnOp::Not => Fixed::Number(truth(word == 0)),
        },
        Fixed::At { .. } | Fixed::NotFixed => Fixed::NotFixed,
    }
}

fn narrowed_to(width: Width, word: u32) -> u32
    ensures { result ≡ operations.narrowed_to width word }
{
    match width {
        Width::S8 => sext8(word),
        Width::U8 => low8(word),
        Width::S16 => sext16(word),
        Width::U16 => low16(word),
        Width::W32 => word,
    }
}

fn fixed_width(width: Width, a: Fixed) -> Fixed
    ensures { told result ≡ contents.fixed_width width (told a) }
{
    match a {
        Fixed::Number(word) => Fixed::Number(narrowed_to(width, word)),
        Fixed::At { symbol, offset } => match width {
            Width::S8 | Width::U8 | Width::S16 | Width::U16 => Fixed::NotFixed,
            Width::W32 => Fixed::At { symbol, offset },
        },
        Fixed::NotFixed => Fixed::NotFixed,
    }
}

fn fixed_truth(a: Fixed) -> Fixed
    ensures { told result ≡ contents.fixed_truth (told a) }
{
    match a {
        Fixed::Number(word) => Fixed::Number(truth(word != 0)),
        Fixed::At { .. } | Fixed::NotFixed => Fixed::NotFixed,
    }
}

fn fixed_both(is_and: bool, left: Fixed, right: Fixed) -> Fixed
    ensures { told result ≡ contents.fixed_both is_and (told left) (told right) }
{
    match left {
        Fixed::Number(word) => {
            if is_and {
                if word == 0 {
                    Fixed::Number(0)
                } else {
                    fixed_truth(right)
                }
            } else if word == 0 {
                fixed_truth(right)
            } else {
                Fixed::Number(1)
            }
        }
        Fixed::At { .. } | Fixed::NotFixed => Fixed::NotFixed,
    }
}

fn chosen(test: Fixed, first: Fixed, second: Fixed) -> Fixed
    ensures { told result ≡ contents.on_number (λ word. if word == 0 then told second else told first) (told test) }
{
    match test {
        Fixed::Number(word) => { if word == 0 { second } else { first } }
        Fixed::At { .. } | Fixed::NotFixed => Fixed::NotFixed,
    }
}

fn after(left: Fixed, right: Fixed) -> Fixed
    ensures { told result ≡ contents.after (told left) (told right) }
{
    match left {
        Fixed::Number(_) | Fixed::At { .. } => right,
        Fixed::NotFixed => Fixed::NotFixed,
    }
}

/// What a tree is before the program runs.
#[tactic(auto, using(crate::proofs::Fixing::tree_shapes))]
pub(crate) fn fixed_of(tree: &TTree) -> Fixed
    ensures { told result ≡ contents.fixed_of (tree_of tree.now) }
{
    match tree {
        TTree::Const(word) => Fixed::Number(*word),
        TTree::Addr(symbol, offset) => Fixed::At {
            symbol: *symbol,
            offset: *offset,
        },
        TTree::Auto(_)
        | TTree::Load(..)
        | TTree::Store(..)
        | TTree::Update(..)
        | TTree::Copy(..)
        | TTree::Step(..)
        | TTree::Call(..) => Fixed::NotFixed,
        TTree::Un(op, operand) => fixed_one(*op, fixed_of(operand.get())),
        TTree::Bin(op, left, right) => {
            let left = fixed_of(left.get());
            let right = fixed_of(right.get());
            fixed_two(*op, left, right)
        }
        TTree::Conv(width, operand) => fixed_width(*width, fixed_of(operand.get())),
        TTree::Choose(test, first, second) => {
            let test = fixed_of(test.get());
            let first = fixed_of(first.get());
            let second = fixed_of(second.get());
            chosen(test, first, second)
        }
        TTree::Both(is_and, left, right) => {
            let left = fixed_of(left.get());
            let right = fixed_of(right.get());
            fixed_both(*is_and, left, right)
        }
        TTree::Seq(left, right) => {
            let left = fixed_of(left.get());
            let right = fixed_of(right.get());
            after(left, right)
        }
    }
}
