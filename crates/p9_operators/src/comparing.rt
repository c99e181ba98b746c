// The operations on words that operators are.
ghost use Rattle.std.specs.Prelude.{◌≡◌, true, if◌then◌else◌, IfOk};
ghost use Rattle.p9_tree.specs.Trees as trees;
ghost use Rattle.p9_tree.specs.Trees.{tree_of};
ghost use Rattle.p9_lower.specs.Operators.{word_operator};

use crate::making::two;
use p9_base::NoMemory;
use p9_lang::CBinary;
use p9_tree::{BinOp, TTree};
use std::alloc::Global;

// The first where the operands are unsigned.
fn by_sign(is_unsigned: bool, unsigned: BinOp, signed: BinOp) -> BinOp
    ensures { result ≡ (if is_unsigned then unsigned else signed) }
{
    if is_unsigned { unsigned } else { signed }
}

/// The operation on two words that an operator is.
pub fn word_operator(op: CBinary, is_unsigned: bool) -> BinOp
    ensures { result ≡ word_operator op is_unsigned }
{
    match op {
        CBinary::Mul => BinOp::Mul,
        CBinary::Div => by_sign(is_unsigned, BinOp::DivU, BinOp::Div),
        CBinary::Rem => by_sign(is_unsigned, BinOp::RemU, BinOp::Rem),
        CBinary::Add => BinOp::Add,
        CBinary::Sub => BinOp::Sub,
        CBinary::Shl => BinOp::Shl,
        CBinary::Shr => by_sign(is_unsigned, BinOp::ShrU, BinOp::Shr),
        CBinary::Lt => by_sign(is_unsigned, BinOp::LtU, BinOp::Lt),
        CBinary::Gt => by_sign(is_unsigned, BinOp::GtU, BinOp::Gt),
        CBinary::Le => by_sign(is_unsigned, BinOp::LeU, BinOp::Le),
        CBinary::Ge => by_sign(is_unsigned, BinOp::GeU, BinOp::Ge),
        CBinary::Eq => BinOp::Eq,
        CBinary::Ne => BinOp::Ne,
        CBinary::And | CBinary::AndAnd => BinOp::And,
        CBinary::Xor => BinOp::Xor,
        CBinary::Or | CBinary::OrOr => BinOp::Or,
    }
}

/// Addresses compare as unsigned words.
pub(crate) fn addresses_tree(
    alloc: Global,
    op: CBinary,
    left: TTree,
    right: TTree,
) -> Result<TTree, NoMemory>
    ensures { IfOk result (λ t. tree_of t
        ≡ trees.Bin (word_operator op true) (tree_of left) (tree_of right)) }
{
    two(alloc, word_operator(op, true), left, right)
}
