// Operations of two operands, by the types of these.
ghost use Rattle.std.specs.Prelude.{◌≡◌, IfOk};
ghost use Rattle.p9_lang.specs.Types.{type_of, tags_of};
ghost use Rattle.p9_lang.specs.TagRules.{NoneContainsItself};
ghost use Rattle.p9_lang.specs.Layout.{size_of};
ghost use Rattle.p9_lang.specs.Constants.{works_unsigned};
ghost use Rattle.p9_tree.specs.Trees as trees;
ghost use Rattle.p9_tree.specs.Trees.{tree_of};
ghost use Rattle.p9_lower.specs.Operators.{word_operator, pointers_tree, pointer_integer_tree, integer_pointer_tree, binary_tree};

use crate::comparing::{addresses_tree, word_operator};
use crate::making::two;
use crate::moving::{divided_tree, forward_tree, moved_tree, scaled_tree};
use crate::sizes::size_of;
use p9_base::NoMemory;
use p9_lang::{CBinary, CType, Tags};
use p9_operand::is_unsigned;
use p9_tree::{BinOp, TTree};
use p9_types::target_of;
use std::alloc::Global;

/// Whether an operator works on its operands as unsigned numbers, by their types.
pub fn works_unsigned(op: CBinary, left: &CType, right: &CType) -> bool
    ensures { result ≡ works_unsigned op (type_of left.now) (type_of right.now) }
{
    match op {
        CBinary::Shl | CBinary::Shr => is_unsigned(left),
        CBinary::Mul
        | CBinary::Div
        | CBinary::Rem
        | CBinary::Add
        | CBinary::Sub
        | CBinary::Lt
        | CBinary::Gt
        | CBinary::Le
        | CBinary::Ge
        | CBinary::Eq
        | CBinary::Ne
        | CBinary::And
        | CBinary::Xor
        | CBinary::Or
        | CBinary::AndAnd
        | CBinary::OrOr => is_unsigned(left) || is_unsigned(right),
    }
}

// How many elements two pointers are apart.
fn difference_tree(
    alloc: Global,
    target: &CType,
    tags: &Tags,
    left: TTree,
    right: TTree,
) -> Result<TTree, NoMemory>
    requires { NoneContainsItself (tags_of tags.now.list) }
    ensures { IfOk result (λ t. tree_of t ≡ pointers_tree CBinary.Sub
        (size_of (tags_of tags.now.list) (type_of target.now)) (tree_of left) (tree_of right)) }
{
    let size = size_of(alloc, target, tags)?;
    let bytes = two(alloc, BinOp::Sub, left, right)?;
    let elements = divided_tree(alloc, size, bytes)?;
    Ok(elements)
}

/// An operation of two pointers, of which the first is to a type: a difference in elements, or else one on
/// their words as unsigned ones.
pub fn pointers_tree(
    alloc: Global,
    op: CBinary,
    target: &CType,
    tags: &Tags,
    left: TTree,
    right: TTree,
) -> Result<TTree, NoMemory>
    requires { NoneContainsItself (tags_of tags.now.list) }
    ensures { IfOk result (λ t. tree_of t ≡ pointers_tree op
        (size_of (tags_of tags.now.list) (type_of target.now)) (tree_of left) (tree_of right)) }
{
    match op {
        CBinary::Sub => {
            let elements = difference_tree(alloc, target, tags, left, right)?;
            Ok(elements)
        }
        CBinary::Mul
        | CBinary::Div
        | CBinary::Rem
        | CBinary::Add
        | CBinary::Shl
        | CBinary::Shr
        | CBinary::Lt
        | CBinary::Gt
        | CBinary::Le
        | CBinary::Ge
        | CBinary::Eq
        | CBinary::Ne
        | CBinary::And
        | CBinary::Xor
        | CBinary::Or
        | CBinary::AndAnd
        | CBinary::OrOr => {
            let compared = addresses_tree(alloc, op, left, right)?;
            Ok(compared)
        }
    }
}

// A pointer that so many elements move forwards.
fn forwards_tree(
    alloc: Global,
    target: &CType,
    tags: &Tags,
    pointer: TTree,
    count: TTree,
) -> Result<TTree, NoMemory>
    requires { NoneContainsItself (tags_of tags.now.list) }
    ensures { IfOk result (λ t. tree_of t ≡ pointer_integer_tree CBinary.Add
        (size_of (tags_of tags.now.list) (type_of target.now)) (tree_of pointer) (tree_of count)) }
{
    let size = size_of(alloc, target, tags)?;
    let bytes = forward_tree(alloc, size, count)?;
    let moved = moved_tree(alloc, pointer, bytes)?;
    Ok(moved)
}

// A pointer that so many elements move backwards.
fn backwards_tree(
    alloc: Global,
    target: &CType,
    tags: &Tags,
    pointer: TTree,
    count: TTree,
) -> Result<TTree, NoMemory>
    requires { NoneContainsItself (tags_of tags.now.list) }
    ensures { IfOk result (λ t. tree_of t ≡ pointer_integer_tree CBinary.Sub
        (size_of (tags_of tags.now.list) (type_of target.now)) (tree_of pointer) (tree_of count)) }
{
    let size = size_of(alloc, target, tags)?;
    let bytes = scaled_tree(alloc, size, count)?;
    let moved = two(alloc, BinOp::Sub, pointer, bytes)?;
    Ok(moved)
}

/// An operation of a pointer to a type and a number of elements.
pub fn pointer_integer_tree(
    alloc: Global,
    op: CBinary,
    target: &CType,
    tags: &Tags,
    pointer: TTree,
    count: TTree,
) -> Result<TTree, NoMemory>
    requires { NoneContainsItself (tags_of tags.now.list) }
    ensures { IfOk result (λ t. tree_of t ≡ pointer_integer_tree op
        (size_of (tags_of tags.now.list) (type_of target.now)) (tree_of pointer) (tree_of count)) }
{
    match op {
        CBinary::Add => forwards_tree(alloc, target, tags, pointer, count),
        CBinary::Sub => backwards_tree(alloc, target, tags, pointer, count),
        CBinary::Mul
        | CBinary::Div
        | CBinary::Rem
        | CBinary::Shl
        | CBinary::Shr
        | CBinary::Lt
        | CBinary::Gt
        | CBinary::Le
        | CBinary::Ge
        | CBinary::Eq
        | CBinary::Ne
        | CBinary::And
        | CBinary::Xor
        | CBinary::Or
        | CBinary::AndAnd
        | CBinary::OrOr => {
            let compared = addresses_tree(alloc, op, pointer, count)?;
            Ok(compared)
        }
    }
}

// So many elements, and a pointer that they move forwards.
fn added_tree(
    alloc: Global,
    target: &CType,
    tags: &Tags,
    count: TTree,
    pointer: TTree,
) -> Result<TTree, NoMemory>
    requires { NoneContainsItself (tags_of tags.now.list) }
    ensures { IfOk result (λ t. tree_of t ≡ integer_pointer_tree CBinary.Add
        (size_of (tags_of tags.now.list) (type_of target.now)) (tree_of count) (tree_of pointer)) }
{
    let size = size_of(alloc, target, tags)?;
    let bytes = forward_tree(alloc, size, count)?;
    let moved = two(alloc, BinOp::Add, bytes, pointer)?;
    Ok(moved)
}

/// An operation of a number of elements and a pointer to a type.
pub fn integer_pointer_tree(
    alloc: Global,
    op: CBinary,
    target: &CType,
    tags: &Tags,
    count: TTree,
    pointer: TTree,
) -> Result<TTree, NoMemory>
    requires { NoneContainsItself (tags_of tags.now.list) }
    ensures { IfOk result (λ t. tree_of t ≡ integer_pointer_tree op
        (size_of (tags_of tags.now.list) (type_of target.now)) (tree_of count) (tree_of pointer)) }
{
    match op {
        CBinary::Add => {
            let moved = added_tree(alloc, target, tags, count, pointer)?;
            Ok(moved)
        }
        CBinary::Sub
        | CBinary::Mul
        | CBinary::Div
        | CBinary::Rem
        | CBinary::Shl
        | CBinary::Shr
        | CBinary::Lt
        | CBinary::Gt
        | CBinary::Le
        | CBinary::Ge
        | CBinary::Eq
        | CBinary::Ne
        | CBinary::And
        | CBinary::Xor
        | CBinary::Or
        | CBinary::AndAnd
        | CBinary::OrOr => {
            let compared = addresses_tree(alloc, op, count, pointer)?;
            Ok(compared)
        }
    }
}

// Neither operand is a pointer.
fn integers_tree(
    alloc: Global,
    op: CBinary,
    left: &CType,
    right: &CType,
    a: TTree,
    b: TTree,
) -> Result<TTree, NoMemory>
    ensures { IfOk result (λ t. tree_of t
        ≡ trees.Bin (word_operator op (works_unsigned op (type_of left.now) (type_of right.now)))
        (tree_of a) (tree_of b)) }
{
    two(
        alloc,
        word_operator(op, works_unsigned(op, left, right)),
        a,
        b,
    )
}

/// An operation of two operands, by their types, whose arrays and functions have become pointers. `&&` and
/// `||` are no operations on two words.
pub fn binary_tree(
    alloc: Global,
    op: CBinary,
    left: &CType,
    right: &CType,
    tags: &Tags,
    a: TTree,
    b: TTree,
) -> Result<TTree, NoMemory>
    requires { NoneContainsItself (tags_of tags.now.list) }
    ensures { IfOk result (λ t. tree_of t ≡ binary_tree (tags_of tags.now.list) op
        (type_of left.now) (type_of right.now) (tree_of a) (tree_of b)) }
{
    match (target_of(left), target_of(right)) {
        (Some(target), Some(_)) => {
            let tree = pointers_tree(alloc, op, target, tags, a, b)?;
            Ok(tree)
        }
        (Some(target), None) => {
            let tree = pointer_integer_tree(alloc, op, target, tags, a, b)?;
            Ok(tree)
        }
        (None, Some(target)) => {
            let tree = integer_pointer_tree(alloc, op, target, tags, a, b)?;
            Ok(tree)
        }
        (None, None) => {
            let tree = integers_tree(alloc, op, left, right, a, b)?;
            Ok(tree)
        }
    }
}
