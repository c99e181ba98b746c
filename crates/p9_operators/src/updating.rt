// Assignments to lvalues, by their addresses.
ghost use Rattle.std.specs.Prelude.{◌≡◌, IfOk};
ghost use Rattle.p9_lang.specs.Types.{type_of, tags_of};
ghost use Rattle.p9_lang.specs.TagRules.{NoneContainsItself};
ghost use Rattle.p9_tree.specs.Trees.{tree_of};
ghost use Rattle.p9_lower.specs.Operators.{elements_tree, updated_tree, step_bytes, step_amount};
ghost use Rattle.p9_operators.specs.Converting.{assigned_from};

use crate::arithmetic::works_unsigned;
use crate::comparing::word_operator;
use crate::converting::stored_tree;
use crate::making::{copy, store, update};
use crate::moving::{forward_tree, scaled_tree};
use crate::sizes::size_of;
use crate::widths::width_of;
use p9_base::{NoMemory, word_negation};
use p9_lang::{CBinary, CType, Tags};
use p9_operand::is_structure;
use p9_tree::{TTree, Width};
use p9_types::target_of;
use std::alloc::Global;

/// A value that is assigned to an lvalue of a type, by its address; a structure is copied. Of the value its
/// type as an operand is given, and `zero` says that it is the null constant.
pub fn assigned_tree(
    alloc: Global,
    from: &CType,
    zero: bool,
    ty: &CType,
    tags: &Tags,
    to: TTree,
    value: TTree,
) -> Result<TTree, NoMemory>
    requires { NoneContainsItself (tags_of tags.now.list) }
    ensures { IfOk result (λ t. tree_of t ≡ assigned_from (tags_of tags.now.list)
        (type_of from.now) zero (type_of ty.now) (tree_of to) (tree_of value)) }
{
    if is_structure(ty) {
        let size = size_of(alloc, ty, tags)?;
        let copied = copy(alloc, size, to, value)?;
        return Ok(copied);
    }
    let value = stored_tree(alloc, from, ty, tags, zero, value)?;
    let assigned = store(alloc, width_of(ty), to, value)?;
    Ok(assigned)
}

/// The right side of `op=` for a pointer, which is a number of elements of a size.
pub fn elements_tree(alloc: Global, op: CBinary, size: u32, count: TTree) -> Result<TTree, NoMemory>
    ensures { IfOk result (λ t. tree_of t ≡ elements_tree op size (tree_of count)) }
{
    match op {
        CBinary::Add => {
            let bytes = forward_tree(alloc, size, count)?;
            Ok(bytes)
        }
        CBinary::Sub
        | CBinary::Mul
        | CBinary::Div
        | CBinary::Rem
        | CBinary::Shl
        | CBinary::Shr
        | CBinary::Lt
        | CBinary::Gt
        | CBinary::Le
        | CBinary::Ge
        | CBinary::Eq
        | CBinary::Ne
        | CBinary::And
        | CBinary::Xor
        | CBinary::Or
        | CBinary::AndAnd
        | CBinary::OrOr => {
            let bytes = scaled_tree(alloc, size, count)?;
            Ok(bytes)
        }
    }
}

/// `op=`, by the types of the lvalue and of the right side as an operand, and by the lvalue's address.
pub fn updated_tree(
    alloc: Global,
    op: CBinary,
    ty: &CType,
    right: &CType,
    tags: &Tags,
    to: TTree,
    from: TTree,
) -> Result<TTree, NoMemory>
    requires { NoneContainsItself (tags_of tags.now.list) }
    ensures { IfOk result (λ t. tree_of t ≡ updated_tree (tags_of tags.now.list) op
        (type_of ty.now) (type_of right.now) (tree_of to) (tree_of from)) }
{
    let word_op = word_operator(op, works_unsigned(op, ty, right));
    match target_of(ty) {
        Some(target) => {
            let size = size_of(alloc, target, tags)?;
            let bytes = elements_tree(alloc, op, size, from)?;
            let updated = update(alloc, Width::W32, word_op, to, bytes)?;
            Ok(updated)
        }
        None => {
            let updated = update(alloc, width_of(ty), word_op, to, from)?;
            Ok(updated)
        }
    }
}

/// What `++` adds: 1 to an integer, and to a pointer the bytes of one element.
pub fn step_bytes(alloc: Global, ty: &CType, tags: &Tags) -> Result<u32, NoMemory>
    requires { NoneContainsItself (tags_of tags.now.list) }
    ensures { IfOk result (λ bytes. bytes ≡ step_bytes (tags_of tags.now.list) (type_of ty.now)) }
{
    match target_of(ty) {
        Some(target) => {
            let size = size_of(alloc, target, tags)?;
            Ok(size)
        }
        None => Ok(1),
    }
}

/// What `++` adds, or `--` where the flag is set.
pub fn step_amount(alloc: Global, minus: bool, ty: &CType, tags: &Tags) -> Result<u32, NoMemory>
    requires { NoneContainsItself (tags_of tags.now.list) }
    ensures { IfOk result (λ amount. amount ≡ step_amount (tags_of tags.now.list) minus (type_of ty.now)) }
{
    let bytes = step_bytes(alloc, ty, tags)?;
    if minus {
        return Ok(word_negation(bytes));
    }
    Ok(bytes)
}
