// Conversions, of assignments, arguments, results and casts.
ghost use Rattle.std.specs.Prelude.{◌≡◌, ℕ, IfOk};
ghost use Rattle.p9_lang.specs.Types.{type_of, tags_of};
ghost use Rattle.p9_lang.specs.TagRules.{NoneContainsItself};
ghost use Rattle.p9_lang.specs.Conversions.{Conversion, conversion};
ghost use Rattle.p9_cmean.specs.Contents.{content_of};
ghost use Rattle.p9_types.specs.Converted.{told_conversion};
ghost use Rattle.p9_types.specs.Offsets.{kept_offset};
ghost use Rattle.p9_tree.specs.Trees as trees;
ghost use Rattle.p9_tree.specs.Trees.{tree_of};
ghost use Rattle.p9_lower.specs.Operators as specs;
ghost use Rattle.p9_operators.specs.Contents.{told_content};
ghost use Rattle.p9_operators.specs.Converting.{passed_from};

use crate::content::{Content, content_of};
use crate::making::number;
use crate::moving::moved_tree;
use crate::widths::{narrowed_tree, width_of};
use p9_base::NoMemory;
use p9_lang::{CType, Tags};
use p9_tree::TTree;
use p9_types::{Conv, convert};
use std::alloc::Global;

// A pointer to a structure's unnamed substructure, by that to the structure. Of an offset beyond the limit
// it is told only that it is there.
fn inner_pointer(alloc: Global, offset: Option<u32>, tree: TTree) -> Result<TTree, NoMemory>
    ensures { (n : ℕ) → offset ≡ kept_offset n
        → IfOk result (λ t. tree_of t ≡ specs.moved_tree (tree_of tree) (trees.Const n)) }
{
    match offset {
        Some(offset) => {
            let inner = moved_tree(alloc, tree, number(offset))?;
            Ok(inner)
        }
        None => Err(NoMemory),
    }
}

// A value that is stored, by how it is converted.
fn stored(alloc: Global, how: Conv, tree: TTree) -> Result<TTree, NoMemory>
    ensures { (c : Conversion) → how ≡ told_conversion c
        → IfOk result (λ t. tree_of t ≡ specs.stored_tree c (tree_of tree)) }
{
    match how {
        Conv::Same | Conv::Integer | Conv::Ambiguous | Conv::No => Ok(tree),
        Conv::Null => Ok(number(0)),
        Conv::Inner(offset) => {
            let inner = inner_pointer(alloc, offset, tree)?;
            Ok(inner)
        }
    }
}

// A value of another type, by how it is converted.
fn converted(alloc: Global, how: Conv, to: &CType, tree: TTree) -> Result<TTree, NoMemory>
    ensures { (c : Conversion) → how ≡ told_conversion c
        → IfOk result (λ t. tree_of t ≡ specs.converted_tree c (type_of to.now) (tree_of tree)) }
{
    match how {
        Conv::Same | Conv::Integer => {
            let narrow = narrowed_tree(alloc, width_of(to), tree)?;
            Ok(narrow)
        }
        Conv::Null => Ok(number(0)),
        Conv::Inner(offset) => {
            let inner = inner_pointer(alloc, offset, tree)?;
            Ok(inner)
        }
        Conv::Ambiguous | Conv::No => Ok(tree),
    }
}

/// A value as it is stored into an lvalue of a type, which narrows it; `zero` says that it is the null
/// constant. Its own type is that of an operand, whose arrays and functions have become pointers.
pub fn stored_tree(
    alloc: Global,
    from: &CType,
    to: &CType,
    tags: &Tags,
    zero: bool,
    tree: TTree,
) -> Result<TTree, NoMemory>
    requires { NoneContainsItself (tags_of tags.now.list) }
    ensures { IfOk result (λ t. tree_of t ≡ specs.stored_tree
        (conversion (tags_of tags.now.list) (type_of from.now) (type_of to.now) zero) (tree_of tree)) }
{
    let how = convert(alloc, from, to, tags, zero)?;
    let value = stored(alloc, how, tree)?;
    Ok(value)
}

/// A value as one of another type; `zero` says that it is the null constant. Its own type is that of an
/// operand, whose arrays and functions have become pointers.
pub fn passed_tree(
    alloc: Global,
    from: &CType,
    to: &CType,
    tags: &Tags,
    zero: bool,
    tree: TTree,
) -> Result<TTree, NoMemory>
    requires { NoneContainsItself (tags_of tags.now.list) }
    ensures { IfOk result (λ t. tree_of t ≡ passed_from (tags_of tags.now.list)
        (type_of from.now) zero (type_of to.now) (tree_of tree)) }
{
    let how = convert(alloc, from, to, tags, zero)?;
    let value = converted(alloc, how, to, tree)?;
    Ok(value)
}

// A value that is cast, by what an object of the type that it is cast to holds.
fn cast(alloc: Global, content: Content, ty: &CType, tree: TTree) -> Result<TTree, NoMemory>
    ensures { IfOk result (λ t. tree_of t ≡ specs.cast_tree (told_content content) (type_of ty.now) (tree_of tree)) }
{
    match content {
        Content::Integer => {
            let narrow = narrowed_tree(alloc, width_of(ty), tree)?;
            Ok(narrow)
        }
        Content::Reference | Content::Aggregate | Content::Nothing => Ok(tree),
    }
}

/// A value that is cast to a type; one to void changes nothing.
pub fn cast_tree(alloc: Global, ty: &CType, tree: TTree) -> Result<TTree, NoMemory>
    ensures { IfOk result (λ t. tree_of t ≡ specs.cast_tree (content_of (type_of ty.now)) (type_of ty.now) (tree_of tree)) }
{
    let value = cast(alloc, content_of(ty), ty, tree)?;
    Ok(value)
}
