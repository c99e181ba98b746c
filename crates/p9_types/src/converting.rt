// How a value of one type becomes one of another.
ghost use Rattle.std.specs.Prelude.{◌≡◌, ◌&&◌, ◌||◌, false, IfOk, MatchOption};
ghost use Rattle.p9_lang.specs.Types.{Pointer, Tagged, type_of, tags_of};
ghost use Rattle.p9_lang.specs.TagRules.{NoneContainsItself};
ghost use Rattle.p9_lang.specs.Conversions.{is_integer, is_void, is_object, is_structure, points_to, same_type, stays, structure_conversion, conversion};
ghost use Rattle.p9_types.specs.Converted.{told_conversion, are_generic};

use crate::head::{is_integer, is_object, is_pointer, is_void, number_of, target_of};
use crate::same::same_type;
use crate::sought::Sought;
use crate::substructure::find_substructure;
use p9_base::NoMemory;
use p9_lang::{CType, Tags};
use std::alloc::Global;

/// How a value of one type becomes one of another: it stays, an integer becomes another, the null
/// constant becomes a pointer, or a pointer to a structure becomes one to its unnamed substructure at
/// an offset, or beyond the limit of all sizes, of which there may be several; or not at all.
#[derive(Clone, Copy, PartialEq, Eq, Debug)]
pub enum Conv {
    Same,
    Integer,
    Null,
    Inner(Option<u32>),
    Ambiguous,
    No,
}

// One is void and the other a type of objects.
fn is_generic(left: &CType, right: &CType) -> bool
    ensures { result ≡ ((is_void (type_of left.now) && is_object (type_of right.now))
        || (is_object (type_of left.now) && is_void (type_of right.now))) }
{
    if is_void(left) {
        is_object(right)
    } else {
        is_void(right) && is_object(left)
    }
}

// A pointer to void, and one to an object.
fn are_generic(from: &CType, to: &CType) -> bool
    ensures { result ≡ are_generic (type_of from.now) (type_of to.now) }
{
    match target_of(from) {
        None => false,
        Some(left) => match target_of(to) {
            None => false,
            Some(right) => is_generic(left, right),
        },
    }
}

fn stays(alloc: Global, from: &CType, to: &CType) -> Result<bool, NoMemory>
    ensures stays { IfOk result (λ same. same ≡ stays (type_of from.now) (type_of to.now)) }
    ensures apart { IfOk result (λ same. same ≡ false → same_type (type_of from.now) (type_of to.now) ≡ false) }
{
    if same_type(alloc, from, to)? {
        return Ok(true);
    }
    Ok(are_generic(from, to))
}

fn are_integers(from: &CType, to: &CType) -> bool
    ensures { result ≡ (is_integer (type_of from.now) && is_integer (type_of to.now)) }
{
    is_integer(from) && is_integer(to)
}

// The structure or union that a pointer points to.
fn structure_behind(ty: &CType) -> Option<u32>
    ensures { MatchOption result (points_to is_structure (type_of ty.now) ≡ false)
        (λ n. type_of ty.now ≡ Pointer (Tagged n)) }
{
    match target_of(ty) {
        Some(target) => number_of(target),
        None => None,
    }
}

fn structure_conversion(
    alloc: Global,
    from: &CType,
    to: &CType,
    tags: &Tags,
) -> Result<Conv, NoMemory>
    requires ends { NoneContainsItself (tags_of tags.now.list) }
    requires apart { same_type (type_of from.now) (type_of to.now) ≡ false }
    ensures { IfOk result (λ c. c ≡ told_conversion
        (structure_conversion (tags_of tags.now.list) (type_of from.now) (type_of to.now))) }
{
    let Some(outer) = structure_behind(from) else {
        return Ok(Conv::No);
    };
    let Some(inner) = structure_behind(to) else {
        return Ok(Conv::No);
    };
    match find_substructure(alloc, tags, outer, inner)? {
        Sought::Nowhere => Ok(Conv::No),
        Sought::One(offset) => Ok(Conv::Inner(offset)),
        Sought::Several => Ok(Conv::Ambiguous),
    }
}

/// How a value of one type becomes one of another, where `zero` says that it is the null constant.
pub fn convert(
    alloc: Global,
    from: &CType,
    to: &CType,
    tags: &Tags,
    zero: bool,
) -> Result<Conv, NoMemory>
    requires { NoneContainsItself (tags_of tags.now.list) }
    ensures { IfOk result (λ c. c ≡ told_conversion
        (conversion (tags_of tags.now.list) (type_of from.now) (type_of to.now) zero)) }
{
    if stays(alloc, from, to)? {
        return Ok(Conv::Same);
    }
    if are_integers(from, to) {
        return Ok(Conv::Integer);
    }
    let is_null = zero && is_pointer(to);
    if is_null {
        return Ok(Conv::Null);
    }
    let inner = structure_conversion(alloc, from, to, tags)?;
    Ok(inner)
}
