// Sums and differences, of pointers too.
ghost use Rattle.std.specs.Prelude.{◌≡◌, IfOk};
ghost use Rattle.p9_base.specs.Words.{word_difference};
ghost use Rattle.p9_lang.specs.Types.{type_of, tags_of};
ghost use Rattle.p9_lang.specs.TagRules.{NoneContainsItself};
ghost use Rattle.p9_lang.specs.Initialisers.{pointed_size, on_numbers, whole_quotient, fixed_sum, fixed_difference};
ghost use Rattle.p9_fixed.specs.Told.{told_fixed};

use crate::kinds::Fixed;
use crate::moving::{moved_back, moved_by};
use crate::operations::{number_operation, whole_quotient};
use p9_base::{NoMemory, word_difference};
use p9_lang::{CBinary, CType, Tags};
use p9_operators::size_of;
use p9_types::{is_pointer, target_of};
use std::alloc::Global;

// How many bytes what a pointer points to has; 1 of another type.
fn pointed_size(alloc: Global, tags: &Tags, ty: &CType) -> Result<u32, NoMemory>
    requires { NoneContainsItself (tags_of tags.now.list) }
    ensures { IfOk result (λ size. size ≡ pointed_size (tags_of tags.now.list) (type_of ty.now)) }
{
    match target_of(ty) {
        Some(target) => {
            let size = size_of(alloc, target, tags)?;
            Ok(size)
        }
        None => Ok(1),
    }
}

/// A sum of two operands, by the types of their values.
pub(crate) fn fixed_sum<'a>(
    alloc: Global,
    tags: &Tags,
    left: &CType,
    right: &CType,
    a: Fixed<'a>,
    b: Fixed<'a>,
) -> Result<Fixed<'a>, NoMemory>
    requires { NoneContainsItself (tags_of tags.now.list) }
    ensures { IfOk result (λ f. told_fixed f ≡ fixed_sum (tags_of tags.now.list)
        (type_of left.now) (type_of right.now) (told_fixed a.entry) (told_fixed b.entry)) }
{
    if is_pointer(left) {
        let size = pointed_size(alloc, tags, left)?;
        return Ok(moved_by(a, size, b));
    }
    if is_pointer(right) {
        let size = pointed_size(alloc, tags, right)?;
        return Ok(moved_by(b, size, a));
    }
    Ok(number_operation(CBinary::Add, left, right, a, b))
}

// How many elements two numbers of bytes are apart.
fn apart<'a>(size: u32, a: Fixed<'a>, b: Fixed<'a>) -> Fixed<'a>
    ensures { told_fixed result
        ≡ on_numbers (λ x y. whole_quotient (word_difference x y) size) (told_fixed a.entry) (told_fixed b.entry) }
{
    match a {
        Fixed::Number(x) => match b {
            Fixed::Number(y) => whole_quotient(word_difference(x, y), size),
            Fixed::Address { .. } | Fixed::NotFixed => Fixed::NotFixed,
        },
        Fixed::Address { .. } | Fixed::NotFixed => Fixed::NotFixed,
    }
}

/// A difference of two operands, by the types of their values.
pub(crate) fn fixed_difference<'a>(
    alloc: Global,
    tags: &Tags,
    left: &CType,
    right: &CType,
    a: Fixed<'a>,
    b: Fixed<'a>,
) -> Result<Fixed<'a>, NoMemory>
    requires { NoneContainsItself (tags_of tags.now.list) }
    ensures { IfOk result (λ f. told_fixed f ≡ fixed_difference (tags_of tags.now.list)
        (type_of left.now) (type_of right.now) (told_fixed a.entry) (told_fixed b.entry)) }
{
    if is_pointer(right) {
        let size = pointed_size(alloc, tags, left)?;
        return Ok(apart(size, a, b));
    }
    if is_pointer(left) {
        let size = pointed_size(alloc, tags, left)?;
        return Ok(moved_back(a, size, b));
    }
    Ok(number_operation(CBinary::Sub, left, right, a, b))
}
