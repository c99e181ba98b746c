// Kinds of types, and what is asked of their sizes.
ghost use Rattle.std.specs.Prelude.{◌≡◌, IfOk};
ghost use Rattle.p9_lang.specs.Types.{type_of, tags_of};
ghost use Rattle.p9_lang.specs.TagRules.{NoneContainsItself};
ghost use Rattle.p9_lang.specs.Layout.{is_complete, is_within_limit};
ghost use Rattle.p9_lang.specs.Conversions.{is_array, is_character, is_function, is_object, is_scalar, is_structure, is_void, points_to};

use p9_base::NoMemory;
use p9_lang::{CType, Tags};
use p9_types::{
    TypeFault, array_elements, is_integer, is_object, is_pointer, is_void, layout, number_of,
    signature_of, target_of,
};
use std::alloc::Global;

/// An array type.
pub fn is_array(ty: &CType) -> bool
    ensures { result ≡ is_array (type_of ty.now) }
{
    array_elements(ty).is_some()
}

/// A function type.
pub fn is_function(ty: &CType) -> bool
    ensures { result ≡ is_function (type_of ty.now) }
{
    signature_of(ty).is_some()
}

/// A structure or a union.
pub fn is_structure(ty: &CType) -> bool
    ensures { result ≡ is_structure (type_of ty.now) }
{
    number_of(ty).is_some()
}

/// An integer or a pointer type.
pub fn is_scalar(ty: &CType) -> bool
    ensures { result ≡ is_scalar (type_of ty.now) }
{
    is_integer(ty) || is_pointer(ty)
}

/// `char` or `unsigned char`, of which texts fill arrays.
#[tactic(auto, using(p9_types::proofs::Shapes::shapes))]
pub fn is_character(ty: &CType) -> bool
    ensures { result ≡ is_character (type_of ty.now) }
{
    match ty {
        CType::Char | CType::UChar => true,
        CType::Void
        | CType::Short
        | CType::UShort
        | CType::Int
        | CType::UInt
        | CType::Long
        | CType::ULong
        | CType::Pointer(_)
        | CType::Array(..)
        | CType::Function(..)
        | CType::Tagged(_) => false,
    }
}

/// A pointer to void.
pub fn points_to_void(ty: &CType) -> bool
    ensures { result ≡ points_to is_void (type_of ty.now) }
{
    match target_of(ty) {
        Some(target) => is_void(target),
        None => false,
    }
}

/// A pointer to an object.
pub fn points_to_object(ty: &CType) -> bool
    ensures { result ≡ points_to is_object (type_of ty.now) }
{
    match target_of(ty) {
        Some(target) => is_object(target),
        None => false,
    }
}

/// A pointer to a function.
pub fn points_to_function(ty: &CType) -> bool
    ensures { result ≡ points_to is_function (type_of ty.now) }
{
    match target_of(ty) {
        Some(target) => is_function(target),
        None => false,
    }
}

/// A type whose objects have a size.
pub fn is_complete(alloc: Global, ty: &CType, tags: &Tags) -> Result<bool, NoMemory>
    requires { NoneContainsItself (tags_of tags.now.list) }
    ensures { IfOk result (λ complete. complete ≡ is_complete (tags_of tags.now.list) (type_of ty.now)) }
{
    match layout(alloc, ty, tags) {
        Ok(_) | Err(TypeFault::BadConstant) => Ok(true),
        Err(TypeFault::Incomplete) => Ok(false),
        Err(TypeFault::Memory) => Err(NoMemory),
    }
}

/// A type with at most 16777216 bytes; one without a size has none.
pub fn is_within_limit(alloc: Global, ty: &CType, tags: &Tags) -> Result<bool, NoMemory>
    requires { NoneContainsItself (tags_of tags.now.list) }
    ensures { IfOk result (λ within. within ≡ is_within_limit (tags_of tags.now.list) (type_of ty.now)) }
{
    match layout(alloc, ty, tags) {
        Ok(_) | Err(TypeFault::Incomplete) => Ok(true),
        Err(TypeFault::BadConstant) => Ok(false),
        Err(TypeFault::Memory) => Err(NoMemory),
    }
}

/// A pointer to a complete type.
pub fn is_complete_pointer(alloc: Global, ty: &CType, tags: &Tags) -> Result<bool, NoMemory>
    requires { NoneContainsItself (tags_of tags.now.list) }
    ensures { IfOk result (λ complete. complete
        ≡ points_to (is_complete (tags_of tags.now.list)) (type_of ty.now)) }
{
    match target_of(ty) {
        Some(target) => is_complete(alloc, target, tags),
        None => Ok(false),
    }
}
