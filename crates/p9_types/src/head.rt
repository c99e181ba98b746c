// What a type is at its outermost.
ghost use Rattle.std.specs.Prelude.{◌≡◌, false, MatchOption};
ghost use Rattle.p9_lang.specs.Types.{Pointer, Function, Tagged, type_of, types_of, type_row};
ghost use Rattle.p9_lang.specs.Conversions.{is_integer, is_void, is_object, is_pointer, is_function, is_structure};
ghost use Rattle.p9_types.specs.Heads.{head_of};

use p9_lang::CType;

/// What a type is, without its parts.
#[derive(Clone, Copy, PartialEq, Eq)]
pub(crate) enum TypeHead {
    Void,
    Char,
    UChar,
    Short,
    UShort,
    Int,
    UInt,
    Long,
    ULong,
    Pointer,
    Array,
    Function,
    Tagged,
}

/// What a type is.
#[tactic(auto, using(crate::proofs::Shapes::shapes))]
pub(crate) fn head(ty: &CType) -> TypeHead
    ensures { result ≡ head_of (type_of ty.now) }
{
    match ty {
        CType::Void => TypeHead::Void,
        CType::Char => TypeHead::Char,
        CType::UChar => TypeHead::UChar,
        CType::Short => TypeHead::Short,
        CType::UShort => TypeHead::UShort,
        CType::Int => TypeHead::Int,
        CType::UInt => TypeHead::UInt,
        CType::Long => TypeHead::Long,
        CType::ULong => TypeHead::ULong,
        CType::Pointer(_) => TypeHead::Pointer,
        CType::Array(..) => TypeHead::Array,
        CType::Function(..) => TypeHead::Function,
        CType::Tagged(_) => TypeHead::Tagged,
    }
}

/// What a pointer points to.
#[tactic(auto, using(crate::proofs::Shapes::shapes))]
pub fn target_of(ty: &CType) -> Option<&CType>
    ensures { MatchOption result (is_pointer (type_of ty.now) ≡ false) (λ t. type_of ty.now ≡ Pointer (type_of t.now)) }
{
    match ty {
        CType::Pointer(target) => Some(target.get()),
        CType::Void
        | CType::Char
        | CType::UChar
        | CType::Short
        | CType::UShort
        | CType::Int
        | CType::UInt
        | CType::Long
        | CType::ULong
        | CType::Array(..)
        | CType::Function(..)
        | CType::Tagged(_) => None,
    }
}

/// A function's result and parameters.
#[tactic(auto, using(crate::proofs::Shapes::shapes))]
pub fn signature_of<'a>(ty: &'a CType) -> Option<(&'a CType, &'a [CType])>
    ensures { MatchOption result (is_function (type_of ty.now) ≡ false) (λ f.
        type_of ty.now ≡ Function (type_of f.0.now) (type_row (types_of f.1.now))) }
{
    match ty {
        CType::Function(result_type, parameters) => {
            Some((result_type.get(), parameters.as_slice()))
        }
        CType::Void
        | CType::Char
        | CType::UChar
        | CType::Short
        | CType::UShort
        | CType::Int
        | CType::UInt
        | CType::Long
        | CType::ULong
        | CType::Pointer(_)
        | CType::Array(..)
        | CType::Tagged(_) => None,
    }
}

/// A structure's or union's number.
#[tactic(auto, using(crate::proofs::Shapes::shapes))]
pub fn number_of(ty: &CType) -> Option<u32>
    ensures { MatchOption result (is_structure (type_of ty.now) ≡ false) (λ n. type_of ty.now ≡ Tagged n) }
{
    match ty {
        CType::Tagged(number) => Some(*number),
        CType::Void
        | CType::Char
        | CType::UChar
        | CType::Short
        | CType::UShort
        | CType::Int
        | CType::UInt
        | CType::Long
        | CType::ULong
        | CType::Pointer(_)
        | CType::Array(..)
        | CType::Function(..) => None,
    }
}

/// An integer type.
#[tactic(auto, using(crate::proofs::Shapes::shapes))]
pub fn is_integer(ty: &CType) -> bool
    ensures { result ≡ is_integer (type_of ty.now) }
{
    match ty {
        CType::Char
        | CType::UChar
        | CType::Short
        | CType::UShort
        | CType::Int
        | CType::UInt
        | CType::Long
        | CType::ULong => true,
        CType::Void
        | CType::Pointer(_)
        | CType::Array(..)
        | CType::Function(..)
        | CType::Tagged(_) => false,
    }
}

/// A pointer type.
#[tactic(auto, using(crate::proofs::Shapes::shapes))]
pub fn is_pointer(ty: &CType) -> bool
    ensures { result ≡ is_pointer (type_of ty.now) }
{
    match ty {
        CType::Pointer(_) => true,
        CType::Void
        | CType::Char
        | CType::UChar
        | CType::Short
        | CType::UShort
        | CType::Int
        | CType::UInt
        | CType::Long
        | CType::ULong
        | CType::Array(..)
        | CType::Function(..)
        | CType::Tagged(_) => false,
    }
}

/// A type of objects: neither void nor a function.
#[tactic(auto, using(crate::proofs::Shapes::shapes))]
pub fn is_object(ty: &CType) -> bool
    ensures { result ≡ is_object (type_of ty.now) }
{
    match ty {
        CType::Char
        | CType::UChar
        | CType::Short
        | CType::UShort
        | CType::Int
        | CType::UInt
        | CType::Long
        | CType::ULong
        | CType::Pointer(_)
        | CType::Array(..)
        | CType::Tagged(_) => true,
        CType::Void | CType::Function(..) => false,
    }
}

/// Void.
#[tactic(auto, using(crate::proofs::Shapes::shapes))]
pub fn is_void(ty: &CType) -> bool
    ensures { result ≡ is_void (type_of ty.now) }
{
    match ty {
        CType::Void => true,
        CType::Char
        | CType::UChar
        | CType::Short
        | CType::UShort
        | CType::Int
        | CType::UInt
        | CType::Long
        | CType::ULong
        | CType::Pointer(_)
        | CType::Array(..)
        | CType::Function(..)
        | CType::Tagged(_) => false,
    }
}
