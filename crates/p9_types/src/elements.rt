// Arrays of arrays as elements of one type.
ghost use Rattle.std.specs.Prelude.{◌≡◌, ◌≤◌, false, MatchOption};
ghost use Rattle.std.specs.Option.{option_to_list};
ghost use Rattle.p9_lang.specs.Types.{Array, type_of};
ghost use Rattle.p9_lang.specs.Conversions.{is_array};
ghost use Rattle.p9_types.specs.Capping.{capped, innermost, count_in};
ghost use Rattle.p9_types.specs.Reaching.{inner_of};

use crate::capped::capped_number;
use p9_lang::CType;

/// Elements of one type, and how many.
#[derive(Clone, Copy)]
pub struct Elements<'a> {
    pub ty: &'a CType,
    pub count: u32,
}

/// An array's elements, at its outermost.
#[tactic(auto, using(crate::proofs::Shapes::shapes))]
pub fn array_elements(ty: &CType) -> Option<Elements<'_>>
    ensures { MatchOption result (is_array (type_of ty.now) ≡ false) (λ e.
        type_of ty.now ≡ Array (type_of e.ty.now) e.count) }
{
    match ty {
        CType::Array(element, length) => Some(Elements {
            ty: element.get(),
            count: *length,
        }),
        CType::Void
        | CType::Char
        | CType::UChar
        | CType::Short
        | CType::UShort
        | CType::Int
        | CType::UInt
        | CType::Long
        | CType::ULong
        | CType::Pointer(_)
        | CType::Function(..)
        | CType::Tagged(_) => None,
    }
}

/// What a type's objects consist of: elements of a type that is no array.
pub(crate) fn innermost_elements(ty: &CType) -> Elements<'_>
    ensures ty { type_of result.ty.now ≡ innermost (type_of ty.now) }
    ensures count { result.count ≡ capped (count_in (type_of ty.now)) }
    ensures no_array { is_array (type_of result.ty.now) ≡ false }
{
    let mut element = ty;
    let mut count = 1;
    'inwards: while let Some(inner) = array_elements(element) {
        count = capped_number(u64::from(count) * u64::from(inner.count));
        element = inner.ty;
    }
    Elements { ty: element, count }
}

/// The structure or union that an object of the type is, or contains as an element.
pub(crate) fn tag_in(ty: &CType) -> Option<u32>
    ensures { option_to_list result ≡ inner_of (type_of ty.now) }
{
    direct_tag(innermost_elements(ty).ty)
}

#[tactic(auto, using(crate::proofs::Shapes::shapes))]
fn direct_tag(ty: &CType) -> Option<u32>
    requires { is_array (type_of ty.now) ≡ false }
    ensures { option_to_list result ≡ inner_of (type_of ty.now) }
{
    match ty {
        CType::Tagged(number) => Some(*number),
        CType::Void
        | CType::Char
        | CType::UChar
        | CType::Short
        | CType::UShort
        | CType::Int
        | CType::UInt
        | CType::Long
        | CType::ULong
        | CType::Pointer(_)
        | CType::Array(..)
        | CType::Function(..) => None,
    }
}
