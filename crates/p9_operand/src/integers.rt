// Types of integers.
ghost use Rattle.std.specs.Prelude.{◌≡◌, ◌&&◌};
ghost use Rattle.p9_lang.specs.Types.{type_of};
ghost use Rattle.p9_lang.specs.Conversions.{is_integer, is_long, is_unsigned, integer_of, promoted, common, number_type};

use p9_lang::CType;
use p9_types::is_integer;

/// `unsigned int` or `unsigned long`. The shorter ones become int, which has all their values.
#[tactic(auto, using(p9_types::proofs::Shapes::shapes))]
pub fn is_unsigned(ty: &CType) -> bool
    ensures { result ≡ is_unsigned (type_of ty.now) }
{
    match ty {
        CType::UInt | CType::ULong => true,
        CType::Void
        | CType::Char
        | CType::UChar
        | CType::Short
        | CType::UShort
        | CType::Int
        | CType::Long
        | CType::Pointer(_)
        | CType::Array(..)
        | CType::Function(..)
        | CType::Tagged(_) => false,
    }
}

#[tactic(auto, using(p9_types::proofs::Shapes::shapes))]
fn is_long(ty: &CType) -> bool
    ensures { result ≡ is_long (type_of ty.now) }
{
    match ty {
        CType::Long | CType::ULong => true,
        CType::Void
        | CType::Char
        | CType::UChar
        | CType::Short
        | CType::UShort
        | CType::Int
        | CType::UInt
        | CType::Pointer(_)
        | CType::Array(..)
        | CType::Function(..)
        | CType::Tagged(_) => false,
    }
}

#[tactic(auto, using(p9_types::proofs::Shapes::shapes))]
fn integer_of(unsigned: bool, long: bool) -> CType
    ensures { type_of result ≡ integer_of unsigned long }
{
    match (unsigned, long) {
        (false, false) => CType::Int,
        (true, false) => CType::UInt,
        (false, true) => CType::Long,
        (true, true) => CType::ULong,
    }
}

/// What an integer operand becomes.
pub fn promoted(ty: &CType) -> CType
    ensures { type_of result ≡ promoted (type_of ty.now) }
{
    integer_of(is_unsigned(ty), is_long(ty))
}

/// What two integer operands become.
pub fn common(left: &CType, right: &CType) -> CType
    ensures { type_of result ≡ common (type_of left.now) (type_of right.now) }
{
    let unsigned = is_unsigned(left) || is_unsigned(right);
    let long = is_long(left) || is_long(right);
    integer_of(unsigned, long)
}

/// The type of a number with its suffixes.
pub fn number_type(value: u32, unsigned: bool, long: bool) -> CType
    ensures { type_of result ≡ number_type value unsigned long }
{
    integer_of(unsigned || value >= 0x8000_0000, long)
}

/// Two integers.
pub fn are_integers(left: &CType, right: &CType) -> bool
    ensures { result ≡ (is_integer (type_of left.now) && is_integer (type_of right.now)) }
{
    is_integer(left) && is_integer(right)
}
