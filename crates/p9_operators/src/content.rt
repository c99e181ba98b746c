// What objects of types hold.
ghost use Rattle.std.specs.Prelude.{◌≡◌};
ghost use Rattle.p9_lang.specs.Types.{type_of};
ghost use Rattle.p9_cmean.specs.Contents.{content_of};
ghost use Rattle.p9_operators.specs.Contents.{told_content};

use p9_lang::CType;

/// An integer; a pointer; an array, a function or a structure, which isn't read; or nothing, of void.
#[derive(Clone, Copy)]
pub(crate) enum Content {
    Integer,
    Reference,
    Aggregate,
    Nothing,
}

/// What an object of a type holds.
#[tactic(auto, using(p9_types::proofs::Shapes::shapes))]
pub(crate) fn content_of(ty: &CType) -> Content
    ensures { told_content result ≡ content_of (type_of ty.now) }
{
    match ty {
        CType::Void => Content::Nothing,
        CType::Char
        | CType::UChar
        | CType::Short
        | CType::UShort
        | CType::Int
        | CType::UInt
        | CType::Long
        | CType::ULong => Content::Integer,
        CType::Pointer(_) => Content::Reference,
        CType::Array(..) | CType::Function(..) | CType::Tagged(_) => Content::Aggregate,
    }
}
