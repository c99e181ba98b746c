// Values of what is neither an array nor a function.
ghost use Rattle.std.specs.Prelude.{◌≡◌, IfOk};
ghost use Rattle.p9_lang.specs.Types.{TypeTree, type_of, tags_of, meant};
ghost use Rattle.p9_lang.specs.TagRules.{NoneContainsItself};
ghost use Rattle.p9_lang.specs.Conversions.{decayed};
ghost use Rattle.p9_lang.specs.Constants.{size_constant, enumeration_constant};
ghost use Rattle.p9_lang.specs.Initialisers as specs;
ghost use Rattle.p9_lang.specs.Initialisers.{with_one, with_two, with_three};
ghost use Rattle.p9_fixed.specs.Told.{told_fixed, told_part, told_parts};

use crate::binary::fixed_binary;
use crate::choosing::{after, chosen_fixed};
use crate::kinds::{Fixed, FixedPart};
use crate::parts::{one, three, two};
use p9_base::{NoMemory, word_complement, word_negation};
use p9_lang::{Bind, CBinary, CType, CUnary, Kind, Tags};
use p9_operand::{narrowed, value_type};
use p9_types::{TypeFault, is_integer, layout};
use std::alloc::Global;

// What an operator makes of a number.
fn unary_word<'a>(op: CUnary, address: Fixed<'a>, word: u32) -> Fixed<'a>
    ensures { (type : TypeTree) → told_fixed result
        ≡ specs.fixed_unary op (record { type = type; value = specs.Number word; address = told_fixed address.entry }) }
{
    match op {
        CUnary::Address => address,
        CUnary::Deref => Fixed::NotFixed,
        CUnary::Plus => Fixed::Number(word),
        CUnary::Minus => Fixed::Number(word_negation(word)),
        CUnary::Complement => Fixed::Number(word_complement(word)),
        CUnary::Not => Fixed::Number(if word == 0 { 1 } else { 0 }),
    }
}

fn fixed_unary<'a>(op: CUnary, a: FixedPart<'a>) -> Fixed<'a>
    ensures { told_fixed result ≡ specs.fixed_unary op (told_part a.entry) }
{
    match a.value {
        Fixed::Number(word) => unary_word(op, a.address, word),
        Fixed::Address { .. } | Fixed::NotFixed => match op {
            CUnary::Address => a.address,
            CUnary::Deref | CUnary::Plus | CUnary::Minus | CUnary::Complement | CUnary::Not =>
                Fixed::NotFixed,
        },
    }
}

fn fixed_cast<'a>(ty: &CType, a: Fixed<'a>) -> Fixed<'a>
    ensures { told_fixed result ≡ specs.fixed_cast (type_of ty.now) (told_fixed a.entry) }
{
    if !is_integer(ty) {
        return a;
    }
    match a {
        Fixed::Number(word) => Fixed::Number(narrowed(ty, word)),
        Fixed::Address { .. } | Fixed::NotFixed => Fixed::NotFixed,
    }
}

fn enumeration<'a>(means: &Bind) -> Fixed<'a>
    ensures { told_fixed result ≡ specs.fixed_constant (enumeration_constant (meant means.now)) }
{
    match means {
        Bind::EnumValue(value) => Fixed::Number(*value),
        Bind::Nothing | Bind::Outer(_) | Bind::Static(_) | Bind::Auto(_) | Bind::TypeName(_) =>
            Fixed::NotFixed,
    }
}

fn fixed_size<'a>(alloc: Global, tags: &Tags, ty: &CType) -> Result<Fixed<'a>, NoMemory>
    requires { NoneContainsItself (tags_of tags.now.list) }
    ensures { IfOk result (λ f. told_fixed f
        ≡ specs.fixed_constant (size_constant (tags_of tags.now.list) (type_of ty.now))) }
{
    match layout(alloc, ty, tags) {
        Ok(layout) => Ok(Fixed::Number(layout.size)),
        Err(TypeFault::Incomplete | TypeFault::BadConstant) => Ok(Fixed::NotFixed),
        Err(TypeFault::Memory) => Err(NoMemory),
    }
}

/// The value of the one part.
pub(crate) fn value_within<'a>(parts: &[FixedPart<'a>]) -> Fixed<'a>
    ensures { told_fixed result ≡ with_one (λ a. a.value) (told_parts parts.now) }
{
    match one(parts) {
        Some(a) => a.value,
        None => Fixed::NotFixed,
    }
}

fn unary_value<'a>(op: CUnary, parts: &[FixedPart<'a>]) -> Fixed<'a>
    ensures { told_fixed result ≡ with_one (specs.fixed_unary op) (told_parts parts.now) }
{
    match one(parts) {
        Some(a) => fixed_unary(op, a),
        None => Fixed::NotFixed,
    }
}

// What an operator makes of two parts.
fn both_parts<'a>(
    alloc: Global,
    tags: &Tags,
    op: CBinary,
    a: FixedPart<'a>,
    b: FixedPart<'a>,
) -> Result<Fixed<'a>, NoMemory>
    requires { NoneContainsItself (tags_of tags.now.list) }
    ensures { IfOk result (λ f. told_fixed f ≡ specs.fixed_binary (tags_of tags.now.list) op
        (decayed (type_of a.entry.ty.now)) (decayed (type_of b.entry.ty.now)) (told_fixed a.entry.value) (told_fixed b.entry.value)) }
{
    let left = value_type(alloc, a.ty)?;
    let right = value_type(alloc, b.ty)?;
    let value = fixed_binary(alloc, tags, op, left.get(), right.get(), a.value, b.value)?;
    Ok(value)
}

fn binary_value<'a>(
    alloc: Global,
    tags: &Tags,
    op: CBinary,
    parts: &[FixedPart<'a>],
) -> Result<Fixed<'a>, NoMemory>
    requires { NoneContainsItself (tags_of tags.now.list) }
    ensures { IfOk result (λ f. told_fixed f ≡ with_two (λ a b. specs.fixed_binary (tags_of tags.now.list) op
        (decayed a.type) (decayed b.type) a.value b.value) (told_parts parts.now)) }
{
    match two(parts) {
        Some((a, b)) => {
            let value = both_parts(alloc, tags, op, a, b)?;
            Ok(value)
        }
        None => Ok(Fixed::NotFixed),
    }
}

fn chosen_value<'a>(parts: &[FixedPart<'a>]) -> Fixed<'a>
    ensures { told_fixed result
        ≡ with_three (λ t a b. specs.chosen_fixed t.value a.value b.value) (told_parts parts.now) }
{
    match three(parts) {
        Some((test, a, b)) => chosen_fixed(test.value, a.value, b.value),
        None => Fixed::NotFixed,
    }
}

fn comma_value<'a>(parts: &[FixedPart<'a>]) -> Fixed<'a>
    ensures { told_fixed result ≡ with_two (λ a b. specs.after a.value b.value) (told_parts parts.now) }
{
    match two(parts) {
        Some((a, b)) => after(a.value, b.value),
        None => Fixed::NotFixed,
    }
}

fn cast_value<'a>(ty: &CType, parts: &[FixedPart<'a>]) -> Fixed<'a>
    ensures { told_fixed result
        ≡ with_two (λ t a. specs.fixed_cast (type_of ty.now) a.value) (told_parts parts.now) }
{
    match two(parts) {
        Some((_, a)) => fixed_cast(ty, a.value),
        None => Fixed::NotFixed,
    }
}

fn size_value<'a>(
    alloc: Global,
    tags: &Tags,
    parts: &[FixedPart<'a>],
) -> Result<Fixed<'a>, NoMemory>
    requires { NoneContainsItself (tags_of tags.now.list) }
    ensures { IfOk result (λ f. told_fixed f
        ≡ with_one (λ a. specs.fixed_constant (size_constant (tags_of tags.now.list) a.type)) (told_parts parts.now)) }
{
    match one(parts) {
        Some(a) => {
            let size = fixed_size(alloc, tags, a.ty)?;
            Ok(size)
        }
        None => Ok(Fixed::NotFixed),
    }
}

/// The value of a node of a kind, where it is neither an array nor a function.
pub(crate) fn scalar_at<'a>(
    alloc: Global,
    tags: &Tags,
    kind: &Kind,
    ty: &CType,
    means: &Bind,
    parts: &[FixedPart<'a>],
) -> Result<Fixed<'a>, NoMemory>
    requires { NoneContainsItself (tags_of tags.now.list) }
    ensures { IfOk result (λ f. told_fixed f ≡ specs.scalar_at (tags_of tags.now.list) kind.now (type_of ty.now)
        (meant means.now) (told_parts parts.now)) }
{
    match kind {
        Kind::Number { value, .. } => Ok(Fixed::Number(*value)),
        Kind::Character(value) => Ok(Fixed::Number(*value)),
        Kind::Name(_) => Ok(enumeration(means)),
        Kind::Parens => Ok(value_within(parts)),
        Kind::Unary(op) => Ok(unary_value(*op, parts)),
        Kind::Binary(op) => {
            let value = binary_value(alloc, tags, *op, parts)?;
            Ok(value)
        }
        Kind::Choose => Ok(chosen_value(parts)),
        Kind::Comma => Ok(comma_value(parts)),
        Kind::Cast => Ok(cast_value(ty, parts)),
        Kind::SizeofValue => {
            let size = size_value(alloc, tags, parts)?;
            Ok(size)
        }
        Kind::SizeofType => {
            let size = size_value(alloc, tags, parts)?;
            Ok(size)
        }
        Kind::Declaration { .. }
        | Kind::Function { .. }
        | Kind::Member { .. }
        | Kind::EnumConst { .. }
        | Kind::DeclName(_)
        | Kind::Star { .. }
        | Kind::Brackets { .. }
        | Kind::Params { .. }
        | Kind::DeclParens
        | Kind::Param { .. }
        | Kind::NamedType { .. }
        | Kind::InitList { .. }
        | Kind::Entry { .. }
        | Kind::Block
        | Kind::Expression
        | Kind::If
        | Kind::While
        | Kind::Do
        | Kind::For { .. }
        | Kind::Switch
        | Kind::Case
        | Kind::Default
        | Kind::Break
        | Kind::Continue
        | Kind::Return
        | Kind::Index
        | Kind::Call
        | Kind::Dot { .. }
        | Kind::Post { .. }
        | Kind::Pre { .. }
        | Kind::Assign(_)
        | Kind::Text(_) => Ok(Fixed::NotFixed),
    }
}
