// Addresses of lvalues and functions.
ghost use Rattle.std.specs.Prelude.{◌≡◌, ℕ, IfOk};
ghost use Rattle.p9_lang.specs.declared.tree.Kind.TheVariants as kind;
ghost use Rattle.p9_lang.specs.Types as types;
ghost use Rattle.p9_lang.specs.Types.{type_of, tags_of, meant};
ghost use Rattle.p9_lang.specs.TagRules.{NoneContainsItself};
ghost use Rattle.p9_lang.specs.Members as members;
ghost use Rattle.p9_lang.specs.Conversions.{decayed};
ghost use Rattle.p9_lang.specs.Initialisers as specs;
ghost use Rattle.p9_lang.specs.Initialisers.{with_one, with_two};
ghost use Rattle.p9_types.specs.Offsets.{kept_offset};
ghost use Rattle.p9_types.specs.Sightings.{without_type};
ghost use Rattle.p9_fixed.specs.Told.{told_fixed, told_part, told_parts};

use crate::kinds::{Base, Fixed, FixedPart};
use crate::moving::moved;
use crate::parts::{one, two};
use crate::pointers::fixed_sum;
use crate::scalars::value_within;
use p9_base::NoMemory;
use p9_lang::{Bind, CType, CUnary, Ident, Kind, Tags};
use p9_operand::value_type;
use p9_types::{Found, find_member, number_of, target_of};
use std::alloc::Global;

fn base_address<'a>(means: &'a Bind) -> Fixed<'a>
    ensures { told_fixed result ≡ specs.base_address (meant means.now) }
{
    match means {
        Bind::Outer(name) => Fixed::Address {
            base: Base::Outer(name),
            offset: 0,
        },
        Bind::Static(number) => Fixed::Address {
            base: Base::Static(*number),
            offset: 0,
        },
        Bind::Nothing | Bind::Auto(_) | Bind::EnumValue(_) | Bind::TypeName(_) => Fixed::NotFixed,
    }
}

// What an offset moves; of one beyond the limit it is told only that it is there.
fn moved_inside<'a>(start: Fixed<'a>, offset: Option<u32>) -> Result<Fixed<'a>, NoMemory>
    ensures { (n : ℕ) → offset ≡ kept_offset n → IfOk result (λ f. told_fixed f ≡ specs.moved (told_fixed start.entry) n) }
{
    match offset {
        Some(offset) => Ok(moved(start, offset)),
        None => Err(NoMemory),
    }
}

// The address of a member that is found, in a structure at an address.
fn found_offset<'a>(start: Fixed<'a>, found: Found) -> Result<Fixed<'a>, NoMemory>
    ensures { (f : members.Found) → found ≡ without_type f
        → IfOk result (λ x. told_fixed x ≡ specs.found_offset (told_fixed start.entry) f) }
{
    match found {
        Found::At {
            offset,
            tag: _,
            member: _,
        } => {
            let inside = moved_inside(start, offset)?;
            Ok(inside)
        }
        Found::Missing | Found::Ambiguous | Found::Incomplete => Ok(Fixed::NotFixed),
    }
}

fn member_address<'a>(
    alloc: Global,
    tags: &Tags,
    name: &Ident,
    ty: &CType,
    start: Fixed<'a>,
) -> Result<Fixed<'a>, NoMemory>
    requires { NoneContainsItself (tags_of tags.now.list) }
    ensures { IfOk result (λ f. told_fixed f
        ≡ specs.member_address (tags_of tags.now.list) name.now (type_of ty.now) (told_fixed start.entry)) }
{
    match number_of(ty) {
        Some(tag) => {
            let found = find_member(alloc, tags, tag, name)?;
            let address = found_offset(start, found)?;
            Ok(address)
        }
        None => Ok(Fixed::NotFixed),
    }
}

// The address of a member of what a value points to.
fn pointed_address<'a>(
    alloc: Global,
    tags: &Tags,
    name: &Ident,
    ty: &CType,
    start: Fixed<'a>,
) -> Result<Fixed<'a>, NoMemory>
    requires { NoneContainsItself (tags_of tags.now.list) }
    ensures { IfOk result (λ f. told_fixed f ≡ specs.member_address (tags_of tags.now.list) name.now
        (specs.target_of (type_of ty.now)) (told_fixed start.entry)) }
{
    match target_of(ty) {
        Some(target) => {
            let address = member_address(alloc, tags, name, target, start)?;
            Ok(address)
        }
        None => Ok(Fixed::NotFixed),
    }
}

fn selected_address<'a>(
    alloc: Global,
    tags: &Tags,
    arrow: bool,
    name: &Ident,
    a: FixedPart<'a>,
) -> Result<Fixed<'a>, NoMemory>
    requires { NoneContainsItself (tags_of tags.now.list) }
    ensures { IfOk result (λ f. told_fixed f
        ≡ specs.selected_address (tags_of tags.now.list) arrow name.now (told_part a.entry)) }
{
    if arrow {
        let ty = value_type(alloc, a.ty)?;
        let address = pointed_address(alloc, tags, name, ty.get(), a.value)?;
        return Ok(address);
    }
    let address = member_address(alloc, tags, name, a.ty, a.address)?;
    Ok(address)
}

fn address_within<'a>(parts: &[FixedPart<'a>]) -> Fixed<'a>
    ensures { told_fixed result ≡ with_one (λ a. a.address) (told_parts parts.now) }
{
    match one(parts) {
        Some(a) => a.address,
        None => Fixed::NotFixed,
    }
}

// The address of an element, by an array or pointer and an index.
fn element_address<'a>(
    alloc: Global,
    tags: &Tags,
    a: FixedPart<'a>,
    i: FixedPart<'a>,
) -> Result<Fixed<'a>, NoMemory>
    requires { NoneContainsItself (tags_of tags.now.list) }
    ensures { IfOk result (λ f. told_fixed f ≡ specs.fixed_sum (tags_of tags.now.list)
        (decayed (type_of a.entry.ty.now)) (decayed (type_of i.entry.ty.now)) (told_fixed a.entry.value) (told_fixed i.entry.value)) }
{
    let left = value_type(alloc, a.ty)?;
    let right = value_type(alloc, i.ty)?;
    let address = fixed_sum(alloc, tags, left.get(), right.get(), a.value, i.value)?;
    Ok(address)
}

fn index_address<'a>(
    alloc: Global,
    tags: &Tags,
    parts: &[FixedPart<'a>],
) -> Result<Fixed<'a>, NoMemory>
    requires { NoneContainsItself (tags_of tags.now.list) }
    ensures { IfOk result (λ f. told_fixed f ≡ with_two (λ a i. specs.fixed_sum (tags_of tags.now.list)
        (decayed a.type) (decayed i.type) a.value i.value) (told_parts parts.now)) }
{
    match two(parts) {
        Some((a, i)) => {
            let address = element_address(alloc, tags, a, i)?;
            Ok(address)
        }
        None => Ok(Fixed::NotFixed),
    }
}

fn dot_address<'a>(
    alloc: Global,
    tags: &Tags,
    arrow: bool,
    name: &Ident,
    parts: &[FixedPart<'a>],
) -> Result<Fixed<'a>, NoMemory>
    requires { NoneContainsItself (tags_of tags.now.list) }
    ensures { IfOk result (λ f. told_fixed f ≡ with_one
        (specs.selected_address (tags_of tags.now.list) arrow name.now) (told_parts parts.now)) }
{
    match one(parts) {
        Some(a) => {
            let address = selected_address(alloc, tags, arrow, name, a)?;
            Ok(address)
        }
        None => Ok(Fixed::NotFixed),
    }
}

fn unary_address<'a>(op: CUnary, parts: &[FixedPart<'a>]) -> Fixed<'a>
    ensures { (tags : types.Tags) (means : types.Meant) → told_fixed result
        ≡ specs.address_at tags (kind.Unary op) means (told_parts parts.now) }
{
    match op {
        CUnary::Deref => value_within(parts),
        CUnary::Address | CUnary::Plus | CUnary::Minus | CUnary::Complement | CUnary::Not =>
            Fixed::NotFixed,
    }
}

/// The address of a node of a kind, where it is an lvalue or a function.
pub(crate) fn address_at<'a>(
    alloc: Global,
    tags: &Tags,
    kind: &Kind,
    means: &'a Bind,
    parts: &[FixedPart<'a>],
) -> Result<Fixed<'a>, NoMemory>
    requires { NoneContainsItself (tags_of tags.now.list) }
    ensures { IfOk result (λ f. told_fixed f
        ≡ specs.address_at (tags_of tags.now.list) kind.now (meant means.now) (told_parts parts.now)) }
{
    match kind {
        Kind::Name(_) | Kind::Text(_) => Ok(base_address(means)),
        Kind::Parens => Ok(address_within(parts)),
        Kind::Index => {
            let address = index_address(alloc, tags, parts)?;
            Ok(address)
        }
        Kind::Dot { arrow, name } => {
            let address = dot_address(alloc, tags, *arrow, name, parts)?;
            Ok(address)
        }
        Kind::Unary(op) => Ok(unary_address(*op, parts)),
        Kind::Declaration { .. }
        | Kind::Function { .. }
        | Kind::Member { .. }
        | Kind::EnumConst { .. }
        | Kind::DeclName(_)
        | Kind::Star { .. }
        | Kind::Brackets { .. }
        | Kind::Params { .. }
        | Kind::DeclParens
        | Kind::Param { .. }
        | Kind::NamedType { .. }
        | Kind::InitList { .. }
        | Kind::Entry { .. }
        | Kind::Block
        | Kind::Expression
        | Kind::If
        | Kind::While
        | Kind::Do
        | Kind::For { .. }
        | Kind::Switch
        | Kind::Case
        | Kind::Default
        | Kind::Break
        | Kind::Continue
        | Kind::Return
        | Kind::Call
        | Kind::Post { .. }
        | Kind::Pre { .. }
        | Kind::SizeofValue
        | Kind::SizeofType
        | Kind::Cast
        | Kind::Binary(_)
        | Kind::Choose
        | Kind::Assign(_)
        | Kind::Comma
        | Kind::Number { .. }
        | Kind::Character(_) => Ok(Fixed::NotFixed),
    }
}
