ghost use Rattle.std.specs.Prelude.{◌≡◌, [], IfOk};
ghost use Rattle.p9_lang.specs.Types.{type_of, member_of, members_of, tag_of, tags_of};
ghost use Rattle.p9_lang.specs.LayoutExamples.{structure};
ghost use Rattle.typing_tests.specs.Layouts.{sample_tag, sample, innermost_tag, enclosing_tag, nested};

use p9_base::NoMemory;
use p9_lang::{CType, Ident, Member, Tag, Tags};
use p9_types::{Conv, Found, Layout, TypeFault, convert, find_member, layout};
use sqlite_items::{Boxed, Items};
use std::alloc::Global;
use std::test::Fail;

fn member(alloc: Global, name: &[u8], ty: CType) -> Result<Member, NoMemory>
    ensures { IfOk result (λ m. member_of m ≡ record { name = name.now; type = type_of ty }) }
{
    let name = Ident {
        list: Vec::from_slice(alloc, name)?,
    };
    Ok(Member { name, ty })
}

// `struct { char c; int n; short s; }`, or a union of these.
fn sample_tag(alloc: Global, is_union: bool) -> Result<Tag, NoMemory>
    ensures { IfOk result (λ t. tag_of t ≡ sample_tag is_union) }
{
    let mut members = Items::new(alloc);
    members.push(member(alloc, b"c", CType::Char)?)?;
    members.push(member(alloc, b"n", CType::Int)?)?;
    members.push(member(alloc, b"s", CType::Short)?)?;
    Ok(Tag {
        is_union,
        name: Ident {
            list: Vec::new(alloc),
        },
        members: Some(members),
        marked: false,
    })
}

fn sample(alloc: Global, is_union: bool) -> Result<Tags, NoMemory>
    ensures { IfOk result (λ t. tags_of t.list ≡ sample is_union) }
{
    let mut list = Items::new(alloc);
    list.push(sample_tag(alloc, is_union)?)?;
    Ok(Tags { list })
}

fn laid(alloc: Global, is_union: bool, ty: &CType) -> Result<Layout, TypeFault> {
    let tags = sample(alloc, is_union)?;
    layout(alloc, ty, &tags)
}

fn array(alloc: Global, element: CType, count: u32) -> Result<CType, NoMemory> {
    Ok(CType::Array(Boxed::new(alloc, element)?, count))
}

#[test]
fn structures_and_unions(rt: HostRuntime) -> Result<(), Fail> {
    let structure = laid(rt.alloc(), false, &CType::Tagged(0))?;
    assert_eq!(rt; structure.size, 12);
    assert_eq!(rt; structure.align, 4);
    let union_size = laid(rt.alloc(), true, &CType::Tagged(0))?.size;
    assert_eq!(rt; union_size, 4);
    Ok(())
}

#[test]
fn incomplete(rt: HostRuntime) -> Result<(), Fail> {
    let absent = laid(rt.alloc(), false, &CType::Tagged(1));
    assert!(rt; matches!(absent, Err(TypeFault::Incomplete)));
    let unknown = array(rt.alloc(), CType::Char, 0)?;
    let answer = laid(rt.alloc(), false, &unknown);
    assert!(rt; matches!(answer, Err(TypeFault::Incomplete)));
    Ok(())
}

#[test]
fn sizes_at_the_limit(rt: HostRuntime) -> Result<(), Fail> {
    let largest = array(rt.alloc(), CType::Char, 16_777_216)?;
    let size = laid(rt.alloc(), false, &largest)?.size;
    assert_eq!(rt; size, 16_777_216);
    let larger = array(rt.alloc(), CType::Char, 16_777_217)?;
    let answer = laid(rt.alloc(), false, &larger);
    assert!(rt; matches!(answer, Err(TypeFault::BadConstant)));
    Ok(())
}

fn structure(alloc: Global, members: Items<Member>) -> Tag
    ensures { tag_of result ≡ structure [] (members_of members) }
{
    Tag {
        is_union: false,
        name: Ident {
            list: Vec::new(alloc),
        },
        members: Some(members),
        marked: false,
    }
}

// `struct { int k; }`
fn innermost(alloc: Global) -> Result<Tag, NoMemory>
    ensures { IfOk result (λ t. tag_of t ≡ innermost_tag) }
{
    let mut members = Items::new(alloc);
    members.push(member(alloc, b"k", CType::Int)?)?;
    Ok(structure(alloc, members))
}

// The structure of two unnamed ones.
fn enclosing(alloc: Global) -> Result<Tag, NoMemory>
    ensures { IfOk result (λ t. tag_of t ≡ enclosing_tag) }
{
    let mut members = Items::new(alloc);
    members.push(member(alloc, b"", CType::Tagged(0))?)?;
    members.push(member(alloc, b"", CType::Tagged(1))?)?;
    Ok(structure(alloc, members))
}

// `struct A { int k; }; struct B { int k; }; struct C { struct A; struct B; };`
fn nested(alloc: Global) -> Result<Tags, NoMemory>
    ensures { IfOk result (λ t. tags_of t.list ≡ nested) }
{
    let mut list = Items::new(alloc);
    list.push(innermost(alloc)?)?;
    list.push(innermost(alloc)?)?;
    list.push(enclosing(alloc)?)?;
    Ok(Tags { list })
}

fn sample_member(alloc: Global, name: &[u8]) -> Result<Found, NoMemory> {
    let tags = sample(alloc, false)?;
    let name = Ident {
        list: Vec::from_slice(alloc, name)?,
    };
    find_member(alloc, &tags, 0, &name)
}

fn nested_member(alloc: Global, tag: u32, name: &[u8]) -> Result<Found, NoMemory> {
    let tags = nested(alloc)?;
    let name = Ident {
        list: Vec::from_slice(alloc, name)?,
    };
    find_member(alloc, &tags, tag, &name)
}

fn converted(alloc: Global, from: &CType, to: &CType, zero: bool) -> Result<Conv, NoMemory> {
    let tags = nested(alloc)?;
    convert(alloc, from, to, &tags, zero)
}

fn pointer(alloc: Global, target: CType) -> Result<CType, NoMemory> {
    Ok(CType::Pointer(Boxed::new(alloc, target)?))
}

fn at(offset: u32, member: u32) -> Found {
    Found::At {
        offset: Some(offset),
        tag: 0,
        member,
    }
}

#[test]
fn members(rt: HostRuntime) -> Result<(), Fail> {
    assert_eq!(rt; sample_member(rt.alloc(), b"c")?, at(0, 0));
    assert_eq!(rt; sample_member(rt.alloc(), b"n")?, at(4, 1));
    assert_eq!(rt; sample_member(rt.alloc(), b"s")?, at(8, 2));
    assert_eq!(rt; sample_member(rt.alloc(), b"x")?, Found::Missing);
    Ok(())
}

#[test]
fn unnamed_structures(rt: HostRuntime) -> Result<(), Fail> {
    assert_eq!(rt; nested_member(rt.alloc(), 2, b"k")?, Found::Ambiguous);
    assert_eq!(rt; nested_member(rt.alloc(), 0, b"k")?, at(0, 0));
    assert_eq!(rt; nested_member(rt.alloc(), 3, b"k")?, Found::Incomplete);
    Ok(())
}

// From `void *`.
fn from_void(alloc: Global, target: CType) -> Result<Conv, NoMemory> {
    let void = pointer(alloc, CType::Void)?;
    let to = pointer(alloc, target)?;
    converted(alloc, &void, &to, false)
}

fn between(alloc: Global, from: u32, to: u32) -> Result<Conv, NoMemory> {
    let from = pointer(alloc, CType::Tagged(from))?;
    let to = pointer(alloc, CType::Tagged(to))?;
    converted(alloc, &from, &to, false)
}

fn from_null(alloc: Global) -> Result<Conv, NoMemory> {
    let to = pointer(alloc, CType::Char)?;
    converted(alloc, &CType::Int, &to, true)
}

#[test]
fn pointers(rt: HostRuntime) -> Result<(), Fail> {
    let function = CType::Function(Boxed::new(rt.alloc(), CType::Int)?, Items::new(rt.alloc()));
    assert_eq!(rt; from_void(rt.alloc(), function)?, Conv::No);
    assert_eq!(rt; from_void(rt.alloc(), CType::Int)?, Conv::Same);
    Ok(())
}

#[test]
fn structures(rt: HostRuntime) -> Result<(), Fail> {
    assert_eq!(rt; between(rt.alloc(), 2, 1)?, Conv::Inner(Some(4)));
    assert_eq!(rt; between(rt.alloc(), 1, 2)?, Conv::No);
    Ok(())
}

#[test]
fn integers(rt: HostRuntime) -> Result<(), Fail> {
    assert_eq!(rt;
        converted(rt.alloc(), &CType::Int, &CType::Char, true)?,
        Conv::Integer
    );
    assert_eq!(rt; from_null(rt.alloc())?, Conv::Null);
    Ok(())
}
