ghost use Rattle.std.specs.Prelude.{◌≡◌, ◌<◌, IfOk, codes};
ghost use Rattle.p9_lang.specs.Types.{Pointer, type_of, types_of, type_row, tag_of};
ghost use Rattle.p9_lang.specs.TagRules.{AreMentioned};
ghost use Rattle.p9_sig.specs.Examples.{node, edge};

use p9_lang::{CType, Ident, Member, Tag, Tags};
use p9_sig::{SigFault, signature, text_examples, texts_tell_types, types_have_texts};
use sqlite_items::{Boxed, Items};
use std::alloc::{AllocError, Global};
use std::test::Fail;

#[tactic(auto, using(p9_types::proofs::Shapes::type_of_pointer))]
fn pointer(alloc: Global, target: CType) -> Result<CType, AllocError>
    ensures { IfOk result (λ t. type_of t ≡ Pointer (type_of target)) }
{
    Ok(CType::Pointer(Boxed::new(alloc, target)?))
}

fn ident(alloc: Global, name: &[u8]) -> Result<Ident, AllocError>
    ensures { IfOk result (λ i. i ≡ name.now) }
{
    Ok(Ident {
        list: Vec::from_slice(alloc, name)?,
    })
}

// `struct Node { int v; struct Edge *e; };`
fn node(alloc: Global) -> Result<Tag, AllocError>
    ensures { IfOk result (λ t. tag_of t ≡ node 1) }
{
    let mut members = Items::new(alloc);
    members.push(Member {
        name: ident(alloc, b"v")?,
        ty: CType::Int,
    })?;
    members.push(Member {
        name: ident(alloc, b"e")?,
        ty: pointer(alloc, CType::Tagged(1))?,
    })?;
    Ok(Tag {
        is_union: false,
        name: ident(alloc, b"Node")?,
        members: Some(members),
        marked: false,
    })
}

// `struct Edge { struct Node *to; };`
fn edge(alloc: Global) -> Result<Tag, AllocError>
    ensures { IfOk result (λ t. tag_of t ≡ edge (codes "to") 0) }
{
    let mut members = Items::new(alloc);
    members.push(Member {
        name: ident(alloc, b"to")?,
        ty: pointer(alloc, CType::Tagged(0))?,
    })?;
    Ok(Tag {
        is_union: false,
        name: ident(alloc, b"Edge")?,
        members: Some(members),
        marked: false,
    })
}

fn integers(alloc: Global, count: usize) -> Result<Items<CType>, AllocError>
    ensures { IfOk result (λ ts. AreMentioned (λ i. i < 0) (type_row (types_of ts))) }
{
    let mut types = Items::new(alloc);
    'each: for _ in 0..count {
        types.push(CType::Int)?;
    }
    Ok(types)
}

#[test]
fn structures_that_name_each_other(rt: HostRuntime) -> Result<(), Fail> {
    let alloc = rt.alloc();
    let mut list = Items::new(alloc);
    list.push(node(alloc)?)?;
    list.push(edge(alloc)?)?;
    let tags = Tags { list };
    let first = pointer(alloc, CType::Tagged(0))?;
    let text = signature(alloc, &first, &tags)?;
    assert_eq!(rt;
        text.list.as_slice(),
        b"*{Node:v:i;e:*{Edge:to:*@Node;;};}".as_slice()
    );
    Ok(())
}

// `(i;i;..)*v` has the greatest length, and `(i;i;..)**v` one byte more.
#[test]
fn the_longest_text(rt: HostRuntime) -> Result<(), Fail> {
    let alloc = rt.alloc();
    let tags = Tags {
        list: Items::new(alloc),
    };
    let target = pointer(alloc, CType::Void)?;
    let ty = CType::Function(Boxed::new(alloc, target)?, integers(alloc, 32766)?);
    let text = signature(alloc, &ty, &tags)?;
    assert_eq!(rt; text.list.len(), 65536);
    let target = pointer(alloc, CType::Void)?;
    let longer = pointer(alloc, target)?;
    let ty = CType::Function(Boxed::new(alloc, longer)?, integers(alloc, 32766)?);
    let answer = signature(alloc, &ty, &tags);
    assert!(rt; matches!(answer, Err(SigFault::SignatureTooLong)));
    Ok(())
}

#[test]
fn laws() {
    types_have_texts();
    texts_tell_types();
    text_examples();
}
