// The evaluator of expressions.
ghost use Rattle.std.specs.Prelude.{◌≡◌, IfOk};
ghost use Rattle.p9_lang.specs.Types.{type_of, tags_of, meant};
ghost use Rattle.p9_lang.specs.TagRules.{NoneContainsItself};
ghost use Rattle.p9_lang.specs.Initialisers as specs;
ghost use Rattle.p9_nodes.specs.Nodes.{label_of, node_in, row_in};
ghost use Rattle.p9_fixed.specs.Told.{told_fixed, told_part, told_parts};
ghost use Rattle.p9_fixed.specs.Evaluated.{part_in, parts_in};

use crate::addresses::address_at;
use crate::kinds::{Fixed, FixedPart};
use crate::scalars::scalar_at;
use p9_base::NoMemory;
use p9_lang::Tags;
use p9_nodes::{NodeRow, Source, TypedNode, split};
use p9_operand::{is_array, is_function};
use std::alloc::Global;

// An array stands for the address of its first element, and a function for its own.
fn value_at<'a>(
    alloc: Global,
    tags: &Tags,
    node: TypedNode<'a>,
    address: Fixed<'a>,
    parts: &[FixedPart<'a>],
) -> Result<Fixed<'a>, NoMemory>
    requires ends { NoneContainsItself (tags_of tags.now.list) }
    requires address { told_fixed address
        ≡ specs.address_at (tags_of tags.now.list) node.kind.now (meant node.means.now) (told_parts parts.now) }
    ensures { IfOk result (λ f. told_fixed f ≡ specs.value_at (tags_of tags.now.list) node.entry.kind.now
        (type_of node.entry.ty.now) (meant node.entry.means.now) (told_parts parts.now)) }
{
    if is_array(node.ty) || is_function(node.ty) {
        return Ok(address);
    }
    let value = scalar_at(alloc, tags, node.kind, node.ty, node.means, parts)?;
    Ok(value)
}

// A node by its parts.
fn fixed_at<'a>(
    alloc: Global,
    tags: &Tags,
    node: TypedNode<'a>,
    parts: &[FixedPart<'a>],
) -> Result<FixedPart<'a>, NoMemory>
    requires { NoneContainsItself (tags_of tags.now.list) }
    ensures { IfOk result (λ p. told_part p
        ≡ specs.fixed_at (tags_of tags.now.list) node.entry.kind.now (label_of node.entry) (told_parts parts.now)) }
{
    let address = address_at(alloc, tags, node.kind, node.means, parts)?;
    let value = value_at(alloc, tags, node, address, parts)?;
    Ok(FixedPart {
        ty: node.ty,
        value,
        address,
    })
}

#[cycle(part_within)]
#[tactic(auto, using(crate::proofs::Parted::parts_over))]
fn parts_within<'a>(
    alloc: Global,
    source: &'a Source<'a>,
    row: NodeRow<'a>,
    levels: u32,
) -> Result<Vec<FixedPart<'a>>, NoMemory>
    requires { NoneContainsItself (tags_of source.now.typed.now.tags.list) }
    ensures { IfOk result (λ parts. told_parts parts.items
        ≡ parts_in (tags_of source.now.typed.now.tags.list) (row_in source.now.typed.now row.entry)) }
{
    let mut parts = Vec::new(alloc);
    let mut rest = row;
    'parts: while let Some((part, others)) = split(source, rest)? {
        let here = part_within(alloc, source, part, levels)?;
        parts.push(here)?;
        rest = others;
    }
    Ok(parts)
}

#[cycle(part_within)]
fn part_within<'a>(
    alloc: Global,
    source: &'a Source<'a>,
    node: TypedNode<'a>,
    levels: u32,
) -> Result<FixedPart<'a>, NoMemory>
    requires { NoneContainsItself (tags_of source.now.typed.now.tags.list) }
    ensures { IfOk result (λ p. told_part p
        ≡ part_in (tags_of source.now.typed.now.tags.list) (node_in source.now.typed.now node.entry)) }
{
    if levels == 0 {
        return Err(NoMemory);
    }
    let parts = parts_within(alloc, source, node.parts, levels - 1)?;
    let part = fixed_at(alloc, &source.typed.tags, node, parts.as_slice())?;
    Ok(part)
}

/// What an expression is before the program runs, if it is nested no more deeply than so many levels.
pub fn fixed_part<'a>(
    alloc: Global,
    source: &'a Source<'a>,
    node: TypedNode<'a>,
    levels: u32,
) -> Result<FixedPart<'a>, NoMemory>
    requires { NoneContainsItself (tags_of source.now.typed.now.tags.list) }
    ensures { IfOk result (λ p. told_part p
        ≡ specs.fixed_part (tags_of source.now.typed.now.tags.list) (node_in source.now.typed.now node.entry)) }
{
    let part = part_within(alloc, source, node, levels)?;
    Ok(part)
}
