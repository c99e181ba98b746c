// What nodes are as constants.
ghost use Rattle.std.specs.Prelude.{◌≡◌, IfOk};
ghost use Rattle.p9_lang.specs.Types.{tags_of};
ghost use Rattle.p9_lang.specs.TagRules.{NoneContainsItself};
ghost use Rattle.p9_operand.specs.Told.{told_constant, told_operands};
ghost use Rattle.p9_nodes.specs.Nodes.{node_in, row_in};
ghost use Rattle.p9_nodes.specs.Evaluated.{constant_in, operands_in};

use crate::counting::LEVELS;
use crate::nodes::{NodeRow, TypedNode, split};
use crate::source::Source;
use p9_base::NoMemory;
use p9_operand::{Constant, Operand, constant_at, copied};
use std::alloc::Global;

#[cycle(constant_within)]
#[tactic(auto, using(crate::proofs::Operands::operands_over))]
fn operands_within<'a>(
    alloc: Global,
    source: &'a Source<'a>,
    row: NodeRow<'a>,
    levels: u32,
) -> Result<Vec<Operand>, NoMemory>
    requires { NoneContainsItself (tags_of source.now.typed.now.tags.list) }
    ensures { IfOk result (λ operands. told_operands operands.items
        ≡ operands_in (tags_of source.now.typed.now.tags.list) (row_in source.now.typed.now row.entry)) }
{
    let mut operands = Vec::new(alloc);
    let mut rest = row;
    'parts: while let Some((part, others)) = split(source, rest)? {
        let constant = constant_within(alloc, source, &part, levels)?;
        let ty = copied(alloc, part.ty)?;
        operands.push(Operand {
            ty,
            is_lvalue: false,
            constant,
        })?;
        rest = others;
    }
    Ok(operands)
}

#[cycle(constant_within)]
fn constant_within<'a>(
    alloc: Global,
    source: &'a Source<'a>,
    node: &TypedNode<'a>,
    levels: u32,
) -> Result<Constant, NoMemory>
    requires { NoneContainsItself (tags_of source.now.typed.now.tags.list) }
    ensures { IfOk result (λ c. told_constant c
        ≡ constant_in (tags_of source.now.typed.now.tags.list) (node_in source.now.typed.now node.now)) }
{
    if levels == 0 {
        return Err(NoMemory);
    }
    let operands = operands_within(alloc, source, node.parts, levels - 1)?;
    let constant = constant_at(
        alloc,
        &source.typed.tags,
        node.kind,
        node.ty,
        node.means,
        operands.as_slice(),
    )?;
    Ok(constant)
}

/// What an expression is as a constant.
pub fn constant_of<'a>(
    alloc: Global,
    source: &'a Source<'a>,
    node: &TypedNode<'a>,
) -> Result<Constant, NoMemory>
    requires { NoneContainsItself (tags_of source.now.typed.now.tags.list) }
    ensures { IfOk result (λ c. told_constant c
        ≡ constant_in (tags_of source.now.typed.now.tags.list) (node_in source.now.typed.now node.now)) }
{
    constant_within(alloc, source, node, LEVELS)
}
