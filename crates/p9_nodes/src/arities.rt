// Nodes beside each other by how many there are.
ghost use Rattle.std.specs.Prelude.{◌≡◌, IfOk};
ghost use Rattle.p9_nodes.specs.Nodes.{row_in};
ghost use Rattle.p9_nodes.specs.Arities.{is_none, the_one, the_two, the_three, told_one, told_two, told_three};

use crate::nodes::{NodeRow, TypedNode, split};
use crate::source::Source;
use p9_base::NoMemory;

/// Whether there is none.
#[tactic(auto, using(crate::proofs::Rows::none_in, crate::proofs::Rows::some_in))]
pub fn is_none<'a>(source: &'a Source<'a>, row: NodeRow<'a>) -> bool
    ensures { result ≡ is_none (row_in source.now.typed.now row.entry) }
{
    match row.nodes {
        [] => true,
        [_, ..] => false,
    }
}

/// The one node, where there is one.
#[tactic(auto, using(crate::proofs::Rows::one_none, crate::proofs::Rows::one_here, crate::proofs::Rows::one_more))]
pub fn the_one<'a>(
    source: &'a Source<'a>,
    row: NodeRow<'a>,
) -> Result<Option<TypedNode<'a>>, NoMemory>
    ensures { IfOk result (λ o. told_one source.now.typed.now o
        ≡ the_one (row_in source.now.typed.now row.entry)) }
{
    let Some((node, others)) = split(source, row)? else {
        return Ok(None);
    };
    if is_none(source, others) {
        return Ok(Some(node));
    }
    Ok(None)
}

/// The two nodes, where there are two.
#[tactic(auto, using(crate::proofs::Rows::two_none, crate::proofs::Rows::two_here, crate::proofs::Rows::two_more))]
pub fn the_two<'a>(
    source: &'a Source<'a>,
    row: NodeRow<'a>,
) -> Result<Option<(TypedNode<'a>, TypedNode<'a>)>, NoMemory>
    ensures { IfOk result (λ o. told_two source.now.typed.now o
        ≡ the_two (row_in source.now.typed.now row.entry)) }
{
    let Some((first, others)) = split(source, row)? else {
        return Ok(None);
    };
    match the_one(source, others)? {
        Some(second) => Ok(Some((first, second))),
        None => Ok(None),
    }
}

/// The three nodes, where there are three.
#[tactic(auto, using(crate::proofs::Rows::three_none, crate::proofs::Rows::three_here, crate::proofs::Rows::three_more))]
pub fn the_three<'a>(
    source: &'a Source<'a>,
    row: NodeRow<'a>,
) -> Result<Option<(TypedNode<'a>, TypedNode<'a>, TypedNode<'a>)>, NoMemory>
    ensures { IfOk result (λ o. told_three source.now.typed.now o
        ≡ the_three (row_in source.now.typed.now row.entry)) }
{
    let Some((first, others)) = split(source, row)? else {
        return Ok(None);
    };
    match the_two(source, others)? {
        Some((second, third)) => Ok(Some((first, second, third))),
        None => Ok(None),
    }
}
