// Nodes beside each other, one after the other.
ghost use Rattle.std.specs.Prelude.{◌≡◌, ◌+◌, IfOk, MatchOption};
ghost use Rattle.p9_lang.specs.Types.{types_of, all_meant};
ghost use Rattle.p9_lang.specs.Trees.{none, more, syntax_of, nodes_of};
ghost use Rattle.p9_lang.specs.Modules.{typed, source_of};
ghost use Rattle.p9_nodes.specs.Nodes.{row_in, node_in};

use crate::counting::{count_of, sum};
use crate::source::Source;
use p9_base::NoMemory;
use p9_lang::{Bind, CType, Kind, Node};

/// Nodes beside each other, numbered from `first` on, each behind its parts.
#[derive(Clone, Copy)]
pub struct NodeRow<'a> {
    pub first: u32,
    pub nodes: &'a [Node],
}

/// A node with its number, its type and what it stands for.
#[derive(Clone, Copy)]
pub struct TypedNode<'a> {
    pub kind: &'a Kind,
    pub token: u32,
    pub number: u32,
    pub ty: &'a CType,
    pub means: &'a Bind,
    pub parts: NodeRow<'a>,
}

// The node whose innermost first part has this number.
fn node_at<'a>(
    source: &'a Source<'a>,
    first: u32,
    node: &'a Node,
) -> Result<TypedNode<'a>, NoMemory>
    ensures tree { IfOk result (λ n. node_in source.now.typed.now n
        ≡ typed (types_of source.now.typed.now.types) (all_meant source.now.typed.now.binds) first
        (syntax_of node.now)) }
    ensures number { IfOk result (λ n. n.number + 1 ≡ first + nodes_of (syntax_of node.now)) }
{
    let count = count_of(node)?;
    let number = sum(first, count - 1)?;
    Ok(TypedNode {
        kind: &node.kind,
        token: node.token,
        number,
        ty: source.type_at(number),
        means: source.meaning_at(number),
        parts: NodeRow {
            first,
            nodes: node.parts.as_slice(),
        },
    })
}

/// The first node, and the others.
pub fn split<'a>(
    source: &'a Source<'a>,
    row: NodeRow<'a>,
) -> Result<Option<(TypedNode<'a>, NodeRow<'a>)>, NoMemory>
    ensures { IfOk result (λ o. MatchOption o (row_in source.now.typed.now row.entry ≡ none) (λ p.
        row_in source.now.typed.now row.entry
        ≡ more (node_in source.now.typed.now p.0) (row_in source.now.typed.now p.1))) }
{
    let [node, others @ ..] = row.nodes else {
        return Ok(None);
    };
    let node = node_at(source, row.first, node)?;
    let first = sum(node.number, 1)?;
    Ok(Some((
        node,
        NodeRow {
            first,
            nodes: others,
        },
    )))
}

/// The items of a module.
#[tactic(auto, unfolding(crate::specs::Nodes::row_in))]
pub fn items<'a>(source: &'a Source<'a>) -> NodeRow<'a>
    ensures { row_in source.now.typed.now result ≡ (source_of source.now.typed.now).items }
{
    NodeRow {
        first: 0,
        nodes: source.typed.tree.items.as_slice(),
    }
}
