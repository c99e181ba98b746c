// How many nodes there are.
ghost use Rattle.std.specs.Prelude.{◌≡◌, ◌+◌, IfOk};
ghost use Rattle.p9_lang.specs.Trees.{row_of, nodes_of_row};

use p9_base::NoMemory;
use p9_lang::Node;

/// The sum, where a `usize` holds it.
pub(crate) fn sum(a: usize, b: usize) -> Result<usize, NoMemory>
    ensures { IfOk result (λ n. n ≡ a + b) }
{
    a.checked_add(b).ok_or(NoMemory)
}

/// So many nodes, and those of these trees. Trees that are nested more than so many levels deep are
/// answered by want of memory.
#[tactic(auto, using(crate::proofs::Nodes::counted))]
pub(crate) fn count_with(count: usize, nodes: &[Node], levels: u32) -> Result<usize, NoMemory>
    ensures { IfOk result (λ n. n ≡ count + nodes_of_row (row_of nodes.now)) }
{
    if levels == 0 {
        return Err(NoMemory);
    }
    let mut sum_so_far = count;
    let mut rest = nodes;
    'nodes: while let [node, after @ ..] = rest {
        let inside = count_with(sum_so_far, node.parts.as_slice(), levels - 1)?;
        sum_so_far = sum(inside, 1)?;
        rest = after;
    }
    Ok(sum_so_far)
}
