// How many nodes trees have.
ghost use Rattle.std.specs.Prelude.{◌≡◌, ◌+◌, IfOk};
ghost use Rattle.p9_lang.specs.Trees.{syntax_of, nodes_of};

use p9_base::NoMemory;
use p9_lang::Node;

/// Trees that are nested more deeply are answered by want of memory: the stack is memory too.
pub const LEVELS: u32 = 10_000;

/// The sum, where it has at most 32 bits.
pub(crate) fn sum(a: u32, b: u32) -> Result<u32, NoMemory>
    ensures { IfOk result (λ n. n ≡ a + b) }
{
    a.checked_add(b).ok_or(NoMemory)
}

#[tactic(auto, using(crate::proofs::Numbers::counted))]
fn count_within(node: &Node, levels: u32) -> Result<u32, NoMemory>
    ensures { IfOk result (λ n. n ≡ nodes_of (syntax_of node.now)) }
{
    if levels == 0 {
        return Err(NoMemory);
    }
    let mut count: u32 = 1;
    let mut rest = node.parts.as_slice();
    'parts: while let [part, after @ ..] = rest {
        count = sum(count, count_within(part, levels - 1)?)?;
        rest = after;
    }
    Ok(count)
}

/// How many nodes a tree has.
pub fn count_of(node: &Node) -> Result<u32, NoMemory>
    ensures { IfOk result (λ n. n ≡ nodes_of (syntax_of node.now)) }
{
    count_within(node, LEVELS)
}
