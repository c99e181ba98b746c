// Nodes that become parts of others.
ghost use Rattle.std.specs.Prelude.{◌≡◌, true, IfOk, if◌then◌else◌};
ghost use Rattle.p9_lang.specs.declared.tree.Node.{out-Node};
ghost use Rattle.p9_grammar.specs.Trees.{tree_of, trees_of, node, none, more, push};
ghost use Rattle.p9_grammar.specs.Scopes.{nothing};
ghost use Rattle.p9_grammar.specs.Machine.{start_of};
ghost use Rattle.p9_tree_build.specs.Machines.{told_of, frame_of, read_of};
ghost use Rattle.p9_tree_moves.specs.Moves.{is_text};
ghost use Rattle.p9_tree_reader.specs.Reading.{longer, longer_kind, is_text_kind};

use p9_grammar::Head;
use p9_lang::{Ident, Kind, Node};
use p9_tree_build::{Body, Frame, Read, Row, Told, Whole, nothing_told, start_of};
use p9_tree_moves::pushed;
use std::alloc::{AllocError, Global};

fn heard(hears: bool, before: Told, now: Told) -> Told
    ensures { told_of result ≡ (if hears then told_of now else told_of before) }
{
    match hears {
        true => now,
        false => before,
    }
}

/// An open node with one more part, of which it hears what it tells or not.
pub fn grown(body: Body, part: Read, hears: bool) -> Result<Body, AllocError>
    ensures from { IfOk result (λ b. b.from ≡ body.from) }
    ensures parts { IfOk result (λ b. trees_of b.row.list ≡ push (trees_of body.row.list) (tree_of part.whole.node)) }
    ensures told { IfOk result (λ b. told_of b.told ≡ (if hears then told_of part.told else told_of body.told)) }
{
    let Body { from, row, told } = body;
    let Read { whole, told: now } = part;
    let told = heard(hears, told, now);
    Ok(Body {
        from,
        row: row.pushed(whole)?,
        told,
    })
}

/// A node that is open whose first part this is.
pub fn begun_with(alloc: Global, part: Read, head: Head) -> Result<Frame, AllocError>
    ensures { IfOk result (λ f. frame_of f ≡ record { head = head; from = start_of (tree_of part.whole.node); parts = more (tree_of part.whole.node) none; told = told_of part.told }) }
{
    let from = start_of(&part.whole.node);
    let Read { whole, told } = part;
    let row = Row::new(alloc).pushed(whole)?;
    Ok(Frame {
        head,
        body: Body { from, row, told },
    })
}

/// A node of this kind whose only part this is.
pub fn posted(alloc: Global, part: Read, kind: Kind) -> Result<Read, AllocError>
    ensures { IfOk result (λ r. read_of r ≡ record { tree = node kind (start_of (tree_of part.whole.node)) (more (tree_of part.whole.node) none); told = nothing }) }
{
    let from = start_of(&part.whole.node);
    let row = Row::new(alloc).pushed(part.whole)?;
    Ok(Read {
        whole: row.whole(kind, from)?,
        told: nothing_told(alloc),
    })
}

fn longer_kind(kind: Kind, bytes: Ident) -> Result<Kind, AllocError>
    requires { is_text_kind kind ≡ true }
    ensures { IfOk result (λ k. k ≡ longer_kind kind bytes) }
{
    match kind {
        Kind::Text(pieces) => Ok(Kind::Text(pushed(pieces, bytes)?)),
        _ => unreachable!(),
    }
}

fn without_parts(node: Node) -> (Kind, u32)
    ensures kind { result.0 ≡ (out-Node node).kind }
    ensures token { result.1 ≡ (out-Node node).token }
{
    let Node {
        kind,
        token,
        parts: _,
    } = node;
    (kind, token)
}

/// A text with one more piece.
#[tactic(auto, using(crate::proofs::Longer::longer_node, crate::proofs::Longer::text_node))]
pub fn lengthened(alloc: Global, text: Read, bytes: Ident) -> Result<Read, AllocError>
    requires { is_text (tree_of text.whole.node) ≡ true }
    ensures { IfOk result (λ r. read_of r ≡ record { tree = longer (tree_of text.whole.node) bytes; told = nothing }) }
{
    let Whole {
        node,
        high: _,
        size: _,
    } = text.whole;
    let (kind, token) = without_parts(node);
    Ok(Read {
        whole: Row::new(alloc).whole(longer_kind(kind, bytes)?, token)?,
        told: nothing_told(alloc),
    })
}
