// What has been read, if it is whole.
ghost use Rattle.std.specs.Prelude.{◌≡◌, ◌∷◌, [], reverse, IfNone, IfOk, IfSome};
ghost use Rattle.p9_grammar.specs.Trees.{Tree, tree_of};
ghost use Rattle.p9_lang.specs.declared.tree.Node.{Node};
ghost use Rattle.p9_tree_build.specs.Machines.{frame_of, stack_of};
ghost use Rattle.p9_tree_reader.specs.Reading.{state_of};
ghost use Rattle.p9_decl.specs.Finishing.{IsFunction, IsOver, IsSole, NoneOver, is_goal, MatchFound};

use p9_grammar::{Head, Terminal};
use p9_lang::{Kind, Node, Spec};
use p9_prefix::Phrase;
use p9_tree_build::{Body, Frame, Scope};
use p9_tree_reader::{ReadFault, Reader};
use sqlite_items::Items;
use std::alloc::{AllocError, Global};

/// A phrase that is whole, and the names in scope behind it.
#[derive(Drop)]
pub struct Found {
    pub node: Node,
    pub scope: Scope,
}

// The only node, if there is one.
fn sole(list: Items<Node>) -> Option<Node>
    ensures some { IfSome result (λ node. list ≡ node ∷ []) }
    ensures none { IfNone result ((node : Node) → list ≡ node ∷ [] → ⊥) }
{
    let mut rest = list;
    match rest.pop() {
        Some(node) => match rest.is_empty() {
            true => Some(node),
            false => None,
        },
        None => None,
    }
}

// The expression in an outermost node that has come to its end.
fn sole_part(frame: Frame) -> Option<Node>
    ensures some { IfSome result (λ node. IsSole (frame_of frame) (tree_of node)) }
    ensures none { IfNone result ((n : Tree) → IsSole (frame_of frame) n → ⊥) }
{
    let Frame { head, body } = frame;
    match head {
        Head::GoalOver => sole(body.row.list),
        _ => None,
    }
}

fn over(reader: Reader) -> Option<Found>
    ensures some { IfSome result (λ f. IsOver (state_of reader) (tree_of f.node) f.scope.levels) }
    ensures none { IfNone result (NoneOver (state_of reader)) }
{
    let Reader {
        mut stack,
        scope,
        at: _,
        last: _,
    } = reader;
    match stack.pop() {
        None => None,
        Some(frame) => match stack.as_slice() {
            [] => match sole_part(frame) {
                Some(node) => Some(Found { node, scope }),
                None => None,
            },
            _ => None,
        },
    }
}

// An expression is whole where the end may stand behind it.
fn expression(alloc: Global, reader: Reader) -> Result<Option<Found>, AllocError>
    ensures { IfOk result (λ found. MatchFound Phrase.Expression (state_of reader) found) }
{
    let mut ended = reader;
    match ended.step(alloc, &Terminal::End) {
        Ok(()) => Ok(over(ended)),
        Err(ReadFault::Refused) => Ok(None),
        Err(ReadFault::Memory) => Err(AllocError),
    }
}

// Whether a declaration alone is open.
#[tactic(auto, using(crate::proofs::Finding::not_alone))]
fn is_goal(frames: &[Frame]) -> bool
    ensures { result ≡ is_goal (stack_of (reverse frames.now)) }
{
    match frames {
        [frame] => match frame.head {
            Head::GoalHead => true,
            _ => false,
        },
        _ => false,
    }
}

// The item of a function that is open behind the brace, without its block.
fn function(frame: Frame) -> Option<Node>
    ensures some { IfSome result (λ node. IsFunction (frame_of frame) (tree_of node)) }
    ensures none { IfNone result ((n : Tree) → IsFunction (frame_of frame) n → ⊥) }
{
    let Frame { head, body } = frame;
    let Body { from, row, told: _ } = body;
    match head {
        Head::HeadOver(words) => Some(Node {
            kind: Kind::Function {
                spec: Spec { words },
            },
            token: from,
            parts: row.list,
        }),
        _ => None,
    }
}

fn declaration(reader: Reader) -> Option<Found>
    ensures { MatchFound Phrase.Declaration (state_of reader) result }
{
    let Reader {
        mut stack,
        scope,
        at: _,
        last,
    } = reader;
    match last {
        Some(read) => match is_goal(stack.as_slice()) {
            true => Some(Found {
                node: read.whole.node,
                scope,
            }),
            false => None,
        },
        None => match stack.pop() {
            None => None,
            Some(frame) => match is_goal(stack.as_slice()) {
                true => match function(frame) {
                    Some(node) => Some(Found { node, scope }),
                    None => None,
                },
                false => None,
            },
        },
    }
}

/// The phrase that has been read, if it is whole.
pub fn finish(alloc: Global, phrase: Phrase, reader: Reader) -> Result<Option<Found>, AllocError>
    ensures { IfOk result (λ found. MatchFound phrase (state_of reader) found) }
{
    match phrase {
        Phrase::Expression => expression(alloc, reader),
        Phrase::Declaration => Ok(declaration(reader)),
    }
}
