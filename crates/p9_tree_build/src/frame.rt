// The nodes that are open, and those that have just been read.
ghost use Rattle.std.specs.Prelude.{◌≡◌, IfOk, OnOk};
ghost use Rattle.p9_grammar.specs.Trees.{tree_of, trees_of, push};
ghost use Rattle.p9_grammar.specs.Scopes.{leave};
ghost use Rattle.p9_grammar.specs.Machine.{fresh, moved, made, leaf, start_of};
ghost use Rattle.p9_tree_build.specs.Machines.{told_of, frame_of, read_of};

use crate::{Row, Scope, Told, Whole, nothing_told, told_alone, told_at_end};
use p9_grammar::Head;
use p9_lang::{Kind, Node};
use std::alloc::{AllocError, Global};

/// A node that is open, but for how far it has come: its first token, its parts and what its
/// declarator tells.
#[derive(Drop)]
pub struct Body {
    pub from: u32,
    pub row: Row,
    pub told: Told,
}

/// A node that is open, and how far it has come.
#[derive(Drop)]
pub struct Frame {
    pub head: Head,
    pub body: Body,
}

/// A node that is read, and what it tells.
#[derive(Drop)]
pub struct Read {
    pub whole: Whole,
    pub told: Told,
}

/// A node that begins here.
pub fn opened(alloc: Global, head: Head, at: u32) -> Frame
    ensures { frame_of result ≡ fresh head at }
{
    let body = Body {
        from: at,
        row: Row::new(alloc),
        told: nothing_told(alloc),
    };
    Frame { head, body }
}

/// The node of one token.
pub fn single(alloc: Global, kind: Kind, at: u32) -> Result<Read, AllocError>
    ensures { IfOk result (λ r. read_of r ≡ leaf kind at) }
{
    let row = Row::new(alloc);
    let told = told_alone(alloc, &kind)?;
    Ok(Read {
        whole: row.whole(kind, at)?,
        told,
    })
}

/// The node with all its parts, which ends the level of names that it opened.
pub fn closed(alloc: Global, kind: Kind, body: Body, scope: &mut Scope) -> Result<Read, AllocError>
    ensures node { IfOk result (λ r. read_of r ≡ made kind body.from (trees_of body.row.list) (told_of body.told) scope.old.levels) }
    ensures scope { OnOk result (scope.new.levels ≡ leave kind scope.old.levels) }
{
    let Body { from, row, told } = body;
    let told = told_at_end(alloc, &kind, &row, told, scope)?;
    Ok(Read {
        whole: row.whole(kind, from)?,
        told,
    })
}

/// The place of a node's first token.
pub fn start_of(node: &Node) -> u32
    ensures { result ≡ start_of (tree_of node.now) }
{
    node.token
}
