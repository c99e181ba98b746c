// The tree of a unit's tokens.
ghost use Rattle.std.specs.Prelude.{◌≡◌, ◌≤◌, reverse, IfOk, IfSome, IfNone, Some};
ghost use Rattle.p9_grammar.specs.Trees.{Trees, trees_of, height_in, nodes_in};
ghost use Rattle.p9_grammar.specs.Promise.{IsFile, IsRead, file_tokens};
ghost use Rattle.p9_terminal.specs.Terminals.{terminals};
ghost use Rattle.p9_tree_build.specs.Machines.{frame_of, stack_of};
ghost use Rattle.p9_tree_reader.specs.Reading.{state_of};
ghost use Rattle.p9_parse.specs.Units.{EndsInEnd, IfRefused, is_over, is_whole, is_file};

use p9_base::Name;
use p9_decl::{ParseFault, read_all};
use p9_grammar::Head;
use p9_lang::{Ident, Node, Tree};
use p9_lex::Tokens;
use p9_tree_build::{Body, Frame};
use p9_tree_reader::Reader;
use sqlite_items::Items;
use std::alloc::{AllocError, Global};

fn is_over(head: &Head) -> bool
    ensures { result ≡ is_over head.now }
{
    match head {
        Head::FileOver => true,
        _ => false,
    }
}

// Whether the open node is a file that has come to its end.
fn is_whole(frame: &Frame) -> bool
    ensures { result ≡ is_whole (frame_of frame.now) }
{
    match is_over(&frame.head) {
        true => frame.body.from == 0,
        false => false,
    }
}

#[tactic(auto, using(crate::proofs::Walking::not_alone))]
fn only_frame(frames: &[Frame]) -> bool
    ensures { result ≡ is_file (stack_of (reverse frames.now)) }
{
    match frames {
        [frame] => is_whole(frame),
        _ => false,
    }
}

fn items_of(frame: Frame) -> Items<Node>
    ensures { trees_of result ≡ (frame_of frame).parts }
{
    let Frame { head: _, body } = frame;
    let Body {
        from: _,
        row,
        told: _,
    } = body;
    row.list
}

// The items of a file that has come to its end.
fn finish(reader: Reader) -> Option<Items<Node>>
    ensures read { IfSome result (λ items. IsRead (trees_of items) (Some (state_of reader))) }
    ensures unread { IfNone result ((items : Trees) → IsRead items (Some (state_of reader)) → ⊥) }
{
    let Reader {
        mut stack,
        scope: _,
        at: _,
        last: _,
    } = reader;
    if !only_frame(stack.as_slice()) {
        return None;
    }
    match stack.pop() {
        Some(frame) => Some(items_of(frame)),
        None => None,
    }
}

fn marks(alloc: Global, names: &[Name]) -> Result<Items<Ident>, AllocError>
    ensures { IfOk result (λ marks. marks ≡ names.now) }
{
    let mut marks = Items::new(alloc);
    for name in names {
        marks.push(Ident {
            list: Vec::from_slice(alloc, name.list.as_slice())?,
        })?;
    }
    Ok(marks)
}

/// The one tree of a unit's tokens.
pub fn parse(alloc: Global, tokens: &Tokens) -> Result<Tree, ParseFault>
    requires { EndsInEnd tokens.now.list.items }
    ensures tree { IfOk result (λ tree. IsFile (trees_of tree.items)) }
    ensures text { IfOk result (λ tree. file_tokens (trees_of tree.items) ≡ terminals tokens.now.list.items) }
    ensures marks { IfOk result (λ tree. tree.marks ≡ tokens.now.marks.items) }
    ensures height { IfOk result (λ tree. height_in (trees_of tree.items) ≤ 100) }
    ensures nodes { IfOk result (λ tree. nodes_in (trees_of tree.items) ≤ 100000) }
    ensures refused { IfRefused tokens.now.list.items result }
{
    let first = Reader::of_file(alloc)?;
    let reader = match read_all(alloc, first, tokens.list.as_slice(), 0) {
        Ok(reader) => reader,
        Err(fault) => return Err(fault),
    };
    let Some(items) = finish(reader) else {
        unreachable!();
    };
    let marks = marks(alloc, tokens.marks.as_slice())?;
    Ok(Tree { items, marks })
}
