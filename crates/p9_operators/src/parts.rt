// Trees that are known.
ghost use Rattle.std.specs.Prelude.{◌≡◌};
ghost use Rattle.p9_tree.specs.Trees.{tree_of};
ghost use Rattle.p9_operators.specs.Parts.{number_in, symbol_in};

use p9_tree::TTree;

/// The number that a tree is.
#[tactic(auto, using(crate::proofs::Shapes::tree_shapes))]
pub(crate) fn number_in(tree: &TTree) -> Option<u32>
    ensures { result ≡ number_in (tree_of tree.now) }
{
    match tree {
        TTree::Const(word) => Some(*word),
        TTree::Addr(..)
        | TTree::Auto(_)
        | TTree::Load(..)
        | TTree::Store(..)
        | TTree::Update(..)
        | TTree::Copy(..)
        | TTree::Un(..)
        | TTree::Bin(..)
        | TTree::Conv(..)
        | TTree::Choose(..)
        | TTree::Both(..)
        | TTree::Step(..)
        | TTree::Seq(..)
        | TTree::Call(..) => None,
    }
}

/// The symbol whose address a tree is, and by how much that is moved.
#[tactic(auto, using(crate::proofs::Shapes::tree_shapes))]
pub(crate) fn symbol_in(tree: &TTree) -> Option<(u32, u32)>
    ensures { result ≡ symbol_in (tree_of tree.now) }
{
    match tree {
        TTree::Addr(symbol, offset) => Some((*symbol, *offset)),
        TTree::Const(_)
        | TTree::Auto(_)
        | TTree::Load(..)
        | TTree::Store(..)
        | TTree::Update(..)
        | TTree::Copy(..)
        | TTree::Un(..)
        | TTree::Bin(..)
        | TTree::Conv(..)
        | TTree::Choose(..)
        | TTree::Both(..)
        | TTree::Step(..)
        | TTree::Seq(..)
        | TTree::Call(..) => None,
    }
}
