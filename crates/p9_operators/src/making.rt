// Trees of one node more.
ghost use Rattle.std.specs.Prelude.{◌≡◌, IfOk};
ghost use Rattle.p9_tree.specs.Trees as trees;
ghost use Rattle.p9_tree.specs.Trees.{tree_of};

use p9_base::NoMemory;
use p9_tree::{BinOp, TTree, Width};
use sqlite_items::Boxed;
use std::alloc::Global;

#[tactic(auto, using(crate::proofs::Shapes::tree_shapes))]
pub(crate) fn load(alloc: Global, width: Width, from: TTree) -> Result<TTree, NoMemory>
    ensures { IfOk result (λ t. tree_of t ≡ trees.Load width (tree_of from)) }
{
    Ok(TTree::Load(width, Boxed::new(alloc, from)?))
}

#[tactic(auto, using(crate::proofs::Shapes::tree_shapes))]
pub(crate) fn store(alloc: Global, width: Width, to: TTree, value: TTree) -> Result<TTree, NoMemory>
    ensures { IfOk result (λ t. tree_of t ≡ trees.Store width (tree_of to) (tree_of value)) }
{
    let to = Boxed::new(alloc, to)?;
    let value = Boxed::new(alloc, value)?;
    Ok(TTree::Store(width, to, value))
}

#[tactic(auto, using(crate::proofs::Shapes::tree_shapes))]
pub(crate) fn update(
    alloc: Global,
    width: Width,
    op: BinOp,
    to: TTree,
    right: TTree,
) -> Result<TTree, NoMemory>
    ensures { IfOk result (λ t. tree_of t ≡ trees.Update width op (tree_of to) (tree_of right)) }
{
    let to = Boxed::new(alloc, to)?;
    let right = Boxed::new(alloc, right)?;
    Ok(TTree::Update(width, op, to, right))
}

#[tactic(auto, using(crate::proofs::Shapes::tree_shapes))]
pub(crate) fn copy(alloc: Global, bytes: u32, to: TTree, from: TTree) -> Result<TTree, NoMemory>
    ensures { IfOk result (λ t. tree_of t ≡ trees.Copy bytes (tree_of to) (tree_of from)) }
{
    let to = Boxed::new(alloc, to)?;
    let from = Boxed::new(alloc, from)?;
    Ok(TTree::Copy(bytes, to, from))
}

#[tactic(auto, using(crate::proofs::Shapes::tree_shapes))]
pub(crate) fn two(alloc: Global, op: BinOp, left: TTree, right: TTree) -> Result<TTree, NoMemory>
    ensures { IfOk result (λ t. tree_of t ≡ trees.Bin op (tree_of left) (tree_of right)) }
{
    let left = Boxed::new(alloc, left)?;
    let right = Boxed::new(alloc, right)?;
    Ok(TTree::Bin(op, left, right))
}

#[tactic(auto, using(crate::proofs::Shapes::tree_shapes))]
pub(crate) fn conv(alloc: Global, width: Width, operand: TTree) -> Result<TTree, NoMemory>
    ensures { IfOk result (λ t. tree_of t ≡ trees.Conv width (tree_of operand)) }
{
    Ok(TTree::Conv(width, Boxed::new(alloc, operand)?))
}

#[tactic(auto, using(crate::proofs::Shapes::tree_shapes))]
pub(crate) fn number(word: u32) -> TTree
    ensures { tree_of result ≡ trees.Const word }
{
    TTree::Const(word)
}

#[tactic(auto, using(crate::proofs::Shapes::tree_shapes))]
pub(crate) fn address(symbol: u32, offset: u32) -> TTree
    ensures { tree_of result ≡ trees.Addr symbol offset }
{
    TTree::Addr(symbol, offset)
}
