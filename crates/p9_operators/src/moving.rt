// Addresses that are moved, and numbers of bytes and of elements.
ghost use Rattle.std.specs.Prelude.{◌≡◌, IfOk};
ghost use Rattle.p9_tree.specs.Trees.{tree_of};
ghost use Rattle.p9_lower.specs.Operators.{moved_tree, scaled_tree, forward_tree, divided_tree, inner_tree};

use crate::making::{address as address_of, number, two};
use crate::parts::{number_in, symbol_in};
use p9_base::{NoMemory, word_product, word_sum};
use p9_tree::{BinOp, TTree};
use std::alloc::Global;

/// An address that is moved by so many bytes. That of a symbol, moved by a constant, is known.
pub fn moved_tree(alloc: Global, address: TTree, bytes: TTree) -> Result<TTree, NoMemory>
    ensures { IfOk result (λ t. tree_of t ≡ moved_tree (tree_of address) (tree_of bytes)) }
{
    if let Some((symbol, offset)) = symbol_in(&address) {
        if let Some(by) = number_in(&bytes) {
            return Ok(address_of(symbol, word_sum(offset, by)));
        }
    }
    let moved = two(alloc, BinOp::Add, address, bytes)?;
    Ok(moved)
}

/// The bytes of so many elements of a size.
pub fn scaled_tree(alloc: Global, size: u32, count: TTree) -> Result<TTree, NoMemory>
    ensures { IfOk result (λ t. tree_of t ≡ scaled_tree size (tree_of count)) }
{
    if let Some(count) = number_in(&count) {
        return Ok(number(word_product(count, size)));
    }
    let bytes = two(alloc, BinOp::Mul, count, number(size))?;
    Ok(bytes)
}

/// By how many bytes so many elements of a size move an address.
pub fn forward_tree(alloc: Global, size: u32, count: TTree) -> Result<TTree, NoMemory>
    ensures { IfOk result (λ t. tree_of t ≡ forward_tree size (tree_of count)) }
{
    if size == 1 {
        return Ok(count);
    }
    let bytes = scaled_tree(alloc, size, count)?;
    Ok(bytes)
}

/// The elements of a size in so many bytes.
pub fn divided_tree(alloc: Global, size: u32, bytes: TTree) -> Result<TTree, NoMemory>
    ensures { IfOk result (λ t. tree_of t ≡ divided_tree size (tree_of bytes)) }
{
    if size == 1 {
        return Ok(bytes);
    }
    let elements = two(alloc, BinOp::Div, bytes, number(size))?;
    Ok(elements)
}

/// The address of a member or a substructure at an offset, which may be none.
pub fn inner_tree(alloc: Global, offset: Option<u32>, address: TTree) -> Result<TTree, NoMemory>
    ensures { IfOk result (λ t. tree_of t ≡ inner_tree offset (tree_of address)) }
{
    match offset {
        None => Ok(address),
        Some(offset) => {
            let inner = moved_tree(alloc, address, number(offset))?;
            Ok(inner)
        }
    }
}
