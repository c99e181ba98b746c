// What lvalues are worth, by their addresses.
ghost use Rattle.std.specs.Prelude.{◌≡◌, IfOk};
ghost use Rattle.p9_lang.specs.Types.{type_of};
ghost use Rattle.p9_tree.specs.Trees.{tree_of};
ghost use Rattle.p9_lower.specs.Operators.{content_tree, read_tree};
ghost use Rattle.p9_operators.specs.Contents.{told_content};

use crate::content::{Content, content_of};
use crate::making::load;
use crate::widths::width_of;
use p9_base::NoMemory;
use p9_lang::CType;
use p9_tree::{TTree, Width};
use std::alloc::Global;

// What an object at an address is worth, by what it holds.
fn content_tree(
    alloc: Global,
    content: Content,
    width: Width,
    address: TTree,
) -> Result<TTree, NoMemory>
    ensures { IfOk result (λ t. tree_of t ≡ content_tree (told_content content) width (tree_of address)) }
{
    match content {
        Content::Integer | Content::Reference => {
            let value = load(alloc, width, address)?;
            Ok(value)
        }
        Content::Aggregate | Content::Nothing => Ok(address),
    }
}

/// What an lvalue of a type is worth, by its address. Arrays, functions and structures aren't read: their
/// addresses stand for them.
pub fn read_tree(alloc: Global, ty: &CType, address: TTree) -> Result<TTree, NoMemory>
    ensures { IfOk result (λ t. tree_of t ≡ read_tree (type_of ty.now) (tree_of address)) }
{
    let value = content_tree(alloc, content_of(ty), width_of(ty), address)?;
    Ok(value)
}
