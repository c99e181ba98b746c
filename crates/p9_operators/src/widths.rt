// Widths of types, and the low bits of words.
ghost use Rattle.std.specs.Prelude.{◌≡◌, IfOk};
ghost use Rattle.p9_lang.specs.Types.{type_of};
ghost use Rattle.p9_tree.specs.Trees.{tree_of};
ghost use Rattle.p9_lower.specs.Operators.{width_of, narrowed_tree};

use crate::making::conv;
use p9_base::NoMemory;
use p9_lang::CType;
use p9_tree::{TTree, Width};
use std::alloc::Global;

/// How many bits of a type's value are read and stored; a word where it is neither.
#[tactic(auto, using(p9_types::proofs::Shapes::shapes))]
pub fn width_of(ty: &CType) -> Width
    ensures { result ≡ width_of (type_of ty.now) }
{
    match ty {
        CType::Char => Width::S8,
        CType::UChar => Width::U8,
        CType::Short => Width::S16,
        CType::UShort => Width::U16,
        CType::Void
        | CType::Int
        | CType::UInt
        | CType::Long
        | CType::ULong
        | CType::Pointer(_)
        | CType::Array(..)
        | CType::Function(..)
        | CType::Tagged(_) => Width::W32,
    }
}

/// The low bits of a word, widened.
pub fn narrowed_tree(alloc: Global, width: Width, tree: TTree) -> Result<TTree, NoMemory>
    ensures { IfOk result (λ t. tree_of t ≡ narrowed_tree width (tree_of tree)) }
{
    match width {
        Width::S8 | Width::U8 | Width::S16 | Width::U16 => {
            let narrow = conv(alloc, width, tree)?;
            Ok(narrow)
        }
        Width::W32 => Ok(tree),
    }
}
