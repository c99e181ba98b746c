// Sizes of types as numbers.
ghost use Rattle.std.specs.Prelude.{◌≡◌, IfOk};
ghost use Rattle.p9_lang.specs.Types.{type_of, tags_of};
ghost use Rattle.p9_lang.specs.TagRules.{NoneContainsItself};
ghost use Rattle.p9_lang.specs.Layout.{size_of};

use p9_base::NoMemory;
use p9_lang::{CType, Tags};
use p9_types::{TypeFault, layout};
use std::alloc::Global;

/// How many bytes an object of a type has; 0 where the type is incomplete. One past the limit of all sizes
/// is answered by want of memory.
pub fn size_of(alloc: Global, ty: &CType, tags: &Tags) -> Result<u32, NoMemory>
    requires { NoneContainsItself (tags_of tags.now.list) }
    ensures { IfOk result (λ size. size ≡ size_of (tags_of tags.now.list) (type_of ty.now)) }
{
    match layout(alloc, ty, tags) {
        Ok(extent) => Ok(extent.size),
        Err(TypeFault::Incomplete) => Ok(0),
        Err(TypeFault::BadConstant) | Err(TypeFault::Memory) => Err(NoMemory),
    }
}
