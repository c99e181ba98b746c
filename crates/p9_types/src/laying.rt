// Layouts of types.
ghost use Rattle.std.specs.Prelude.{◌≡◌, ◌<◌, ◌≤◌, Some, None, Err, IfOk, IsSomeAnd};
ghost use Rattle.p9_lang.specs.Types.{type_of, tags_of};
ghost use Rattle.p9_lang.specs.Layout.{layout, size_limit};
ghost use Rattle.p9_lang.specs.TagRules.{NoneContainsItself};
ghost use Rattle.p9_types.specs.declared.fault.TypeFault.TheVariants.{Incomplete, BadConstant};

use crate::fault::TypeFault;
use crate::known::KnownTags;
use crate::layouts::Layout;
use crate::reaching::extent_within;
use p9_lang::{CType, Tags};
use std::alloc::Global;

// The most bytes that a type may have.
const LIMIT: u32 = 16_777_216;

/// The layout of a type over these structures and unions.
pub fn layout(alloc: Global, ty: &CType, tags: &Tags) -> Result<Layout, TypeFault>
    requires { NoneContainsItself (tags_of tags.now.list) }
    ensures layout { IfOk result (λ l. layout (tags_of tags.now.list) (type_of ty.now)
        ≡ Some (record { size = l.size; align = l.align })) }
    ensures within { IfOk result (λ l. l.size ≤ size_limit) }
    ensures incomplete { result ≡ Err Incomplete
        → layout (tags_of tags.now.list) (type_of ty.now) ≡ None }
    ensures too_large { result ≡ Err BadConstant
        → IsSomeAnd (layout (tags_of tags.now.list) (type_of ty.now)) (λ e. size_limit < e.size) }
{
    let mut known = KnownTags::new(alloc);
    match extent_within(alloc, &mut known, ty, tags.list.as_slice())? {
        None => Err(TypeFault::Incomplete),
        Some(extent) => {
            if extent.size > LIMIT {
                return Err(TypeFault::BadConstant);
            }
            Ok(Layout {
                size: extent.size,
                align: extent.align,
            })
        }
    }
}
