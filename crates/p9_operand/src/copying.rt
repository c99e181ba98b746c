// Copies of types.
ghost use Rattle.std.specs.Prelude.{◌≡◌, IfOk};

use p9_base::NoMemory;
use p9_lang::CType;
use sqlite_items::{Boxed, Items};
use std::alloc::Global;

// Types that are nested more deeply are answered by want of memory: the stack is memory too.
const LEVELS: u32 = 10_000;

/// Another type like it. One that is nested more than 10,000 levels deep is answered by want of
/// memory.
pub fn copied(alloc: Global, ty: &CType) -> Result<CType, NoMemory>
    ensures { IfOk result (λ t. t ≡ ty.now) }
{
    copied_within(alloc, ty, LEVELS)
}

#[cycle(copied_within)]
fn boxed_within(alloc: Global, ty: &CType, levels: u32) -> Result<Boxed<CType>, NoMemory>
    ensures { IfOk result (λ t. t ≡ ty.now) }
{
    let copy = copied_within(alloc, ty, levels)?;
    Ok(Boxed::new(alloc, copy)?)
}

#[cycle(copied_within)]
fn all_within(alloc: Global, types: &[CType], levels: u32) -> Result<Items<CType>, NoMemory>
    ensures { IfOk result (λ ts. ts ≡ types.now) }
{
    let mut copies = Items::new(alloc);
    'each: for ty in types {
        copies.push(copied_within(alloc, ty, levels)?)?;
    }
    Ok(copies)
}

#[cycle(copied_within)]
fn copied_within(alloc: Global, ty: &CType, levels: u32) -> Result<CType, NoMemory>
    ensures { IfOk result (λ t. t ≡ ty.now) }
{
    if levels == 0 {
        return Err(NoMemory);
    }
    let inner = levels - 1;
    match ty {
        CType::Void => Ok(CType::Void),
        CType::Char => Ok(CType::Char),
        CType::UChar => Ok(CType::UChar),
        CType::Short => Ok(CType::Short),
        CType::UShort => Ok(CType::UShort),
        CType::Int => Ok(CType::Int),
        CType::UInt => Ok(CType::UInt),
        CType::Long => Ok(CType::Long),
        CType::ULong => Ok(CType::ULong),
        CType::Pointer(target) => Ok(CType::Pointer(boxed_within(alloc, target.get(), inner)?)),
        CType::Array(element, count) => Ok(CType::Array(
            boxed_within(alloc, element.get(), inner)?,
            *count,
        )),
        CType::Function(result_type, parameters) => {
            let result_type = boxed_within(alloc, result_type.get(), inner)?;
            let parameters = all_within(alloc, parameters.as_slice(), inner)?;
            Ok(CType::Function(result_type, parameters))
        }
        CType::Tagged(number) => Ok(CType::Tagged(*number)),
    }
}
