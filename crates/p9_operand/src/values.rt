// Types of operands' values.
ghost use Rattle.std.specs.Prelude.{◌≡◌, IfOk};
ghost use Rattle.p9_lang.specs.Types.{Pointer, type_of};
ghost use Rattle.p9_lang.specs.Conversions.{decayed};
ghost use Rattle.p9_operand.specs.Values.{type_in};

use crate::copying::copied;
use crate::kinds::is_function;
use p9_base::NoMemory;
use p9_lang::CType;
use p9_types::array_elements;
use sqlite_items::Boxed;
use std::alloc::Global;

/// The type of an operand's value: its own, or the pointer that an array or a function becomes.
#[derive(Drop)]
pub enum ValueType<'a> {
    Own(&'a CType),
    Pointer(CType),
}

impl<'a> ValueType<'a> {
    /// The type itself.
    pub fn get(&self) -> &CType
        ensures { type_of result.now ≡ type_in self.now }
    {
        match self {
            ValueType::Own(ty) => ty,
            ValueType::Pointer(ty) => ty,
        }
    }
}

#[tactic(auto, using(p9_types::proofs::Shapes::shapes))]
fn pointer_to(alloc: Global, target: &CType) -> Result<CType, NoMemory>
    ensures { IfOk result (λ t. type_of t ≡ Pointer (type_of target.now)) }
{
    let target = copied(alloc, target)?;
    Ok(CType::Pointer(Boxed::new(alloc, target)?))
}

/// The type of an operand's value.
pub fn value_type<'a>(alloc: Global, ty: &'a CType) -> Result<ValueType<'a>, NoMemory>
    ensures { IfOk result (λ t. type_in t ≡ decayed (type_of ty.now)) }
{
    if let Some(elements) = array_elements(ty) {
        return Ok(ValueType::Pointer(pointer_to(alloc, elements.ty)?));
    }
    if is_function(ty) {
        return Ok(ValueType::Pointer(pointer_to(alloc, ty)?));
    }
    Ok(ValueType::Own(ty))
}
