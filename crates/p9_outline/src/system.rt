// The system calls, which every file knows.
ghost use Rattle.std.specs.Prelude.{◌≡◌, IfOk, codes};
ghost use Rattle.p9_lang.specs.Names.{same_name};
ghost use Rattle.p9_lang.specs.Types.{type_of, Pointer};
ghost use Rattle.p9_lang.specs.Scopes.{exits_type, transfer_type, system_type};

use p9_base::NoMemory;
use p9_lang::CType;
use sqlite_items::{Boxed, Items};
use std::alloc::Global;

#[tactic(auto, using(p9_types::proofs::Shapes::type_of_pointer))]
fn pointer_to(alloc: Global, ty: CType) -> Result<CType, NoMemory>
    ensures { IfOk result (λ t. type_of t ≡ Pointer (type_of ty)) }
{
    Ok(CType::Pointer(Boxed::new(alloc, ty)?))
}

#[tactic(auto, using(p9_types::proofs::Shapes::type_of_function, p9_types::proofs::Shapes::type_of_void, p9_types::proofs::Shapes::type_of_char))]
fn exits_type(alloc: Global) -> Result<CType, NoMemory>
    ensures { IfOk result (λ t. type_of t ≡ exits_type) }
{
    let mut parameters = Items::new(alloc);
    parameters.push(pointer_to(alloc, CType::Char)?)?;
    Ok(CType::Function(Boxed::new(alloc, CType::Void)?, parameters))
}

#[tactic(auto, using(p9_types::proofs::Shapes::type_of_function, p9_types::proofs::Shapes::type_of_void, p9_types::proofs::Shapes::type_of_int, p9_types::proofs::Shapes::type_of_long))]
fn transfer_type(alloc: Global) -> Result<CType, NoMemory>
    ensures { IfOk result (λ t. type_of t ≡ transfer_type) }
{
    let mut parameters = Items::new(alloc);
    parameters.push(CType::Int)?;
    parameters.push(pointer_to(alloc, CType::Void)?)?;
    parameters.push(CType::Long)?;
    Ok(CType::Function(Boxed::new(alloc, CType::Long)?, parameters))
}

#[tactic(auto, using(p9_numbering::proofs::Noting::same_bytes))]
fn is_exits(name: &[u8]) -> bool
    ensures { result ≡ same_name name.now (codes "exits") }
{
    name == b"exits".as_slice()
}

/// The type of the system call with this name.
pub(crate) fn system_type(alloc: Global, name: &[u8]) -> Result<CType, NoMemory>
    ensures { IfOk result (λ t. type_of t ≡ system_type name.now) }
{
    if is_exits(name) {
        return exits_type(alloc);
    }
    transfer_type(alloc)
}
