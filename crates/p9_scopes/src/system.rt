// The system calls, which every file knows.
ghost use Rattle.std.specs.Prelude.{◌≡◌, codes, IfOk, OnOk};
ghost use Rattle.p9_lang.specs.Types.{type_of, Pointer};
ghost use Rattle.p9_lang.specs.Scopes.{exits_type, transfer_type, outer, system_level};
ghost use Rattle.p9_scopes.specs.Seen.{declared_of, level_of};

use crate::declared::Declared;
use crate::level::NameLevel;
use p9_base::NoMemory;
use p9_lang::{Bind, CType, Ident};
use sqlite_items::{Boxed, Items};
use std::alloc::Global;

#[tactic(auto, using(p9_types::proofs::Shapes::type_of_pointer))]
fn pointer_to(alloc: Global, ty: CType) -> Result<CType, NoMemory>
    ensures { IfOk result (λ t. type_of t ≡ Pointer (type_of ty)) }
{
    Ok(CType::Pointer(Boxed::new(alloc, ty)?))
}

#[tactic(auto, using(p9_types::proofs::Shapes::type_of_function, p9_types::proofs::Shapes::type_of_void, p9_types::proofs::Shapes::type_of_char))]
fn exits_type(alloc: Global) -> Result<CType, NoMemory>
    ensures { IfOk result (λ t. type_of t ≡ exits_type) }
{
    let mut parameters = Items::new(alloc);
    parameters.push(pointer_to(alloc, CType::Char)?)?;
    Ok(CType::Function(Boxed::new(alloc, CType::Void)?, parameters))
}

#[tactic(auto, using(p9_types::proofs::Shapes::type_of_function, p9_types::proofs::Shapes::type_of_void, p9_types::proofs::Shapes::type_of_int, p9_types::proofs::Shapes::type_of_long))]
fn transfer_type(alloc: Global) -> Result<CType, NoMemory>
    ensures { IfOk result (λ t. type_of t ≡ transfer_type) }
{
    let mut parameters = Items::new(alloc);
    parameters.push(CType::Int)?;
    parameters.push(pointer_to(alloc, CType::Void)?)?;
    parameters.push(CType::Long)?;
    Ok(CType::Function(Boxed::new(alloc, CType::Long)?, parameters))
}

fn outer(alloc: Global, name: &[u8], ty: CType) -> Result<Declared, NoMemory>
    ensures { IfOk result (λ d. declared_of d ≡ outer name.now (type_of ty)) }
{
    Ok(Declared {
        name: Ident {
            list: Vec::from_slice(alloc, name)?,
        },
        ty,
        means: Bind::Outer(Ident {
            list: Vec::from_slice(alloc, name)?,
        }),
        is_static: false,
        is_filled: false,
    })
}

/// The level of a file before its first item.
pub(crate) fn system_level(alloc: Global) -> Result<NameLevel, NoMemory>
    ensures { IfOk result (λ level. level_of level ≡ system_level) }
{
    let exits = outer(alloc, b"exits", exits_type(alloc)?)?;
    let read = outer(alloc, b"read", transfer_type(alloc)?)?;
    let write = outer(alloc, b"write", transfer_type(alloc)?)?;
    let mut level = NameLevel::new(alloc);
    level = level.declared(alloc, write)?;
    level = level.declared(alloc, read)?;
    level = level.declared(alloc, exits)?;
    Ok(level)
}
