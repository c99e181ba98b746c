// Names in their order.
ghost use Rattle.std.specs.Prelude.{◌≡◌, IfOk};

use p9_base::NoMemory;
use p9_lang::Ident;
use p9_scopes::Names;
use std::alloc::Global;

/// These names.
pub(crate) fn all_names(alloc: Global, list: &[Ident]) -> Result<Names, NoMemory>
    ensures { IfOk result (λ names. names ≡ list.now) }
{
    let mut names = Names::new(alloc);
    let mut rest = list;
    'names: while let [name, after @ ..] = rest {
        names = names.with(alloc, name.copied(alloc)?)?;
        rest = after;
    }
    Ok(names)
}
