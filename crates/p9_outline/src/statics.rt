// The names of file scope that are declared static.
ghost use Rattle.std.specs.Prelude.{◌≡◌, ℕ, List, IfOk};
ghost use Rattle.p9_lang.specs.Names.{is_among};
ghost use Rattle.p9_outline.specs.Held.{has_name};

use crate::names::NameSet;
use p9_base::NoMemory;
use p9_lang::Ident;
use std::alloc::Global;

/// These names as a set.
#[tactic(auto, using(crate::proofs::Sets::name_passed, crate::proofs::Sets::none_left))]
pub(crate) fn set_of<'a>(alloc: Global, names: &'a [Ident]) -> Result<NameSet<'a>, NoMemory>
    ensures { IfOk result (λ s. (q : List ℕ) → has_name s.set.keys q ≡ is_among names.now q) }
{
    let mut set = NameSet::new(alloc);
    let mut rest = names;
    'names: while let [name, after @ ..] = rest {
        set.add(name.list.as_slice())?;
        rest = after;
    }
    Ok(set)
}
