// The names that a file declares static.
ghost use Rattle.std.specs.Prelude.{◌≡◌, ◌&&◌, ◌∷◌, ◌++◌, [], List, not, IfOk};
ghost use Rattle.p9_lang.specs.Declarators.{is_outer};
ghost use Rattle.p9_lang.specs.Files.{static_names};
ghost use Rattle.p9_lang.specs.Names.{is_among};
ghost use Rattle.p9_lang.specs.Types.{meant};
ghost use Rattle.p9_lang.specs.Scopes as scopes;
ghost use Rattle.p9_scopes.specs.Seen.{declared_of, level_of};

use p9_base::NoMemory;
use p9_lang::Bind;
use p9_scopes::{Declared, Names};
use std::alloc::Global;

fn is_outer(means: &Bind) -> bool
    ensures { result ≡ is_outer (meant means.now) }
{
    match means {
        Bind::Outer(_) => true,
        Bind::Nothing | Bind::Static(_) | Bind::Auto(_) | Bind::EnumValue(_) | Bind::TypeName(_) =>
            false,
    }
}

// Whether a name is static and not among these yet.
fn is_new(alloc: Global, so_far: &Names, declared: &Declared) -> Result<bool, NoMemory>
    ensures { IfOk result (λ new. new
        ≡ (declared.now.is_static && (is_outer (meant declared.now.means) && not (is_among so_far.now declared.now.name)))) }
{
    if !declared.is_static {
        return Ok(false);
    }
    if !is_outer(&declared.means) {
        return Ok(false);
    }
    let has = so_far.has(alloc, &declared.name)?;
    Ok(!has)
}

// The names with the one of a declaration, if it is static and new.
#[tactic(auto, using(crate::proofs::StaticNames::old_static))]
fn with_static(alloc: Global, names: Names, declared: &Declared) -> Result<Names, NoMemory>
    ensures { IfOk result (λ more. (after : List scopes.Declared)
        → more ++ static_names more after ≡ names ++ static_names names (declared_of declared.now ∷ after)) }
{
    if is_new(alloc, &names, declared)? {
        let more = names.with(alloc, declared.name.copied(alloc)?)?;
        return Ok(more);
    }
    Ok(names)
}

/// The names that are declared static, each once, by their first declarations.
pub(crate) fn static_names(alloc: Global, level: &[Declared]) -> Result<Names, NoMemory>
    ensures { IfOk result (λ names. names ≡ static_names [] (level_of level.now)) }
{
    let mut names = Names::new(alloc);
    let mut rest = level;
    'names: while let [declared, after @ ..] = rest {
        names = with_static(alloc, names, declared)?;
        rest = after;
    }
    Ok(names)
}
