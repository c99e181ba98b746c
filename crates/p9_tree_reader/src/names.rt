// The levels of names that nodes open, and the names that parts declare.
ghost use Rattle.std.specs.Prelude.{◌≡◌, OnOk};
ghost use Rattle.p9_grammar.specs.Scopes.{add};
ghost use Rattle.p9_grammar.specs.Machine.{enters, opens, role};
ghost use Rattle.p9_tree_build.specs.Machines.{told_of};

use p9_grammar::Head;
use p9_tree_build::{Level, Scope, Told};
use p9_tree_moves::declares;
use std::alloc::{AllocError, Global};

/// The level that a node opens with its first tokens.
pub fn enter(alloc: Global, scope: &mut Scope, head: &Head) -> Result<(), AllocError>
    ensures { OnOk result (scope.new.levels ≡ enters head.now scope.old.levels) }
{
    match head {
        Head::BlockItems | Head::ParamsStart(_) => scope.enter(Level::new(alloc)),
        _ => Ok(()),
    }
}

/// The level that a function opens before its block.
pub fn open_level(
    alloc: Global,
    scope: &mut Scope,
    head: &Head,
    told: &Told,
) -> Result<(), AllocError>
    ensures { OnOk result (scope.new.levels ≡ opens head.now (told_of told.now) scope.old.levels) }
{
    match head {
        Head::FunctionBody(_) | Head::HeadOver(_) => scope.enter(told.level.copied(alloc)?),
        _ => Ok(()),
    }
}

/// Declares what a part declares in an open node.
pub fn declare_part(
    alloc: Global,
    scope: &mut Scope,
    head: &Head,
    told: &Told,
) -> Result<(), AllocError>
    ensures { OnOk result (scope.new.levels ≡ add (role head.now) (told_of told.now) scope.old.levels) }
{
    match declares(head) {
        Some(is_type) => match &told.name {
            Some(name) => scope.declare(alloc, name.copied(alloc)?, is_type),
            None => Ok(()),
        },
        None => Ok(()),
    }
}
