// What a declarator tells: its name, and the names that the parameter list next to it declares.
ghost use Rattle.std.specs.Prelude.{◌≡◌, [], IfOk, OnOk};
ghost use Rattle.p9_grammar.specs.Trees.{tree_of, trees_of, none};
ghost use Rattle.p9_grammar.specs.Scopes.{is_name, nothing, listing, tells, leave, innermost};
ghost use Rattle.p9_tree_build.specs.Machines.{told_of, is_next_to_name, through_star};

use crate::{Level, Row, Scope};
use p9_lang::{Ident, Kind, Node};
use std::alloc::{AllocError, Global};

/// What a declarator tells.
#[derive(Drop)]
pub struct Told {
    pub name: Option<Ident>,
    pub level: Level,
}

pub fn nothing_told(alloc: Global) -> Told
    ensures { told_of result ≡ nothing }
{
    Told {
        name: None,
        level: Level::new(alloc),
    }
}

/// Whether a declarator is a name, maybe in parentheses.
pub fn is_name(node: &Node) -> bool
    ensures { result ≡ is_name (tree_of node.now) }
{
    let mut inner = node;
    loop {
        match &inner.kind {
            Kind::DeclName(_) => return true,
            Kind::DeclParens => match inner.parts.as_slice() {
                [first, ..] => inner = first,
                [] => return false,
            },
            _ => return false,
        }
    }
}

fn is_next_to_name(list: &[Node]) -> bool
    ensures { result ≡ is_next_to_name (trees_of list.now) }
{
    match list {
        [first, ..] => is_name(first),
        [] => false,
    }
}

// The parameter list of a function is the one next to its name.
#[tactic(auto, using(crate::proofs::Naming::listing_next, crate::proofs::Naming::listing_later))]
fn list(row: &Row, told: Told, level: Level) -> Told
    ensures { told_of result ≡ listing (trees_of row.now.list) (told_of told) level }
{
    if is_next_to_name(row.list.as_slice()) {
        return Told {
            name: told.name,
            level,
        };
    }
    told
}

// A star with nothing behind it has no name.
fn through_star(alloc: Global, row: &Row, told: Told) -> Told
    ensures { told_of result ≡ through_star (trees_of row.now.list) (told_of told) }
{
    match row.list.as_slice() {
        [_, ..] => told,
        [] => nothing_told(alloc),
    }
}

/// What a node of this kind tells at its end, where its level of names ends with it.
#[tactic(auto, using(crate::proofs::Naming::star_tells))]
pub fn told_at_end(
    alloc: Global,
    kind: &Kind,
    row: &Row,
    told: Told,
    scope: &mut Scope,
) -> Result<Told, AllocError>
    ensures told { IfOk result (λ t. told_of t ≡ tells kind.now (trees_of row.now.list) (told_of told) (innermost scope.old.levels)) }
    ensures scope { OnOk result (scope.new.levels ≡ leave kind.now scope.old.levels) }
{
    match kind {
        Kind::DeclName(name) => Ok(Told {
            name: Some(name.copied(alloc)?),
            level: Level::new(alloc),
        }),
        Kind::Star { volatiles: _ } => Ok(through_star(alloc, row, told)),
        Kind::DeclParens => Ok(told),
        Kind::Brackets { inner, sized: _ } => Ok(if *inner { told } else { nothing_told(alloc) }),
        Kind::Params {
            inner,
            void_word: _,
        } => {
            let level = scope.leave(alloc);
            Ok(if *inner {
                list(row, told, level)
            } else {
                nothing_told(alloc)
            })
        }
        Kind::Block => {
            let _names = scope.leave(alloc);
            Ok(nothing_told(alloc))
        }
        Kind::Function { spec: _ } => {
            let _names = scope.leave(alloc);
            Ok(nothing_told(alloc))
        }
        Kind::EnumConst { name, valued: _ } => {
            scope.declare(alloc, name.copied(alloc)?, false)?;
            Ok(nothing_told(alloc))
        }
        _ => Ok(nothing_told(alloc)),
    }
}

/// What a node without parts tells.
pub fn told_alone(alloc: Global, kind: &Kind) -> Result<Told, AllocError>
    ensures { IfOk result (λ t. told_of t ≡ tells kind.now none nothing []) }
{
    match kind {
        Kind::DeclName(name) => Ok(Told {
            name: Some(name.copied(alloc)?),
            level: Level::new(alloc),
        }),
        _ => Ok(nothing_told(alloc)),
    }
}
