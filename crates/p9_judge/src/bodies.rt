// The functions that have bodies.
ghost use Rattle.std.specs.Prelude.{◌≡◌, ◌++◌, [], IfOk};
ghost use Rattle.std.specs.Option.{option_map, option_copied};
ghost use Rattle.p9_lang.specs.Files.{declarator_name, function_name, body_name, names_with_bodies};
ghost use Rattle.p9_lang.specs.Trees.{syntax_of, row_of};
ghost use Rattle.p9_judge.specs.Bodies.{own_name, is_function};

use p9_base::NoMemory;
use p9_lang::{Ident, Kind, Node};
use p9_opening::is_declarator;
use p9_scopes::Names;
use std::alloc::Global;

// The name that a node of this kind is.
fn own_name(kind: &Kind) -> Option<&Ident>
    ensures { option_copied result ≡ own_name kind.now }
{
    match kind {
        Kind::DeclName(name) => Some(name),
        _ => None,
    }
}

fn is_function(kind: &Kind) -> bool
    ensures { result ≡ is_function kind.now }
{
    match kind {
        Kind::Function { .. } => true,
        _ => false,
    }
}

fn nameless(alloc: Global) -> Ident
    ensures { result ≡ [] }
{
    Ident {
        list: Vec::new(alloc),
    }
}

#[tactic(auto, using(crate::proofs::BodyNames::named_here, crate::proofs::BodyNames::named_inside, crate::proofs::BodyNames::named_nowhere, crate::proofs::Nodes::part_smaller))]
fn declarator_name(alloc: Global, node: &Node) -> Result<Ident, NoMemory>
    ensures { IfOk result (λ name. name ≡ declarator_name (syntax_of node.now)) }
{
    let mut inner = node;
    'inwards: loop {
        if let Some(name) = own_name(&inner.kind) {
            return Ok(name.copied(alloc)?);
        }
        let [first, ..] = inner.parts.as_slice() else {
            return Ok(nameless(alloc));
        };
        inner = first;
    }
}

#[tactic(auto, using(crate::proofs::BodyNames::declarator_here, crate::proofs::BodyNames::declarator_behind))]
fn function_name(alloc: Global, parts: &[Node]) -> Result<Ident, NoMemory>
    ensures { IfOk result (λ name. name ≡ function_name (row_of parts.now)) }
{
    let mut rest = parts;
    'parts: while let [part, after @ ..] = rest {
        if is_declarator(&part.kind) {
            let name = declarator_name(alloc, part)?;
            return Ok(name);
        }
        rest = after;
    }
    Ok(nameless(alloc))
}

#[tactic(auto, using(crate::proofs::BodyNames::body_there, crate::proofs::BodyNames::no_body))]
fn with_body(alloc: Global, names: Names, item: &Node) -> Result<Names, NoMemory>
    ensures { IfOk result (λ more. more ≡ names ++ body_name (syntax_of item.now)) }
{
    if is_function(&item.kind) {
        let name = function_name(alloc, item.parts.as_slice())?;
        let more = names.with(alloc, name)?;
        return Ok(more);
    }
    Ok(names)
}

/// The names of the functions that have bodies.
pub(crate) fn names_with_bodies(alloc: Global, items: &[Node]) -> Result<Names, NoMemory>
    ensures { IfOk result (λ names. names ≡ names_with_bodies (row_of items.now)) }
{
    let mut names = Names::new(alloc);
    let mut rest = items;
    'items: while let [item, after @ ..] = rest {
        names = with_body(alloc, names, item)?;
        rest = after;
    }
    Ok(names)
}
