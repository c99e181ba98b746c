// The names of file scope that occur in expressions.
ghost use Rattle.std.specs.Prelude.{◌≡◌, ◌||◌, ℕ, List, OnOk, IfOk};
ghost use Rattle.p9_lang.specs.Types.{meant};
ghost use Rattle.p9_lang.specs.Names.{is_among};
ghost use Rattle.p9_lang.specs.Symbols.{use_at, uses_in_row};
ghost use Rattle.p9_nodes.specs.Nodes.{row_in};
ghost use Rattle.p9_outline.specs.Held.{has_name, told_name, outer_names, is_use};

use crate::names::NameSet;
use p9_base::NoMemory;
use p9_lang::{Bind, Ident, Kind};
use p9_nodes::{LEVELS, NodeRow, Source, TypedNode, split};
use std::alloc::Global;

fn is_use(kind: &Kind) -> bool
    ensures { result ≡ is_use kind.now }
{
    match kind {
        Kind::Name(_) => true,
        Kind::Declaration { .. }
        | Kind::Function { .. }
        | Kind::Member { .. }
        | Kind::EnumConst { .. }
        | Kind::DeclName(_)
        | Kind::Star { .. }
        | Kind::Brackets { .. }
        | Kind::Params { .. }
        | Kind::DeclParens
        | Kind::Param { .. }
        | Kind::NamedType { .. }
        | Kind::InitList { .. }
        | Kind::Entry { .. }
        | Kind::Block
        | Kind::Expression
        | Kind::If
        | Kind::While
        | Kind::Do
        | Kind::For { .. }
        | Kind::Switch
        | Kind::Case
        | Kind::Default
        | Kind::Break
        | Kind::Continue
        | Kind::Return
        | Kind::Index
        | Kind::Call
        | Kind::Dot { .. }
        | Kind::Post { .. }
        | Kind::Pre { .. }
        | Kind::Unary(_)
        | Kind::SizeofValue
        | Kind::SizeofType
        | Kind::Cast
        | Kind::Binary(_)
        | Kind::Choose
        | Kind::Assign(_)
        | Kind::Comma
        | Kind::Parens
        | Kind::Number { .. }
        | Kind::Character(_)
        | Kind::Text(_) => false,
    }
}

fn outer_name<'a>(means: &'a Bind) -> Option<&'a Ident>
    ensures { told_name result ≡ outer_names (meant means.now) }
{
    match means {
        Bind::Outer(name) => Some(name),
        Bind::Nothing | Bind::Static(_) | Bind::Auto(_) | Bind::EnumValue(_) | Bind::TypeName(_) =>
            None,
    }
}

// The name of file scope that a node uses itself.
fn used_at<'a>(node: TypedNode<'a>) -> Option<&'a Ident>
    ensures { told_name result ≡ use_at node.entry.kind.now (meant node.entry.means.now) }
{
    if is_use(node.kind) {
        return outer_name(node.means);
    }
    None
}

// Adds the name that a node uses itself.
fn use_node<'a>(used: &mut NameSet<'a>, node: TypedNode<'a>) -> Result<(), NoMemory>
    ensures { OnOk result ((q : List ℕ) → has_name used.new.set.keys q
        ≡ (has_name used.old.set.keys q || is_among (use_at node.entry.kind.now (meant node.entry.means.now)) q)) }
{
    match used_at(node) {
        Some(name) => {
            used.add(name.list.as_slice())?;
            Ok(())
        }
        None => Ok(()),
    }
}

#[tactic(auto, using(crate::proofs::Sets::node_used, crate::proofs::Sets::none_used))]
fn use_within<'a>(
    used: &mut NameSet<'a>,
    source: &'a Source<'a>,
    row: NodeRow<'a>,
    levels: u32,
) -> Result<(), NoMemory>
    ensures { OnOk result ((q : List ℕ) → has_name used.new.set.keys q
        ≡ (has_name used.old.set.keys q || is_among (uses_in_row (row_in source.now.typed.now row.entry)) q)) }
{
    if levels == 0 {
        return Err(NoMemory);
    }
    let mut rest = row;
    'parts: while let Some((part, others)) = split(source, rest)? {
        use_within(used, source, part.parts, levels - 1)?;
        use_node(used, part)?;
        rest = others;
    }
    Ok(())
}

/// The names that occur in these nodes.
pub(crate) fn names_used<'a>(
    alloc: Global,
    source: &'a Source<'a>,
    row: NodeRow<'a>,
) -> Result<NameSet<'a>, NoMemory>
    ensures { IfOk result (λ s. (q : List ℕ) → has_name s.set.keys q
        ≡ is_among (uses_in_row (row_in source.now.typed.now row.entry)) q) }
{
    let mut used = NameSet::new(alloc);
    use_within(&mut used, source, row, LEVELS)?;
    Ok(used)
}
