// Declarators: the nodes of their names, and their initialisers.
ghost use Rattle.std.specs.Prelude.{◌≡◌, IfOk};
ghost use Rattle.p9_lang.specs.Parts.{is_declarator};
ghost use Rattle.p9_lang.specs.Symbols.{name_label, initialiser};
ghost use Rattle.p9_nodes.specs.Nodes.{node_in, row_in};
ghost use Rattle.p9_nodes.specs.Arities.{told_one};
ghost use Rattle.p9_nodes.specs.Labels.{told_label};
ghost use Rattle.p9_nodes.specs.Names.{is_name};

use crate::nodes::{NodeRow, TypedNode, split};
use crate::source::Source;
use p9_base::NoMemory;
use p9_lang::Kind;

/// Whether a node of this kind is a declarator.
pub fn is_declarator(kind: &Kind) -> bool
    ensures { result ≡ is_declarator kind.now }
{
    match kind {
        Kind::DeclName(_)
        | Kind::Star { .. }
        | Kind::Brackets { .. }
        | Kind::Params { .. }
        | Kind::DeclParens => true,
        Kind::Declaration { .. }
        | Kind::Function { .. }
        | Kind::Member { .. }
        | Kind::EnumConst { .. }
        | Kind::Param { .. }
        | Kind::NamedType { .. }
        | Kind::InitList { .. }
        | Kind::Entry { .. }
        | Kind::Block
        | Kind::Expression
        | Kind::If
        | Kind::While
        | Kind::Do
        | Kind::For { .. }
        | Kind::Switch
        | Kind::Case
        | Kind::Default
        | Kind::Break
        | Kind::Continue
        | Kind::Return
        | Kind::Index
        | Kind::Call
        | Kind::Dot { .. }
        | Kind::Post { .. }
        | Kind::Pre { .. }
        | Kind::Unary(_)
        | Kind::SizeofValue
        | Kind::SizeofType
        | Kind::Cast
        | Kind::Binary(_)
        | Kind::Choose
        | Kind::Assign(_)
        | Kind::Comma
        | Kind::Parens
        | Kind::Name(_)
        | Kind::Number { .. }
        | Kind::Character(_)
        | Kind::Text(_) => false,
    }
}

fn is_name(kind: &Kind) -> bool
    ensures { result ≡ is_name kind.now }
{
    match kind {
        Kind::DeclName(_) => true,
        Kind::Declaration { .. }
        | Kind::Function { .. }
        | Kind::Member { .. }
        | Kind::EnumConst { .. }
        | Kind::Star { .. }
        | Kind::Brackets { .. }
        | Kind::Params { .. }
        | Kind::DeclParens
        | Kind::Param { .. }
        | Kind::NamedType { .. }
        | Kind::InitList { .. }
        | Kind::Entry { .. }
        | Kind::Block
        | Kind::Expression
        | Kind::If
        | Kind::While
        | Kind::Do
        | Kind::For { .. }
        | Kind::Switch
        | Kind::Case
        | Kind::Default
        | Kind::Break
        | Kind::Continue
        | Kind::Return
        | Kind::Index
        | Kind::Call
        | Kind::Dot { .. }
        | Kind::Post { .. }
        | Kind::Pre { .. }
        | Kind::Unary(_)
        | Kind::SizeofValue
        | Kind::SizeofType
        | Kind::Cast
        | Kind::Binary(_)
        | Kind::Choose
        | Kind::Assign(_)
        | Kind::Comma
        | Kind::Parens
        | Kind::Name(_)
        | Kind::Number { .. }
        | Kind::Character(_)
        | Kind::Text(_) => false,
    }
}

/// The node of a declarator's name.
#[tactic(auto, using(crate::proofs::Naming::named_here, crate::proofs::Naming::named_inside, crate::proofs::Naming::named_nowhere))]
pub fn name_of<'a>(
    source: &'a Source<'a>,
    node: TypedNode<'a>,
) -> Result<Option<TypedNode<'a>>, NoMemory>
    ensures { IfOk result (λ o. told_label o ≡ name_label (node_in source.now.typed.now node.entry)) }
{
    let mut inner = node;
    'inwards: loop {
        if is_name(inner.kind) {
            return Ok(Some(inner));
        }
        match split(source, inner.parts)? {
            Some((first, _)) => inner = first,
            None => return Ok(None),
        }
    }
}

/// The initialiser that stands behind a declarator, before these nodes.
#[tactic(auto, using(crate::proofs::Naming::first_is, crate::proofs::Naming::declarator_first, crate::proofs::Naming::none_first))]
pub fn initialiser<'a>(
    source: &'a Source<'a>,
    row: NodeRow<'a>,
) -> Result<Option<TypedNode<'a>>, NoMemory>
    ensures { IfOk result (λ o. told_one source.now.typed.now o
        ≡ initialiser (row_in source.now.typed.now row.entry)) }
{
    match split(source, row)? {
        Some((first, _)) => {
            if is_declarator(first.kind) {
                return Ok(None);
            }
            Ok(Some(first))
        }
        None => Ok(None),
    }
}
