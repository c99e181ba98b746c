// Texts and block statics, in the order of the nodes of texts and of names.
ghost use Rattle.std.specs.Prelude.{◌≡◌, ◌++◌, ◌&&◌, if◌then◌else◌, map, [], Option, Result, List, false, OnOk};
ghost use Rattle.p9_lang.specs.declared.module.Module.{Module};
ghost use Rattle.p9_lang.specs.Types.{type_of, tags_of};
ghost use Rattle.p9_lang.specs.Parts as parts;
ghost use Rattle.p9_lang.specs.Initialisers.{Write, BrokenItem};
ghost use Rattle.p9_lang.specs.Symbols.{name_label, static_at, text_at, writes_of, local_kind, local_symbol, local_objects_in};
ghost use Rattle.p9_lang.specs.Symbols as definitions;
ghost use Rattle.p9_nodes.specs.Nodes.{label_of, node_in, row_in};
ghost use Rattle.p9_nodes.specs.Arities.{told_one};
ghost use Rattle.p9_numbering.specs.Told.{told_form, symbols_told};
ghost use Rattle.p9_outline.specs.Locals.{meant_object};

use p9_base::NoMemory;
use p9_lang::{Bind, CType, Kind};
use p9_nodes::{LEVELS, NodeRow, Source, TypedNode, initialiser, is_declarator, name_of, split};
use p9_numbering::{Form, OutlineSymbol, Title};
use p9_operand::copied;
use std::alloc::Global;

// Adds the local symbol that a node means.
fn push_static<'a>(
    alloc: Global,
    symbols: &mut Vec<OutlineSymbol<'a>>,
    node: TypedNode<'a>,
    form: Form<'a>,
) -> Result<(), NoMemory>
    ensures { OnOk result ((m : Module) (first : Option (Result (List Write) BrokenItem)) → told_form m form.entry ≡ local_kind first
        → symbols_told m symbols.new.items
        ≡ symbols_told m symbols.old.items ++ map local_symbol (meant_object first (label_of node.entry))) }
{
    match node.means {
        Bind::Static(number) => {
            let ty = copied(alloc, node.ty)?;
            symbols.push(OutlineSymbol {
                title: Title::Static(*number),
                is_local: true,
                ty,
                form,
            })?;
            Ok(())
        }
        Bind::Nothing | Bind::Outer(_) | Bind::Auto(_) | Bind::EnumValue(_) | Bind::TypeName(_) => {
            Ok(())
        }
    }
}

fn first_form<'a>(ty: &'a CType, value: Option<TypedNode<'a>>) -> Form<'a>
    ensures { (m : Module) → told_form m result
        ≡ local_kind (writes_of (tags_of m.tags.list) (type_of ty.now) (told_one m value.entry)) }
{
    match value {
        Some(value) => Form::Initial { ty, value },
        None => Form::Common,
    }
}

// Adds what a declarator in a declaration declares, by the nodes behind it.
fn push_declared<'a>(
    alloc: Global,
    symbols: &mut Vec<OutlineSymbol<'a>>,
    source: &'a Source<'a>,
    part: TypedNode<'a>,
    others: NodeRow<'a>,
) -> Result<(), NoMemory>
    ensures { OnOk result (symbols_told source.now.typed.now symbols.new.items
        ≡ symbols_told source.now.typed.now symbols.old.items
        ++ map local_symbol (static_at (tags_of source.now.typed.now.tags.list)
        (definitions.initialiser (row_in source.now.typed.now others.entry))
        (name_label (node_in source.now.typed.now part.entry)))) }
{
    let Some(name) = name_of(source, part)? else {
        return Ok(());
    };
    let form = first_form(name.ty, initialiser(source, others)?);
    push_static(alloc, symbols, name, form)?;
    Ok(())
}

// Adds what a part declares, where it is one of a declaration.
fn push_where<'a>(
    alloc: Global,
    symbols: &mut Vec<OutlineSymbol<'a>>,
    source: &'a Source<'a>,
    are_declared: bool,
    part: TypedNode<'a>,
    others: NodeRow<'a>,
) -> Result<(), NoMemory>
    ensures { OnOk result (symbols_told source.now.typed.now symbols.new.items
        ≡ symbols_told source.now.typed.now symbols.old.items
        ++ map local_symbol (if are_declared && parts.is_declarator part.entry.kind.now
        then static_at (tags_of source.now.typed.now.tags.list)
        (definitions.initialiser (row_in source.now.typed.now others.entry))
        (name_label (node_in source.now.typed.now part.entry))
        else [])) }
{
    if are_declared && is_declarator(part.kind) {
        push_declared(alloc, symbols, source, part, others)?;
    }
    Ok(())
}

fn push_text<'a>(
    alloc: Global,
    symbols: &mut Vec<OutlineSymbol<'a>>,
    node: TypedNode<'a>,
) -> Result<(), NoMemory>
    ensures { OnOk result ((m : Module) → symbols_told m symbols.new.items
        ≡ symbols_told m symbols.old.items
        ++ map local_symbol (text_at node.entry.kind.now (label_of node.entry))) }
{
    match node.kind {
        Kind::Text(texts) => {
            let form = Form::Text {
                ty: node.ty,
                texts: texts.as_slice(),
            };
            push_static(alloc, symbols, node, form)?;
            Ok(())
        }
        Kind::Declaration { .. }
        | Kind::Function { .. }
        | Kind::Member { .. }
        | Kind::EnumConst { .. }
        | Kind::DeclName(_)
        | Kind::Star { .. }
        | Kind::Brackets { .. }
        | Kind::Params { .. }
        | Kind::DeclParens
        | Kind::Param { .. }
        | Kind::NamedType { .. }
        | Kind::InitList { .. }
        | Kind::Entry { .. }
        | Kind::Block
        | Kind::Expression
        | Kind::If
        | Kind::While
        | Kind::Do
        | Kind::For { .. }
        | Kind::Switch
        | Kind::Case
        | Kind::Default
        | Kind::Break
        | Kind::Continue
        | Kind::Return
        | Kind::Index
        | Kind::Call
        | Kind::Dot { .. }
        | Kind::Post { .. }
        | Kind::Pre { .. }
        | Kind::Unary(_)
        | Kind::SizeofValue
        | Kind::SizeofType
        | Kind::Cast
        | Kind::Binary(_)
        | Kind::Choose
        | Kind::Assign(_)
        | Kind::Comma
        | Kind::Parens
        | Kind::Name(_)
        | Kind::Number { .. }
        | Kind::Character(_) => Ok(()),
    }
}

fn is_declaration(kind: &Kind) -> bool
    ensures { result ≡ definitions.is_declaration kind.now }
{
    match kind {
        Kind::Declaration { .. } => true,
        Kind::Function { .. }
        | Kind::Member { .. }
        | Kind::EnumConst { .. }
        | Kind::DeclName(_)
        | Kind::Star { .. }
        | Kind::Brackets { .. }
        | Kind::Params { .. }
        | Kind::DeclParens
        | Kind::Param { .. }
        | Kind::NamedType { .. }
        | Kind::InitList { .. }
        | Kind::Entry { .. }
        | Kind::Block
        | Kind::Expression
        | Kind::If
        | Kind::While
        | Kind::Do
        | Kind::For { .. }
        | Kind::Switch
        | Kind::Case
        | Kind::Default
        | Kind::Break
        | Kind::Continue
        | Kind::Return
        | Kind::Index
        | Kind::Call
        | Kind::Dot { .. }
        | Kind::Post { .. }
        | Kind::Pre { .. }
        | Kind::Unary(_)
        | Kind::SizeofValue
        | Kind::SizeofType
        | Kind::Cast
        | Kind::Binary(_)
        | Kind::Choose
        | Kind::Assign(_)
        | Kind::Comma
        | Kind::Parens
        | Kind::Name(_)
        | Kind::Number { .. }
        | Kind::Character(_)
        | Kind::Text(_) => false,
    }
}

#[tactic(auto, using(crate::proofs::Walking::locals_passed, crate::proofs::Walking::locals_over))]
fn push_within<'a>(
    alloc: Global,
    symbols: &mut Vec<OutlineSymbol<'a>>,
    source: &'a Source<'a>,
    are_declared: bool,
    row: NodeRow<'a>,
    levels: u32,
) -> Result<(), NoMemory>
    ensures { OnOk result (symbols_told source.now.typed.now symbols.new.items
        ≡ symbols_told source.now.typed.now symbols.old.items
        ++ map local_symbol (local_objects_in (tags_of source.now.typed.now.tags.list) are_declared
        (row_in source.now.typed.now row.entry))) }
{
    if levels == 0 {
        return Err(NoMemory);
    }
    let mut rest = row;
    'parts: while let Some((part, others)) = split(source, rest)? {
        push_where(alloc, symbols, source, are_declared, part, others)?;
        let declares = is_declaration(part.kind);
        push_within(alloc, symbols, source, declares, part.parts, levels - 1)?;
        push_text(alloc, symbols, part)?;
        rest = others;
    }
    Ok(())
}

/// Adds the symbols of the texts and block statics of a module's items.
pub(crate) fn push_locals<'a>(
    alloc: Global,
    symbols: &mut Vec<OutlineSymbol<'a>>,
    source: &'a Source<'a>,
    row: NodeRow<'a>,
) -> Result<(), NoMemory>
    ensures { OnOk result (symbols_told source.now.typed.now symbols.new.items
        ≡ symbols_told source.now.typed.now symbols.old.items
        ++ map local_symbol (local_objects_in (tags_of source.now.typed.now.tags.list) false
        (row_in source.now.typed.now row.entry))) }
{
    push_within(alloc, symbols, source, false, row, LEVELS)
}
