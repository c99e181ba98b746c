// What declarations make of the names of file scope.
ghost use Rattle.std.specs.Prelude.{◌≡◌, if◌then◌else◌, [], OnOk};
ghost use Rattle.p9_lang.specs.declared.module.Module.{Module};
ghost use Rattle.p9_lang.specs.Types.{type_of, tags_of};
ghost use Rattle.p9_lang.specs.Parts as parts;
ghost use Rattle.p9_lang.specs.Symbols.{Way, Body, way_of, name_label, label_type, declares, declared_by, declared_body, declarations_in, declarations};
ghost use Rattle.p9_lang.specs.Symbols as symbols;
ghost use Rattle.p9_nodes.specs.Nodes.{label_of, node_in, row_in};
ghost use Rattle.p9_nodes.specs.Arities.{told_one};
ghost use Rattle.p9_numbering.specs.Told.{told_form};
ghost use Rattle.p9_outline.specs.Summaries as summaries;
ghost use Rattle.p9_outline.specs.Summaries.{kind_by};
ghost use Rattle.p9_outline.specs.Told.{told_entries};

use crate::storage::is_extern;
use crate::summary::Names;
use p9_base::NoMemory;
use p9_lang::{Bind, CType, Kind};
use p9_nodes::{NodeRow, Source, TypedNode, initialiser, is_declarator, name_of, split};
use p9_numbering::Form;
use p9_operand::is_function;

// What one declaration without a body makes of a name.
fn form_of<'a>(external: bool, ty: &'a CType, value: Option<TypedNode<'a>>) -> Form<'a>
    ensures { (m : Module) → told_form m result
        ≡ kind_by (tags_of m.tags.list) (type_of ty.now) (way_of external (type_of ty.now) (told_one m value.entry)) }
{
    match value {
        Some(value) => Form::Initial { ty, value },
        None => {
            if external || is_function(ty) {
                return Form::DeclaredOnly;
            }
            Form::Common
        }
    }
}

// Adds what a declarator with this name node declares at file scope.
fn declare_named<'a>(
    names: &mut Names<'a>,
    name: TypedNode<'a>,
    form: Form<'a>,
) -> Result<(), NoMemory>
    ensures { OnOk result ((m : Module) (way : Way)
        → told_form m form.entry ≡ kind_by (tags_of m.tags.list) (type_of name.entry.ty.now) way
        → told_entries m names.new.map.entries
        ≡ summaries.declare_all (tags_of m.tags.list) (told_entries m names.old.map.entries)
        (declares way (Some (label_of name.entry)))) }
{
    match name.means {
        Bind::Outer(outer) => {
            names.declare(outer.list.as_slice(), name.ty, form)?;
            Ok(())
        }
        Bind::Nothing | Bind::Static(_) | Bind::Auto(_) | Bind::EnumValue(_) | Bind::TypeName(_) =>
            Ok(()),
    }
}

// Adds what a declarator declares, by the nodes behind it.
fn declare_part<'a>(
    names: &mut Names<'a>,
    source: &'a Source<'a>,
    external: bool,
    part: TypedNode<'a>,
    others: NodeRow<'a>,
) -> Result<(), NoMemory>
    ensures { OnOk result (told_entries source.now.typed.now names.new.map.entries
        ≡ summaries.declare_all (tags_of source.now.typed.now.tags.list) (told_entries source.now.typed.now names.old.map.entries)
        (declares (way_of external (label_type (name_label (node_in source.now.typed.now part.entry)))
        (symbols.initialiser (row_in source.now.typed.now others.entry)))
        (name_label (node_in source.now.typed.now part.entry)))) }
{
    let Some(name) = name_of(source, part)? else {
        return Ok(());
    };
    let form = form_of(external, name.ty, initialiser(source, others)?);
    declare_named(names, name, form)?;
    Ok(())
}

// Adds what a part of a declaration declares.
fn declare_where<'a>(
    names: &mut Names<'a>,
    source: &'a Source<'a>,
    external: bool,
    part: TypedNode<'a>,
    others: NodeRow<'a>,
) -> Result<(), NoMemory>
    ensures { OnOk result (told_entries source.now.typed.now names.new.map.entries
        ≡ summaries.declare_all (tags_of source.now.typed.now.tags.list) (told_entries source.now.typed.now names.old.map.entries)
        (if parts.is_declarator part.entry.kind.now
        then declares (way_of external (label_type (name_label (node_in source.now.typed.now part.entry)))
        (symbols.initialiser (row_in source.now.typed.now others.entry)))
        (name_label (node_in source.now.typed.now part.entry))
        else [])) }
{
    if is_declarator(part.kind) {
        declare_part(names, source, external, part, others)?;
    }
    Ok(())
}

#[tactic(auto, using(crate::proofs::Walking::part_declared, crate::proofs::Walking::parts_declared))]
fn declare_parts<'a>(
    names: &mut Names<'a>,
    source: &'a Source<'a>,
    external: bool,
    row: NodeRow<'a>,
) -> Result<(), NoMemory>
    ensures { OnOk result (told_entries source.now.typed.now names.new.map.entries
        ≡ summaries.declare_all (tags_of source.now.typed.now.tags.list) (told_entries source.now.typed.now names.old.map.entries)
        (declared_by external (row_in source.now.typed.now row.entry))) }
{
    let mut rest = row;
    'parts: while let Some((part, others)) = split(source, rest)? {
        declare_where(names, source, external, part, others)?;
        rest = others;
    }
    Ok(())
}

// Adds the function that an item is, by its declarator.
fn declare_function<'a>(
    names: &mut Names<'a>,
    source: &'a Source<'a>,
    item: TypedNode<'a>,
    part: TypedNode<'a>,
) -> Result<(), NoMemory>
    ensures { OnOk result (told_entries source.now.typed.now names.new.map.entries
        ≡ summaries.declare_all (tags_of source.now.typed.now.tags.list) (told_entries source.now.typed.now names.old.map.entries)
        (declares (Body (node_in source.now.typed.now item.entry)) (name_label (node_in source.now.typed.now part.entry)))) }
{
    let Some(name) = name_of(source, part)? else {
        return Ok(());
    };
    declare_named(names, name, Form::Code(item))?;
    Ok(())
}

#[tactic(auto, using(crate::proofs::Walking::body_passed, crate::proofs::Walking::body_found, crate::proofs::Walking::no_body))]
fn declare_body<'a>(
    names: &mut Names<'a>,
    source: &'a Source<'a>,
    item: TypedNode<'a>,
) -> Result<(), NoMemory>
    ensures { OnOk result (told_entries source.now.typed.now names.new.map.entries
        ≡ summaries.declare_all (tags_of source.now.typed.now.tags.list) (told_entries source.now.typed.now names.old.map.entries)
        (declared_body (node_in source.now.typed.now item.entry) (row_in source.now.typed.now item.entry.parts))) }
{
    let mut rest = item.parts;
    'parts: while let Some((part, others)) = split(source, rest)? {
        if is_declarator(part.kind) {
            declare_function(names, source, item, part)?;
            return Ok(());
        }
        rest = others;
    }
    Ok(())
}

// Adds what an item declares.
fn declare_item<'a>(
    names: &mut Names<'a>,
    source: &'a Source<'a>,
    item: TypedNode<'a>,
) -> Result<(), NoMemory>
    ensures { OnOk result (told_entries source.now.typed.now names.new.map.entries
        ≡ summaries.declare_all (tags_of source.now.typed.now.tags.list) (told_entries source.now.typed.now names.old.map.entries)
        (declarations_in (node_in source.now.typed.now item.entry))) }
{
    match item.kind {
        Kind::Declaration { spec, .. } => {
            declare_parts(names, source, is_extern(spec), item.parts)?;
            Ok(())
        }
        Kind::Function { .. } => {
            declare_body(names, source, item)?;
            Ok(())
        }
        Kind::Member { .. }
        | Kind::EnumConst { .. }
        | Kind::DeclName(_)
        | Kind::Star { .. }
        | Kind::Brackets { .. }
        | Kind::Params { .. }
        | Kind::DeclParens
        | Kind::Param { .. }
        | Kind::NamedType { .. }
        | Kind::InitList { .. }
        | Kind::Entry { .. }
        | Kind::Block
        | Kind::Expression
        | Kind::If
        | Kind::While
        | Kind::Do
        | Kind::For { .. }
        | Kind::Switch
        | Kind::Case
        | Kind::Default
        | Kind::Break
        | Kind::Continue
        | Kind::Return
        | Kind::Index
        | Kind::Call
        | Kind::Dot { .. }
        | Kind::Post { .. }
        | Kind::Pre { .. }
        | Kind::Unary(_)
        | Kind::SizeofValue
        | Kind::SizeofType
        | Kind::Cast
        | Kind::Binary(_)
        | Kind::Choose
        | Kind::Assign(_)
        | Kind::Comma
        | Kind::Parens
        | Kind::Name(_)
        | Kind::Number { .. }
        | Kind::Character(_)
        | Kind::Text(_) => Ok(()),
    }
}

/// Adds what the items of a module declare.
#[tactic(auto, using(crate::proofs::Walking::item_declared, crate::proofs::Walking::items_declared))]
pub(crate) fn declare_items<'a>(
    names: &mut Names<'a>,
    source: &'a Source<'a>,
    row: NodeRow<'a>,
) -> Result<(), NoMemory>
    ensures { OnOk result (told_entries source.now.typed.now names.new.map.entries
        ≡ summaries.declare_all (tags_of source.now.typed.now.tags.list) (told_entries source.now.typed.now names.old.map.entries)
        (declarations (row_in source.now.typed.now row.entry))) }
{
    let mut rest = row;
    'items: while let Some((item, others)) = split(source, rest)? {
        declare_item(names, source, item)?;
        rest = others;
    }
    Ok(())
}
