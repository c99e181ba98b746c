// What a node opens.
ghost use Rattle.std.specs.Prelude.{◌≡◌, ℕ, List, [], ◌∷◌, IfOk};
ghost use Rattle.std.specs.Option.{option_copied};
ghost use Rattle.p9_lang.specs.Types.{Void, type_of};
ghost use Rattle.p9_lang.specs.Rules.{Undeclared, Redeclared, breaks_if};
ghost use Rattle.p9_lang.specs.Scopes.{structure_keyword};
ghost use Rattle.p9_lang.specs.Declarators.{Structure, Enumeration};
ghost use Rattle.p9_lang.specs.Opening as specs;
ghost use Rattle.p9_scopes.specs.Seen.{keyword_of, declared_in};
ghost use Rattle.p9_scopes.specs.State.{known_of};
ghost use Rattle.p9_declare.specs.Told.{told_head, told_storage};
ghost use Rattle.p9_parts.specs.Told.{context_of, frame_of, rules_of};
ghost use Rattle.p9_opening.specs.Frames.{framed};

use p9_base::NoMemory;
use p9_declare::{Head, Storage, head_of, storage_of};
use p9_lang::{Bind, CType, Ident, Kind, SpecWord};
use p9_operand::{Rule, copied};
use p9_parts::{Context, Frame};
use p9_scopes::{Declared, Keyword, Known, NameLevel};
use std::alloc::Global;

// What a node keeps without braces.
fn framed(context: Context, base: CType, storage: Storage, rule: Option<Rule>) -> Frame
    ensures { (names : List (List ℕ)) → frame_of names result
        ≡ framed (context_of names context) (type_of base) (told_storage storage) (rules_of rule) }
{
    Frame {
        context,
        base,
        tag: None,
        braces: 0,
        storage,
        rule,
    }
}

// What a node without a spec keeps.
#[tactic(auto, using(p9_types::proofs::Shapes::shapes))]
fn bare(context: Context) -> Frame
    ensures { (names : List (List ℕ)) → frame_of names result ≡ specs.bare (context_of names context) }
{
    framed(context, CType::Void, Storage::NoClass, None)
}

#[tactic(auto, using(p9_types::proofs::Shapes::shapes))]
fn undeclared(
    alloc: Global,
    storage: Storage,
    context: Context,
    name: &Ident,
) -> Result<Frame, NoMemory>
    ensures { IfOk result (λ f. (names : List (List ℕ)) → frame_of names f
        ≡ framed (context_of names context) Void (told_storage storage) (Undeclared name.now ∷ [])) }
{
    let rule = Rule::Undeclared(name.copied(alloc)?);
    Ok(framed(context, CType::Void, storage, Some(rule)))
}

// A type by its name.
#[tactic(auto, using(p9_types::proofs::Shapes::shapes))]
fn of_type_name(
    alloc: Global,
    storage: Storage,
    context: Context,
    name: &Ident,
    found: Option<&Declared>,
) -> Result<Frame, NoMemory>
    ensures { IfOk result (λ f. (names : List (List ℕ)) → frame_of names f
        ≡ specs.of_type_name (told_storage storage) (context_of names context) name.now (declared_in (option_copied found.entry))) }
{
    let Some(declared) = found else {
        let frame = undeclared(alloc, storage, context, name)?;
        return Ok(frame);
    };
    match &declared.means {
        Bind::TypeName(ty) => Ok(framed(context, copied(alloc, ty)?, storage, None)),
        Bind::Nothing | Bind::Outer(_) | Bind::Static(_) | Bind::Auto(_) | Bind::EnumValue(_) => {
            let frame = undeclared(alloc, storage, context, name)?;
            Ok(frame)
        }
    }
}

fn structure_keyword(is_union: bool) -> Keyword
    ensures { keyword_of result ≡ structure_keyword is_union }
{
    if is_union {
        Keyword::Union
    } else {
        Keyword::Struct
    }
}

// The rule that a tag breaks that has another body or keyword already.
fn redeclared(alloc: Global, holds: bool, name: &Ident) -> Result<Option<Rule>, NoMemory>
    ensures { IfOk result (λ rule. rules_of rule ≡ breaks_if holds (Redeclared name.now)) }
{
    if holds {
        Ok(Some(Rule::Redeclared(name.copied(alloc)?)))
    } else {
        Ok(None)
    }
}

// A structure or union, with the count of its members where it has braces.
#[tactic(auto, using(p9_types::proofs::Shapes::shapes))]
fn of_structure(
    known: &mut Known,
    alloc: Global,
    storage: Storage,
    context: Context,
    is_union: bool,
    name: &Ident,
    members: Option<u32>,
) -> Result<Frame, NoMemory>
    ensures { IfOk result (λ f. (names : List (List ℕ))
        → specs.of_head (told_storage storage) (context_of names context) (Structure is_union name.now members) (known_of known.old)
        ≡ (frame_of names f, known_of known.new)) }
{
    let tagging = known.tagged_as(alloc, structure_keyword(is_union), name, members.is_some())?;
    let rule = redeclared(alloc, tagging.is_redeclared, name)?;
    let tag = match members {
        Some(_) => Some(tagging.number),
        None => None,
    };
    Ok(Frame {
        context,
        base: CType::Tagged(tagging.number),
        tag,
        braces: members.unwrap_or(0),
        storage,
        rule,
    })
}

// An enumeration, with the count of its constants where it has braces.
#[tactic(auto, using(p9_types::proofs::Shapes::shapes))]
fn of_enumeration(
    known: &mut Known,
    alloc: Global,
    storage: Storage,
    context: Context,
    name: &Ident,
    constants: Option<u32>,
) -> Result<Frame, NoMemory>
    ensures { IfOk result (λ f. (names : List (List ℕ))
        → specs.of_head (told_storage storage) (context_of names context) (Enumeration name.now constants) (known_of known.old)
        ≡ (frame_of names f, known_of known.new)) }
{
    let tagging = known.tagged_as(alloc, Keyword::Enum, name, constants.is_some())?;
    let rule = redeclared(alloc, tagging.is_redeclared, name)?;
    Ok(Frame {
        context,
        base: CType::Int,
        tag: None,
        braces: constants.unwrap_or(0),
        storage,
        rule,
    })
}

fn of_head(
    known: &mut Known,
    alloc: Global,
    storage: Storage,
    context: Context,
    head: Head<'_>,
) -> Result<Frame, NoMemory>
    ensures { IfOk result (λ f. (names : List (List ℕ))
        → specs.of_head (told_storage storage) (context_of names context) (told_head head.entry) (known_of known.old)
        ≡ (frame_of names f, known_of known.new)) }
{
    match head {
        Head::Words(ty) => Ok(framed(context, ty, storage, None)),
        Head::Named(name) => {
            let frame = of_type_name(alloc, storage, context, name, known.find(name))?;
            Ok(frame)
        }
        Head::Structure {
            is_union,
            name,
            members,
        } => {
            let frame = of_structure(known, alloc, storage, context, is_union, name, members)?;
            Ok(frame)
        }
        Head::Enumeration { name, constants } => {
            let frame = of_enumeration(known, alloc, storage, context, name, constants)?;
            Ok(frame)
        }
    }
}

fn of_spec(
    known: &mut Known,
    alloc: Global,
    words: &[SpecWord],
    context: Context,
) -> Result<Frame, NoMemory>
    ensures { IfOk result (λ f. (names : List (List ℕ))
        → specs.of_spec words.now (context_of names context) (known_of known.old) ≡ (frame_of names f, known_of known.new)) }
{
    let frame = of_head(known, alloc, storage_of(words), context, head_of(words))?;
    Ok(frame)
}

/// What a node keeps while its parts are judged; its scopes are open then.
pub fn opened(
    known: &mut Known,
    alloc: Global,
    kind: &Kind,
    context: Context,
) -> Result<Frame, NoMemory>
    ensures { IfOk result (λ f. (names : List (List ℕ))
        → specs.opened kind.now (context_of names context) (known_of known.old) ≡ (frame_of names f, known_of known.new)) }
{
    match kind {
        Kind::Declaration { spec, inits: _ } => {
            let frame = of_spec(known, alloc, spec.words.as_slice(), context)?;
            Ok(frame)
        }
        Kind::Member { spec } | Kind::Param { spec } | Kind::NamedType { spec } => {
            let frame = of_spec(known, alloc, spec.words.as_slice(), context)?;
            Ok(frame)
        }
        Kind::Function { spec } => {
            known.set_autos(0);
            let frame = of_spec(known, alloc, spec.words.as_slice(), context)?;
            Ok(frame)
        }
        Kind::Block => {
            known.open_block(alloc)?;
            Ok(bare(context))
        }
        Kind::Params { .. } => {
            known.open_level(NameLevel::new(alloc))?;
            Ok(bare(context))
        }
        _ => Ok(bare(context)),
    }
}
