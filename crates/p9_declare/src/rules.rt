// The rules on names that are declared.
ghost use Rattle.std.specs.Prelude.{◌≡◌, IsTrue, IfOk};
ghost use Rattle.std.specs.Option.{option_copied};
ghost use Rattle.p9_lang.specs.Types.{type_of, tags_of, meant};
ghost use Rattle.p9_lang.specs.Rules as specs;
ghost use Rattle.p9_lang.specs.TagRules.{NoneContainsItself};
ghost use Rattle.p9_lang.specs.Scopes.{innermost, in_level};
ghost use Rattle.p9_lang.specs.Declarators.{is_type_name, is_outer, same_so_far, sized_rules, object_rules, function_rules, has_equal_type, may_repeat, repeat_rules, type_rules, naming_rules};
ghost use Rattle.p9_operand.specs.Least.{least};
ghost use Rattle.p9_operand.specs.Told.{told_least};
ghost use Rattle.p9_scopes.specs.Seen.{declared_of, declared_in};
ghost use Rattle.p9_scopes.specs.State.{known_of};
ghost use Rattle.p9_declare.specs.Told.{told_declaring, type_in};
ghost use Rattle.p9_declare.specs.Types.{lacks_length, is_again};

use crate::storage::Declaring;
use p9_base::NoMemory;
use p9_lang::{Bind, CType, Ident, Tags};
use p9_operand::{Rule, breaks_if, is_complete, is_function, is_within_limit, least_of_both};
use p9_scopes::{Declared, Known};
use p9_types::{array_elements, same_type};
use std::alloc::Global;

/// The rule that a name is declared already, where it is broken.
pub(crate) fn redeclared_if(
    alloc: Global,
    holds: bool,
    name: &Ident,
) -> Result<Option<Rule>, NoMemory>
    ensures { IfOk result (λ rule. told_least rule ≡ least (specs.breaks_if holds (specs.Redeclared name.now))) }
{
    if holds {
        Ok(Some(Rule::Redeclared(name.copied(alloc)?)))
    } else {
        Ok(None)
    }
}

/// The rule that a type breaks which isn't complete, or past the limit.
#[tactic(auto, using(p9_operand::proofs::Leasts::least_append))]
pub fn sized_rules(alloc: Global, tags: &Tags, ty: &CType) -> Result<Option<Rule>, NoMemory>
    requires { NoneContainsItself (tags_of tags.now.list) }
    ensures { IfOk result (λ rule. told_least rule ≡ least (sized_rules (tags_of tags.now.list) (type_of ty.now))) }
{
    let is_complete = is_complete(alloc, ty, tags)?;
    let is_within = is_within_limit(alloc, ty, tags)?;
    Ok(least_of_both(
        breaks_if(!is_complete, Rule::Incomplete),
        breaks_if(!is_within, Rule::BadConstant),
    ))
}

// Whether the length of an array may still be given.
fn lacks_length(ty: &CType) -> bool
    ensures { result ≡ lacks_length (type_of ty.now) }
{
    match array_elements(ty) {
        Some(elements) => elements.count == 0,
        None => false,
    }
}

#[tactic(auto, using(crate::proofs::Types::unsized_object, crate::proofs::Types::sized_object))]
fn object_rules(alloc: Global, tags: &Tags, ty: &CType) -> Result<Option<Rule>, NoMemory>
    requires { NoneContainsItself (tags_of tags.now.list) }
    ensures { IfOk result (λ rule. told_least rule ≡ least (object_rules (tags_of tags.now.list) (type_of ty.now))) }
{
    if lacks_length(ty) {
        Ok(None)
    } else {
        sized_rules(alloc, tags, ty)
    }
}

#[tactic(auto, using(p9_operand::proofs::Leasts::least_append))]
fn function_rules(declaring: Declaring) -> Option<Rule>
    ensures { told_least result ≡ least (function_rules (told_declaring declaring)) }
{
    least_of_both(
        breaks_if(declaring.has_initialiser, Rule::BadOperands),
        breaks_if(!declaring.is_at_file, Rule::Misplaced),
    )
}

fn type_rules(
    alloc: Global,
    tags: &Tags,
    declaring: Declaring,
    ty: Option<&CType>,
) -> Result<Option<Rule>, NoMemory>
    requires { NoneContainsItself (tags_of tags.now.list) }
    ensures { IfOk result (λ rule. told_least rule
        ≡ least (type_rules (tags_of tags.now.list) (told_declaring declaring) (type_in (option_copied ty.entry)))) }
{
    let Some(ty) = ty else {
        return Ok(None);
    };
    if declaring.storage.is_typedef() {
        return Ok(None);
    }
    if is_function(ty) {
        return Ok(function_rules(declaring));
    }
    object_rules(alloc, tags, ty)
}

#[tactic(auto, using(crate::proofs::Types::same_elements, crate::proofs::Types::same_beside_no_array))]
fn same_elements(alloc: Global, old: &CType, new: &CType) -> Result<bool, NoMemory>
    requires { IsTrue (lacks_length (type_of new.now)) }
    ensures { IfOk result (λ same. same ≡ same_so_far (type_of old.now) (type_of new.now)) }
{
    if let Some(old) = array_elements(old) {
        if let Some(new) = array_elements(new) {
            return same_type(alloc, old.ty, new.ty);
        }
    }
    same_type(alloc, old, new)
}

// Equal types, where the length of an array may still be given.
#[tactic(auto, using(crate::proofs::Types::same_beside_sized))]
fn same_so_far(alloc: Global, old: &CType, new: &CType) -> Result<bool, NoMemory>
    ensures { IfOk result (λ same. same ≡ same_so_far (type_of old.now) (type_of new.now)) }
{
    if lacks_length(new) {
        return same_elements(alloc, old, new);
    }
    same_type(alloc, old, new)
}

fn has_equal_type(alloc: Global, old: &Declared, ty: Option<&CType>) -> Result<bool, NoMemory>
    ensures { IfOk result (λ has. has ≡ has_equal_type (declared_of old.now) (type_in (option_copied ty.entry))) }
{
    match ty {
        Some(ty) => same_so_far(alloc, &old.ty, ty),
        None => Ok(true),
    }
}

fn is_type_name(means: &Bind) -> bool
    ensures { result ≡ is_type_name (meant means.now) }
{
    match means {
        Bind::TypeName(_) => true,
        Bind::Nothing | Bind::Outer(_) | Bind::Static(_) | Bind::Auto(_) | Bind::EnumValue(_) =>
            false,
    }
}

fn is_outer(means: &Bind) -> bool
    ensures { result ≡ is_outer (meant means.now) }
{
    match means {
        Bind::Outer(_) => true,
        Bind::Nothing | Bind::Static(_) | Bind::Auto(_) | Bind::EnumValue(_) | Bind::TypeName(_) =>
            false,
    }
}

// Whether a name may be declared again, if its types are equal.
fn is_again(declaring: Declaring, old: &Declared) -> bool
    ensures { result ≡ is_again (told_declaring declaring) (declared_of old.now) }
{
    if declaring.storage.is_typedef() {
        return is_type_name(&old.means);
    }
    if !declaring.is_at_file || !is_outer(&old.means) {
        return false;
    }
    if old.is_static != declaring.storage.is_static() {
        return false;
    }
    !(old.is_filled && declaring.is_filled())
}

fn may_repeat(
    alloc: Global,
    declaring: Declaring,
    old: &Declared,
    ty: Option<&CType>,
) -> Result<bool, NoMemory>
    ensures { IfOk result (λ may. may ≡ may_repeat (told_declaring declaring) (declared_of old.now) (type_in (option_copied ty.entry))) }
{
    let has_equal_type = has_equal_type(alloc, old, ty)?;
    Ok(has_equal_type && is_again(declaring, old))
}

fn repeat_rules(
    alloc: Global,
    declaring: Declaring,
    name: &Ident,
    old: Option<&Declared>,
    ty: Option<&CType>,
) -> Result<Option<Rule>, NoMemory>
    ensures { IfOk result (λ rule. told_least rule
        ≡ least (repeat_rules (told_declaring declaring) name.now (declared_in (option_copied old.entry)) (type_in (option_copied ty.entry)))) }
{
    match old {
        Some(old) => {
            let may_repeat = may_repeat(alloc, declaring, old, ty)?;
            redeclared_if(alloc, !may_repeat, name)
        }
        None => Ok(None),
    }
}

/// The rule that a declared name breaks, by its type if that is known.
#[tactic(auto, using(p9_operand::proofs::Leasts::least_append))]
pub(crate) fn naming_rules(
    alloc: Global,
    known: &Known,
    declaring: Declaring,
    name: &Ident,
    ty: Option<&CType>,
) -> Result<Option<Rule>, NoMemory>
    ensures { IfOk result (λ rule. told_least rule
        ≡ least (naming_rules (known_of known.now).tags (told_declaring declaring) name.now
        (in_level name.now (innermost (known_of known.now).names)) (type_in (option_copied ty.entry)))) }
{
    let again = repeat_rules(alloc, declaring, name, known.find_innermost(name), ty)?;
    let is_typedef = declaring.storage.is_typedef();
    let filled = breaks_if(is_typedef && declaring.has_initialiser, Rule::BadOperands);
    let of_type = type_rules(alloc, known.tags(), declaring, ty)?;
    Ok(least_of_both(again, least_of_both(filled, of_type)))
}
