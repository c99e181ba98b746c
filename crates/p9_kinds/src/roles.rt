// The rules that a node breaks by its role alone.
ghost use Rattle.std.specs.Prelude.{◌≡◌, ℕ, List};
ghost use Rattle.p9_lang.specs.Parts as parts;
ghost use Rattle.p9_lang.specs.Typing.{is_filled_by_text, filling_rules, assigning_rules, role_rules};
ghost use Rattle.p9_lang.specs.Types.{type_of};
ghost use Rattle.p9_operand.specs.Least.{least};
ghost use Rattle.p9_operand.specs.Told.{told_least};
ghost use Rattle.p9_parts.specs.Told.{role_of};

use p9_lang::{CType, Kind};
use p9_operand::{Rule, breaks_if, is_array, is_character, is_scalar};
use p9_parts::Role;
use p9_types::array_elements;

/// The least rule that a node of this kind breaks by its role: braces round a scalar, an array or a
/// structure without braces, an automatic array.
pub fn role_rule(role: &Role, kind: &Kind) -> Option<Rule>
    ensures { (names : List (List ℕ)) → told_least result ≡ least (role_rules (role_of names role.now) kind.now) }
{
    match role {
        Role::Fills(ty) => filling_rule(ty, kind),
        Role::Assigns(ty) => assigning_rule(ty, kind),
        Role::Plain
        | Role::Whole
        | Role::Declares { .. }
        | Role::ParameterOf { .. }
        | Role::InBraces
        | Role::EntryOf { .. }
        | Role::Outside => None,
    }
}

/// Whether a text fills an object of this type.
pub fn is_filled_by_text(ty: &CType) -> bool
    ensures { result ≡ is_filled_by_text (parts.Fills (type_of ty.now)) }
{
    match array_elements(ty) {
        Some(elements) => is_character(elements.ty),
        None => false,
    }
}

fn filling_rule(ty: &CType, kind: &Kind) -> Option<Rule>
    ensures { told_least result ≡ least (filling_rules (type_of ty.now) kind.now) }
{
    match kind {
        Kind::InitList { .. } => breaks_if(is_scalar(ty), Rule::BadOperands),
        Kind::Text(_) => breaks_if(!(is_scalar(ty) || is_filled_by_text(ty)), Rule::BadOperands),
        _ => breaks_if(!is_scalar(ty), Rule::BadOperands),
    }
}

fn assigning_rule(ty: &CType, kind: &Kind) -> Option<Rule>
    ensures { told_least result ≡ least (assigning_rules (type_of ty.now) kind.now) }
{
    match kind {
        Kind::InitList { .. } => Some(Rule::BadOperands),
        _ => breaks_if(is_array(ty), Rule::NotLvalue),
    }
}
