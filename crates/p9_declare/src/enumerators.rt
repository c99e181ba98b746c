// Enumeration constants that are declared.
ghost use Rattle.std.specs.Prelude.{◌≡◌, false, Some, OnOk};
ghost use Rattle.p9_lang.specs.Types.{Int, meant};
ghost use Rattle.p9_lang.specs.Scopes.{declare, with_meaning};
ghost use Rattle.p9_lang.specs.Parts.{Enumerator};
ghost use Rattle.p9_lang.specs.Declaring.{constant_rules, constant_meaning, enumerated};
ghost use Rattle.p9_operand.specs.Least.{least};
ghost use Rattle.p9_operand.specs.Told.{told_least, told_constant};
ghost use Rattle.p9_scopes.specs.State.{known_of};
ghost use Rattle.p9_declare.specs.Judging.{Judges};

use crate::closing::last_node;
use crate::fault::TypingFault;
use crate::parameters::new_name_rules;
use p9_base::NoMemory;
use p9_lang::{Bind, CType, Ident};
use p9_operand::{Constant, Rule, least_of_both};
use p9_scopes::{Declared, Known};
use std::alloc::Global;

/// The rule that a constant breaks which has no value.
pub fn constant_rules(constant: Constant) -> Option<Rule>
    ensures { told_least result ≡ least (constant_rules (told_constant constant)) }
{
    match constant {
        Constant::NotConstant | Constant::Undefined | Constant::Null => Some(Rule::BadConstant),
        Constant::Value(_) => None,
    }
}

fn constant_meaning(constant: Constant) -> Bind
    ensures { meant result ≡ constant_meaning (told_constant constant) }
{
    match constant {
        Constant::NotConstant | Constant::Undefined | Constant::Null => Bind::Nothing,
        Constant::Value(word) => Bind::EnumValue(word),
    }
}

#[tactic(auto, using(p9_types::proofs::Shapes::type_of_int))]
fn declare_constant(
    known: &mut Known,
    alloc: Global,
    last: usize,
    name: &Ident,
    value: Constant,
) -> Result<(), NoMemory>
    ensures { OnOk result (known_of known.new ≡ declare
        (record { name = name.now; type = Int; means = constant_meaning (told_constant value); is_static = false; is_filled = false })
        (with_meaning last (constant_meaning (told_constant value)) (known_of known.old))) }
{
    let declared = Declared {
        name: name.copied(alloc)?,
        ty: CType::Int,
        means: constant_meaning(value),
        is_static: false,
        is_filled: false,
    };
    known.set_meaning(last, constant_meaning(value));
    known.declare(alloc, declared)
}

/// An enumeration constant is declared, with this value.
#[tactic(auto, using(p9_operand::proofs::Leasts::least_append, p9_operand::proofs::Leasts::unless_at_node))]
pub fn enumerated(
    known: &mut Known,
    alloc: Global,
    name: &Ident,
    value: Constant,
) -> Result<(), TypingFault>
    ensures { Judges (λ _. Enumerator name.now (Some (told_constant value))) result (known_of known.new)
        (enumerated name.now (told_constant value) (known_of known.old)) }
{
    let last = last_node(known);
    let again = new_name_rules(alloc, known, name)?;
    match least_of_both(again, constant_rules(value)) {
        Some(rule) => Err(TypingFault::Broken { node: last, rule }),
        None => {
            declare_constant(known, alloc, last, name, value)?;
            Ok(())
        }
    }
}
