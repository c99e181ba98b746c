// Members that are declared.
ghost use Rattle.std.specs.Prelude.{◌≡◌, IfOk};
ghost use Rattle.std.specs.Option.{option_copied};
ghost use Rattle.p9_lang.specs.Types.{type_of, tags_of};
ghost use Rattle.p9_lang.specs.TagRules.{NoneContainsItself};
ghost use Rattle.p9_lang.specs.Declarators as specs;
ghost use Rattle.p9_lang.specs.Parts.{Object, Plain};
ghost use Rattle.p9_lang.specs.Declaring.{last_node};
ghost use Rattle.p9_operand.specs.Least.{least};
ghost use Rattle.p9_operand.specs.Told.{told_least};
ghost use Rattle.p9_scopes.specs.State.{known_of};
ghost use Rattle.p9_declare.specs.Closing.{closed_with};
ghost use Rattle.p9_declare.specs.Judging.{Judges};
ghost use Rattle.p9_declare.specs.Operations.{named_member_rules, member_declared};
ghost use Rattle.p9_declare.specs.Told.{steps_of, type_in};

use crate::closing::{close, last_node};
use crate::fault::{TypingFault, also_broken};
use crate::rules::{redeclared_if, sized_rules};
use crate::shaping::LengthBy;
use crate::steps::{Step, name_of};
use p9_base::NoMemory;
use p9_lang::{CType, Ident, Tags};
use p9_operand::{Rule, least_of_both};
use p9_scopes::Known;
use std::alloc::Global;

// The rule that a member's name breaks, by its type if that is known.
#[tactic(auto, using(p9_operand::proofs::Leasts::least_append))]
fn member_rules(
    alloc: Global,
    tags: &Tags,
    is_taken: bool,
    name: &Ident,
    ty: Option<&CType>,
) -> Result<Option<Rule>, NoMemory>
    requires { NoneContainsItself (tags_of tags.now.list) }
    ensures { IfOk result (λ rule. told_least rule
        ≡ least (named_member_rules (tags_of tags.now.list) is_taken name.now (type_in (option_copied ty.entry)))) }
{
    let taken = redeclared_if(alloc, is_taken, name)?;
    match ty {
        Some(ty) => {
            let sized = sized_rules(alloc, tags, ty)?;
            Ok(least_of_both(taken, sized))
        }
        None => Ok(taken),
    }
}

fn close_member(
    known: &mut Known,
    alloc: Global,
    base: &CType,
    is_taken: bool,
    steps: &[Step],
    name: &Ident,
) -> Result<CType, TypingFault>
    ensures { Judges type_of result (known_of known.new)
        (closed_with (last_node (known_of known.old)) (named_member_rules (known_of known.old).tags is_taken name.now)
        specs.ByNothing (type_of base.now) (steps_of steps.now) (known_of known.old)) }
{
    let last = last_node(known);
    let untyped = redeclared_if(alloc, is_taken, name)?;
    match close(known, alloc, LengthBy::ByNothing, base, steps) {
        Ok(ty) => {
            let typed = member_rules(alloc, known.tags(), is_taken, name, Some(&ty))?;
            match typed {
                Some(rule) => Err(TypingFault::Broken { node: last, rule }),
                None => Ok(ty),
            }
        }
        Err(fault) => Err(also_broken(fault, last, untyped)),
    }
}

/// A member is declared; `is_taken` says that its body has one of its name already. The answer is its
/// type.
#[tactic(auto, using(crate::proofs::Declared::member_nameless, crate::proofs::Declared::member_named, crate::proofs::Declared::member_broken))]
pub fn declare_member(
    known: &mut Known,
    alloc: Global,
    base: &CType,
    is_taken: bool,
    steps: &[Step],
) -> Result<CType, TypingFault>
    ensures { Judges (λ ty. Object (type_of ty) (steps_of steps.now) (last_node (known_of known.old)) Plain) result (known_of known.new)
        (member_declared (type_of base.now) is_taken (steps_of steps.now) (specs.name_of (steps_of steps.now)) (known_of known.old)) }
{
    let Some(name) = name_of(steps) else {
        return Err(TypingFault::Broken {
            node: last_node(known),
            rule: Rule::Malformed,
        });
    };
    close_member(known, alloc, base, is_taken, steps, name.name)
}
