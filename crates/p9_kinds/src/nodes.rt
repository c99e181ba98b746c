// Nodes with their types and meanings.
ghost use Rattle.std.specs.Prelude.{◌≡◌, List, []};
ghost use Rattle.p9_lang.specs.Rules as rules;
ghost use Rattle.p9_lang.specs.Types.{type_of, meant};
ghost use Rattle.p9_lang.specs.Typing as specs;
ghost use Rattle.p9_operand.specs.Least.{least};
ghost use Rattle.p9_operand.specs.Told.{told_least};
ghost use Rattle.p9_scopes.specs.State.{known_of};
ghost use Rattle.p9_declare.specs.Judging.{Judges};
ghost use Rattle.p9_parts.specs.Told.{part_of};

use p9_declare::TypingFault;
use p9_lang::{Bind, CType};
use p9_operand::Rule;
use p9_parts::Part;
use p9_scopes::Known;

/// The next node has this type and meaning, and is this part; it breaks no rule.
pub(crate) fn added(
    known: &mut Known,
    ty: CType,
    bind: Bind,
    part: Part,
) -> Result<Part, TypingFault>
    ensures { Judges part_of result (known_of known.new)
        (specs.has [] (type_of ty) (meant bind) (part_of part) (known_of known.old)) }
{
    known.add_node(ty, bind)?;
    Ok(part)
}

/// The next node has this type and meaning, and is this part, unless it breaks a rule.
#[tactic(auto, using(p9_operand::proofs::Leasts::unless_at_node))]
pub(crate) fn has(
    known: &mut Known,
    rule: Option<Rule>,
    ty: CType,
    bind: Bind,
    part: Part,
) -> Result<Part, TypingFault>
    ensures { (broken : List rules.Rule) → told_least rule ≡ least broken → Judges part_of result (known_of known.new)
        (specs.has broken (type_of ty) (meant bind) (part_of part) (known_of known.old)) }
{
    match rule {
        Some(rule) => Err(TypingFault::Broken {
            node: known.next_node(),
            rule,
        }),
        None => added(known, ty, bind, part),
    }
}

/// The next node has no type and stands for nothing, as that of a statement, and is this part, unless
/// it breaks a rule.
#[tactic(auto, using(p9_types::proofs::Shapes::type_of_void))]
pub(crate) fn typeless(
    known: &mut Known,
    rule: Option<Rule>,
    part: Part,
) -> Result<Part, TypingFault>
    ensures { (broken : List rules.Rule) → told_least rule ≡ least broken → Judges part_of result (known_of known.new)
        (specs.typeless broken (part_of part) (known_of known.old)) }
{
    has(known, rule, CType::Void, Bind::Nothing, part)
}
