// Statements, by their parts and by where they stand.
ghost use Rattle.std.specs.Prelude.{◌≡◌, ℕ, [], List, not, ◌||◌, slice_get};
ghost use Rattle.std.specs.Option.{option_map, option_copied};
ghost use Rattle.p9_lang.specs.Scopes.{close_block};
ghost use Rattle.p9_lang.specs.Parts.{Statement, DefaultLabel};
ghost use Rattle.p9_lang.specs.Rules as rules;
ghost use Rattle.p9_lang.specs.Typing as specs;
ghost use Rattle.p9_operand.specs.Least.{least};
ghost use Rattle.p9_operand.specs.Told.{told_least};
ghost use Rattle.p9_scopes.specs.State.{known_of};
ghost use Rattle.p9_declare.specs.Judging.{Judges};
ghost use Rattle.p9_declare.specs.Told.{type_in};
ghost use Rattle.p9_parts.specs.Told.{context_of, part_of, parts_of};

use crate::nodes::typeless;
use crate::statements::{loop_test_rule, return_rule, switch_rule, test_rule};
use p9_declare::TypingFault;
use p9_lang::CType;
use p9_operand::{Rule, breaks_if};
use p9_parts::{Context, Part, Parts};
use p9_scopes::Known;
use sqlite_items::at;
use std::alloc::Global;

/// A node that has no type and breaks no rule.
pub(crate) fn sound(known: &mut Known, part: Part) -> Result<Part, TypingFault>
    ensures { Judges part_of result (known_of known.new) (specs.typeless [] (part_of part) (known_of known.old)) }
{
    typeless(known, None, part)
}

/// A block, whose names and tags end with it.
pub(crate) fn judged_block(known: &mut Known) -> Result<Part, TypingFault>
    ensures { Judges part_of result (known_of known.new) (specs.typeless [] Statement (close_block (known_of known.old))) }
{
    known.close_block();
    sound(known, Part::Statement)
}

#[tactic(auto, using(crate::proofs::Answered::places))]
fn part_at(parts: &Parts, place: usize) -> Option<&Part>
    ensures { option_map part_of (option_copied result) ≡ slice_get (parts_of parts.now) place }
{
    at(parts.as_slice(), place)
}

/// A statement with a test, which is the part at this place.
pub(crate) fn judged_test(
    known: &mut Known,
    parts: &Parts,
    place: usize,
) -> Result<Part, TypingFault>
    ensures { Judges part_of result (known_of known.new)
        (specs.typeless (specs.test_rules (slice_get (parts_of parts.now) place)) Statement (known_of known.old)) }
{
    let rule = test_rule(part_at(parts, place));
    typeless(known, rule, Part::Statement)
}

/// A `for`, of which the flags say whether it has a first expression and a test.
pub(crate) fn judged_loop(
    known: &mut Known,
    first: bool,
    test: bool,
    parts: &Parts,
) -> Result<Part, TypingFault>
    ensures { Judges part_of result (known_of known.new)
        (specs.typeless (specs.loop_test_rules first test (parts_of parts.now)) Statement (known_of known.old)) }
{
    let rule = loop_test_rule(first, test, parts.as_slice());
    typeless(known, rule, Part::Statement)
}

/// A `switch`.
pub(crate) fn judged_switch(known: &mut Known, parts: &Parts) -> Result<Part, TypingFault>
    ensures { Judges part_of result (known_of known.new)
        (specs.typeless (specs.switch_rules (slice_get (parts_of parts.now) 0)) Statement (known_of known.old)) }
{
    let rule = switch_rule(part_at(parts, 0));
    typeless(known, rule, Part::Statement)
}

fn break_rule(context: &Context) -> Option<Rule>
    ensures { told_least result ≡ least (rules.breaks_if (not (context.now.is_in_loop || context.now.is_in_switch)) rules.Misplaced) }
{
    breaks_if(
        !(context.is_in_loop || context.is_in_switch),
        Rule::Misplaced,
    )
}

/// A `break`, which stands in a loop or a `switch`.
pub(crate) fn judged_break(known: &mut Known, context: &Context) -> Result<Part, TypingFault>
    ensures { (names : List (List ℕ)) → Judges part_of result (known_of known.new)
        (specs.typeless (rules.breaks_if (not ((context_of names context.now).is_in_loop || (context_of names context.now).is_in_switch)) rules.Misplaced)
        Statement (known_of known.old)) }
{
    typeless(known, break_rule(context), Part::Statement)
}

/// A `continue`, which stands in a loop.
pub(crate) fn judged_continue(known: &mut Known, context: &Context) -> Result<Part, TypingFault>
    ensures { (names : List (List ℕ)) → Judges part_of result (known_of known.new)
        (specs.typeless (rules.breaks_if (not (context_of names context.now).is_in_loop) rules.Misplaced) Statement (known_of known.old)) }
{
    let rule = breaks_if(!context.is_in_loop, Rule::Misplaced);
    typeless(known, rule, Part::Statement)
}

/// A `return`, in a function with this result.
pub(crate) fn judged_return(
    known: &mut Known,
    alloc: Global,
    returned: &Option<CType>,
    parts: &Parts,
) -> Result<Part, TypingFault>
    ensures { Judges part_of result (known_of known.new)
        (specs.typeless (specs.return_rules (known_of known.old).tags (type_in returned.now) (parts_of parts.now)) Statement (known_of known.old)) }
{
    let rule = return_rule(known, alloc, returned, parts.as_slice())?;
    typeless(known, rule, Part::Statement)
}
