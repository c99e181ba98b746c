// The walk over the nodes of a file, each behind its parts.
ghost use Rattle.std.specs.Prelude.{◌≡◌, ◌+◌, ℕ, List, []};
ghost use Rattle.p9_lang.specs.Parts.{Judged, file_context};
ghost use Rattle.p9_lang.specs.Rules as rules;
ghost use Rattle.p9_lang.specs.Scopes as scopes;
ghost use Rattle.p9_lang.specs.Trees.{syntax_of, row_of, nodes_of, nodes_of_row};
ghost use Rattle.p9_lang.specs.Typing.{with_rules};
ghost use Rattle.p9_lang.specs.Typing as specs;
ghost use Rattle.p9_operand.specs.Least.{least};
ghost use Rattle.p9_operand.specs.Told.{told_least};
ghost use Rattle.p9_scopes.specs.State.{known_of};
ghost use Rattle.p9_declare.specs.Judging.{Judges, Leaves, TellsBroken};
ghost use Rattle.p9_parts.specs.Told.{context_of, frame_of, part_of, parts_of};
ghost use Rattle.p9_judge.specs.Walking.{judged_inside, judged_part, Counts, CountsAt};

use crate::counting::{count_with, sum};
use p9_behind::behind;
use p9_declare::{TypingFault, also_broken};
use p9_kinds::{judged, role_rule};
use p9_lang::{Kind, Node};
use p9_opening::{asked, lent, opened};
use p9_operand::Rule;
use p9_parts::{Context, Frame, Part, Parts, Role};
use p9_scopes::{Known, Names};
use std::alloc::Global;

// Trees that are nested more deeply are answered by want of memory: the stack is memory too.
const LEVELS: u32 = 10_000;

// The first rule that is broken, where the node of this number may break a rule by its role too.
#[tactic(auto, using(crate::proofs::Walking::fault_inside, crate::proofs::Walking::fault_too, crate::proofs::Walking::fault_counts))]
fn fault_with_rule(number: usize, rule: Option<Rule>, fault: TypingFault) -> TypingFault
    ensures tells { (n : ℕ) (broken : List rules.Rule) (answer : Judged) → told_least rule ≡ least broken
        → CountsAt fault number n → TellsBroken fault answer → TellsBroken result (with_rules n broken answer) }
    ensures counts { (nodes count : ℕ) → CountsAt fault nodes count → CountsAt result nodes count }
{
    match fault {
        TypingFault::Broken { node, rule: first } => {
            if node == number {
                also_broken(TypingFault::Broken { node, rule: first }, number, rule)
            } else {
                TypingFault::Broken { node, rule: first }
            }
        }
        TypingFault::Memory => TypingFault::Memory,
    }
}

// A node of this number, which may break a rule by its role too.
fn with_rule(
    number: usize,
    rule: Option<Rule>,
    judged: Result<Part, TypingFault>,
) -> Result<Part, TypingFault>
    ensures judges { (n : ℕ) (broken : List rules.Rule) (s : scopes.Known) (answer : Judged) → told_least rule ≡ least broken
        → Counts judged number n → Judges part_of judged s answer → Judges part_of result s (with_rules n broken answer) }
    ensures counts { (nodes count : ℕ) → Counts judged nodes count → Counts result nodes count }
{
    match judged {
        Ok(part) => match rule {
            Some(rule) => Err(TypingFault::Broken { node: number, rule }),
            None => Ok(part),
        },
        Err(fault) => Err(fault_with_rule(number, rule, fault)),
    }
}

// A part, and what it means to its node.
#[cycle(judge_within)]
fn judge_part(
    known: &mut Known,
    alloc: Global,
    kind: &Kind,
    frame: &Frame,
    names: &Names,
    before: &Parts,
    part: &Node,
    rest: &[Node],
    nodes: &mut usize,
    levels: u32,
) -> Result<Part, TypingFault>
    ensures judges { Judges part_of result (known_of known.new)
        (judged_part kind.now (frame_of names.now frame.now) (parts_of before.now) (syntax_of part.now) (row_of rest.now) (known_of known.old)) }
    ensures counts { Counts result nodes.new (nodes.old + nodes_of (syntax_of part.now)) }
{
    let context = asked(alloc, known, kind, frame, before, &part.kind)?;
    let lent = lent(kind, frame, before, names);
    match judge_within(known, alloc, part, context, lent, nodes, levels) {
        Ok(judged) => behind(known, alloc, kind, frame, names, before, judged, rest),
        Err(fault) => Err(fault),
    }
}

// The parts of a node, and what each means to it.
#[cycle(judge_within)]
fn judge_parts(
    known: &mut Known,
    alloc: Global,
    kind: &Kind,
    frame: &Frame,
    names: &Names,
    parts: &[Node],
    nodes: &mut usize,
    levels: u32,
) -> Result<Parts, TypingFault>
    ensures judges { Judges parts_of result (known_of known.new)
        (specs.judge_parts kind.now (frame_of names.now frame.now) [] (row_of parts.now) (known_of known.old)) }
    ensures counts { Counts result nodes.new (nodes.old + nodes_of_row (row_of parts.now)) }
{
    let mut before = Parts::new(alloc)?;
    let mut rest = parts;
    'parts: while let [part, after @ ..] = rest {
        match judge_part(
            known, alloc, kind, frame, names, &before, part, after, nodes, levels,
        ) {
            Ok(judged) => before.push(alloc, judged)?,
            Err(fault) => {
                *nodes = count_with(*nodes, after, LEVELS)?;
                return Err(fault);
            }
        }
        rest = after;
    }
    Ok(before)
}

// A node, but for the rules that it breaks by its role.
#[cycle(judge_within)]
fn judge_inside(
    known: &mut Known,
    alloc: Global,
    kind: &Kind,
    parts: &[Node],
    context: Context,
    names: &Names,
    nodes: &mut usize,
    levels: u32,
) -> Result<Part, TypingFault>
    ensures judges { Judges part_of result (known_of known.new)
        (judged_inside kind.now (row_of parts.now) (context_of names.now context) (known_of known.old)) }
    ensures counts { Counts result nodes.new (nodes.old + nodes_of_row (row_of parts.now)) }
{
    let frame = opened(known, alloc, kind, context)?;
    match judge_parts(known, alloc, kind, &frame, names, parts, nodes, levels) {
        Ok(parts) => judged(known, alloc, kind, frame, parts),
        Err(fault) => Err(fault),
    }
}

// A node, and so many nodes more.
#[cycle(judge_within)]
fn judge_within(
    known: &mut Known,
    alloc: Global,
    node: &Node,
    context: Context,
    names: &Names,
    nodes: &mut usize,
    levels: u32,
) -> Result<Part, TypingFault>
    ensures judges { Judges part_of result (known_of known.new)
        (specs.judge (syntax_of node.now) (context_of names.now context) (known_of known.old)) }
    ensures counts { Counts result nodes.new (nodes.old + nodes_of (syntax_of node.now)) }
{
    if levels == 0 {
        return Err(TypingFault::Memory);
    }
    let first = known.next_node();
    let rule = role_rule(&context.role, &node.kind);
    let parts = node.parts.as_slice();
    let mut inside: usize = 0;
    let judged = judge_inside(
        known,
        alloc,
        &node.kind,
        parts,
        context,
        names,
        &mut inside,
        levels - 1,
    );
    let number = sum(first, inside)?;
    let before = sum(*nodes, inside)?;
    *nodes = sum(before, 1)?;
    with_rule(number, rule, judged)
}

/// A node, whose role speaks of these names. Trees that are nested more than 10,000 levels deep are
/// answered by want of memory.
pub(crate) fn judge(
    known: &mut Known,
    alloc: Global,
    node: &Node,
    context: Context,
    names: &Names,
) -> Result<Part, TypingFault>
    ensures { Judges part_of result (known_of known.new)
        (specs.judge (syntax_of node.now) (context_of names.now context) (known_of known.old)) }
{
    let mut nodes: usize = 0;
    judge_within(known, alloc, node, context, names, &mut nodes, LEVELS)
}

fn file_context() -> Context
    ensures { (names : List (List ℕ)) → context_of names result ≡ file_context }
{
    Context {
        is_in_loop: false,
        is_in_switch: false,
        result: None,
        role: Role::Plain,
    }
}

/// The items of a file, one after the other.
pub(crate) fn judge_items(
    known: &mut Known,
    alloc: Global,
    items: &[Node],
) -> Result<(), TypingFault>
    ensures { Leaves result (known_of known.new) (specs.judge_items (row_of items.now) (known_of known.old)) }
{
    let names = Names::new(alloc);
    let mut rest = items;
    'items: while let [item, after @ ..] = rest {
        match judge(known, alloc, item, file_context(), &names) {
            Ok(_part) => rest = after,
            Err(fault) => return Err(fault),
        }
    }
    Ok(())
}
