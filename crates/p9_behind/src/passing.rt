// What a part means to its node, by what it turned out to be.
ghost use Rattle.p9_lang.specs.Trees.{row_of};
ghost use Rattle.p9_lang.specs.Declaring as specs;
ghost use Rattle.p9_scopes.specs.State.{known_of};
ghost use Rattle.p9_declare.specs.Judging.{Judges};
ghost use Rattle.p9_parts.specs.Told.{frame_of, part_of, parts_of};

use crate::declarators::declared;
use crate::initialisers::check_initialiser;
use crate::labels::{case_label, default_label, enumerator};
use crate::members::with_members;
use p9_declare::TypingFault;
use p9_lang::{Kind, Node};
use p9_parts::{Frame, Part, Parts};
use p9_scopes::{Known, Names};
use std::alloc::Global;

/// What a part means to its node; `names` are those that the node's role speaks of, and `rest` the
/// parts behind it.
pub fn behind(
    known: &mut Known,
    alloc: Global,
    kind: &Kind,
    frame: &Frame,
    names: &Names,
    before: &Parts,
    part: Part,
    rest: &[Node],
) -> Result<Part, TypingFault>
    ensures { Judges part_of result (known_of known.new)
        (specs.behind kind.now (frame_of names.now frame.now) (parts_of before.now) (part_of part) (row_of rest.now) (known_of known.old)) }
{
    match part {
        Part::Value(operand) => {
            let part = Part::Value(operand);
            match check_initialiser(known, alloc, kind, frame, before, &part) {
                Ok(()) => Ok(part),
                Err(fault) => Err(fault),
            }
        }
        Part::Braced(count) => {
            let part = Part::Braced(count);
            match check_initialiser(known, alloc, kind, frame, before, &part) {
                Ok(()) => Ok(part),
                Err(fault) => Err(fault),
            }
        }
        Part::Declarator(steps) => declared(known, alloc, kind, frame, names, before, steps, rest),
        Part::Enumerator { name, value } => enumerator(known, alloc, before, name, value),
        Part::Members(members) => {
            with_members(known, alloc, frame, before, members.as_slice())?;
            Ok(Part::Members(members))
        }
        Part::CaseLabel(word) => case_label(known, before, word),
        Part::DefaultLabel => default_label(known, before),
        other @ (Part::Object { .. }
        | Part::Parameter(_)
        | Part::NamedType(_)
        | Part::Filled(_)
        | Part::Statement) => Ok(other),
    }
}
