// What a node is, by its kind.
ghost use Rattle.std.specs.Prelude.{ℕ, List};
ghost use Rattle.p9_lang.specs.Typing as specs;
ghost use Rattle.p9_scopes.specs.State.{known_of};
ghost use Rattle.p9_declare.specs.Judging.{Judges};
ghost use Rattle.p9_parts.specs.Told.{frame_of, part_of, parts_of};

use crate::controls::{
    judged_block, judged_break, judged_continue, judged_loop, judged_return, judged_switch,
    judged_test, sound,
};
use crate::expressions::{judged_expression, judged_name, judged_text};
use crate::heads::{
    judged_declaration, judged_enumerator, judged_function, judged_member, judged_parameter,
    judged_type,
};
use crate::initialisers::{judged_entry, judged_list};
use crate::statements::judged_case;
use crate::steps::{judged_brackets, judged_decl_name, judged_params, judged_step};
use p9_declare::{Shape, TypingFault};
use p9_lang::Kind;
use p9_parts::{Frame, Part, Parts, first_constant};
use p9_scopes::Known;
use std::alloc::Global;

/// What a node is, once its parts are judged; its scopes end.
pub fn judged(
    known: &mut Known,
    alloc: Global,
    kind: &Kind,
    frame: Frame,
    parts: Parts,
) -> Result<Part, TypingFault>
    ensures { (names : List (List ℕ)) → Judges part_of result (known_of known.new)
        (specs.judged kind.now (frame_of names frame) (parts_of parts) (known_of known.old)) }
{
    let role = &frame.context.role;
    match kind {
        Kind::Declaration { .. } => judged_declaration(known, alloc, frame),
        Kind::Function { .. } => judged_function(known, alloc, frame, &parts),
        Kind::Member { .. } => judged_member(known, alloc, frame, parts),
        Kind::EnumConst { name, .. } => judged_enumerator(known, alloc, name, parts),
        Kind::DeclName(name) => judged_decl_name(known, alloc, name, role),
        Kind::Star { .. } => judged_step(known, alloc, parts, Shape::Points),
        Kind::Brackets { .. } => judged_brackets(known, alloc, parts),
        Kind::Params { .. } => judged_params(known, alloc, parts),
        Kind::DeclParens => judged_step(known, alloc, parts, Shape::Keeps),
        Kind::Param { .. } => judged_parameter(known, alloc, frame, &parts),
        Kind::NamedType { .. } => judged_type(known, alloc, frame, &parts),
        Kind::InitList { .. } => judged_list(known, alloc, role, parts.positions()),
        Kind::Entry { by, .. } => judged_entry(known, alloc, by, role, parts.as_slice()),
        Kind::Block => judged_block(known),
        Kind::Expression => sound(known, Part::Statement),
        Kind::If => judged_test(known, &parts, 0),
        Kind::While => judged_test(known, &parts, 0),
        Kind::Do => judged_test(known, &parts, 1),
        Kind::For { first, test, .. } => judged_loop(known, *first, *test, &parts),
        Kind::Switch => judged_switch(known, &parts),
        Kind::Case => judged_case(known, first_constant(parts.as_slice())),
        Kind::Default => sound(known, Part::DefaultLabel),
        Kind::Break => judged_break(known, &frame.context),
        Kind::Continue => judged_continue(known, &frame.context),
        Kind::Return => judged_return(known, alloc, &frame.context.result, &parts),
        Kind::Name(name) => judged_name(known, alloc, name),
        Kind::Text(texts) => judged_text(known, alloc, texts.as_slice(), role),
        Kind::Index
        | Kind::Call
        | Kind::Dot { .. }
        | Kind::Post { .. }
        | Kind::Pre { .. }
        | Kind::Unary(_)
        | Kind::SizeofValue
        | Kind::SizeofType
        | Kind::Cast
        | Kind::Binary(_)
        | Kind::Choose
        | Kind::Assign(_)
        | Kind::Comma
        | Kind::Parens
        | Kind::Number { .. }
        | Kind::Character(_) => judged_expression(known, alloc, kind, role, parts),
    }
}
