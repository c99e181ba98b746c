// Steps of declarators.
ghost use Rattle.std.specs.Prelude.{◌≡◌, None, Some, MatchOption};
ghost use Rattle.std.specs.Option.{option_map, option_copied};
ghost use Rattle.std.specs.List.{list_all};
ghost use Rattle.p9_lang.specs.Declarators.{makes_no_type, name_of, own_list};
ghost use Rattle.p9_scopes.specs.Seen.{level_of};
ghost use Rattle.p9_declare.specs.Closing.{is_unsized};
ghost use Rattle.p9_declare.specs.Told.{told_shape, told_step, steps_of};

use p9_lang::{CType, Ident};
use p9_operand::Constant;
use p9_scopes::NameLevel;
use sqlite_items::Items;

/// What a step of a declarator is: its name, parentheses, `*`, brackets with a length or without, or
/// a parameter list with the types of its parameters and the names that it declares.
#[derive(Drop)]
pub enum Shape {
    Names(Ident),
    Keeps,
    Points,
    Sized(Constant),
    Unsized,
    Takes {
        parameters: Items<CType>,
        level: NameLevel,
    },
}

/// A step of a declarator, with its node's number. Steps stand with the innermost, the name, first.
#[derive(Drop)]
pub struct Step {
    pub number: usize,
    pub shape: Shape,
}

/// A declared name, with its node's number.
#[derive(Clone, Copy)]
pub struct NameNode<'a> {
    pub name: &'a Ident,
    pub number: usize,
}

impl Shape {
    /// Brackets without a length.
    pub(crate) fn is_unsized(&self) -> bool
        ensures { result ≡ is_unsized (told_shape self.now) }
    {
        match self {
            Shape::Unsized => true,
            Shape::Names(_)
            | Shape::Keeps
            | Shape::Points
            | Shape::Sized(_)
            | Shape::Takes { .. } => false,
        }
    }
}

fn makes_no_type(step: &Step) -> bool
    ensures { result ≡ makes_no_type (told_step step.now) }
{
    match step.shape {
        Shape::Names(_) | Shape::Keeps => true,
        Shape::Points | Shape::Sized(_) | Shape::Unsized | Shape::Takes { .. } => false,
    }
}

/// Whether a declarator's type is that of its spec.
pub fn make_no_type(steps: &[Step]) -> bool
    ensures { result ≡ list_all makes_no_type (steps_of steps.now) }
{
    let mut rest = steps;
    'steps: while let [step, after @ ..] = rest {
        if !makes_no_type(step) {
            return false;
        }
        rest = after;
    }
    true
}

/// The name that a declarator declares.
pub fn name_of(steps: &[Step]) -> Option<NameNode<'_>>
    ensures { MatchOption result (name_of (steps_of steps.now) ≡ None) (λ n.
        name_of (steps_of steps.now) ≡ Some (record { name = n.name.now; number = n.number })) }
{
    match steps {
        [] => None,
        [step, ..] => match &step.shape {
            Shape::Names(name) => Some(NameNode {
                name,
                number: step.number,
            }),
            Shape::Keeps | Shape::Points | Shape::Sized(_) | Shape::Unsized | Shape::Takes { .. } =>
                None,
        },
    }
}

/// The names of the parameter list that stands next to a declarator's name.
pub fn own_list(steps: &[Step]) -> Option<&NameLevel>
    ensures { option_map level_of (option_copied result) ≡ own_list (steps_of steps.now) }
{
    let mut rest = steps;
    'steps: while let [step, after @ ..] = rest {
        match &step.shape {
            Shape::Names(_) | Shape::Keeps => rest = after,
            Shape::Takes {
                parameters: _,
                level,
            } => return Some(level),
            Shape::Points | Shape::Sized(_) | Shape::Unsized => return None,
        }
    }
    None
}
