// Numbers that are asked of the parts so far.
ghost use Rattle.std.specs.Prelude.{◌≡◌, [], ◌∷◌, ◌+◌, ◌%◌, ◌^◌, ℕ, List, nat_lt, if◌then◌else◌, length, IfOk};
ghost use Rattle.std.specs.Option.{option_map};
ghost use Rattle.p9_lang.specs.Parts.{parameter_types, next_value, next_position, positions, Enumerator};
ghost use Rattle.p9_operand.specs.Told.{told_constant};
ghost use Rattle.p9_parts.specs.Told.{part_of};

use crate::part::Part;
use p9_base::{NoMemory, word_sum};
use p9_operand::Constant;

/// How many parameters there are, the value of an enumeration constant without one, the position
/// behind the last entry, and how many positions the entries go to.
#[derive(Clone, Copy, Debug, Drop)]
pub(crate) struct Counts {
    pub(crate) parameters: u32,
    pub(crate) value: u32,
    pub(crate) position: u32,
    pub(crate) positions: u32,
}

fn one_more(count: u32) -> Result<u32, NoMemory>
    ensures { IfOk result (λ more. more ≡ count + 1) }
{
    match count.checked_add(1) {
        Some(more) => Ok(more),
        None => Err(NoMemory),
    }
}

fn next_word(word: u32) -> u32
    ensures { result ≡ (word + 1) % 2 ^ 32 }
{
    word_sum(word, 1)
}

// The value of the constant behind one that has this value written, if any.
fn value_behind(so_far: u32, value: Option<Constant>) -> u32
    ensures { (name : List ℕ) → result ≡ next_value so_far (Enumerator name (option_map told_constant value) ∷ []) }
{
    match value {
        Some(Constant::Value(word)) => next_word(word),
        Some(Constant::NotConstant | Constant::Undefined | Constant::Null) | None => so_far,
    }
}

fn larger(a: u32, b: u32) -> u32
    ensures { result ≡ (if nat_lt a b then b else a) }
{
    if a < b { b } else { a }
}

impl Counts {
    pub(crate) fn new() -> Counts
        ensures { result ≡ record { parameters = 0; value = 0; position = 0; positions = 0 } }
    {
        Counts {
            parameters: 0,
            value: 0,
            position: 0,
            positions: 0,
        }
    }

    /// With one part more.
    pub(crate) fn with(self, part: &Part) -> Result<Counts, NoMemory>
        ensures parameters { IfOk result (λ counts.
            counts.parameters ≡ self.parameters + length (parameter_types (part_of part.now ∷ []))) }
        ensures value { IfOk result (λ counts. counts.value ≡ next_value self.value (part_of part.now ∷ [])) }
        ensures position { IfOk result (λ counts.
            counts.position ≡ next_position self.position (part_of part.now ∷ [])) }
        ensures positions { IfOk result (λ counts.
            counts.positions ≡ positions self.positions (part_of part.now ∷ [])) }
    {
        match part {
            Part::Parameter(_) => {
                let parameters = one_more(self.parameters)?;
                Ok(Counts { parameters, ..self })
            }
            Part::Enumerator { name: _, value } => Ok(Counts {
                value: value_behind(self.value, *value),
                ..self
            }),
            Part::Filled(next) => Ok(Counts {
                position: *next,
                positions: larger(self.positions, *next),
                ..self
            }),
            Part::Value(_)
            | Part::Declarator(_)
            | Part::Object { .. }
            | Part::Members(_)
            | Part::NamedType(_)
            | Part::Braced(_)
            | Part::CaseLabel(_)
            | Part::DefaultLabel
            | Part::Statement => Ok(self),
        }
    }
}
