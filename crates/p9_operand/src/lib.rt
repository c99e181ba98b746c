//! Operands of C: kinds of types, integers, what an operand is as a constant and as a value, and the
//! rules that it may break.
#![tactic(auto)]

mod constants;
mod converting;
mod copying;
mod integers;
mod kinds;
mod operand;
mod parts;
mod rule;
mod values;
mod words;

pub use constants::{constant_at, is_null_constant};
pub use converting::{conversion_rules, value_rules};
pub use copying::copied;
pub use integers::{are_integers, common, is_unsigned, number_type, promoted};
pub use kinds::{
    is_array, is_character, is_complete, is_complete_pointer, is_function, is_scalar, is_structure,
    is_within_limit, points_to_function, points_to_object, points_to_void,
};
pub use operand::{Constant, Operand, Verdict};
pub use parts::{one, three, two};
pub use rule::{Rule, RuleFault, breaks_if, least_of_both};
pub use values::{ValueType, value_type};
pub use words::{narrowed, word_operation};
