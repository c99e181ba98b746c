//! The objects' reader inside an instruction: what one field more makes of the place that it comes at.
#![tactic(auto)]

mod fields;
mod instructions;
mod operands;
mod operations;
mod places;
mod rows;
mod sorts;

pub use fields::{byte, half, word};
pub use instructions::instruction_step;
pub use places::{
    InstructionPlace, InstructionTurn, Limits, OperandPlace, OperandTurn, instruction_width,
};
pub use sorts::Sort;
