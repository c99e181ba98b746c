//! Abstract instructions, the functions and modules that are made of them, and what an instruction
//! weighs.
#![tactic(auto)]

mod forms;
mod instructions;
mod laws;
mod modules;
mod regions;
mod weights;

pub use forms::{
    Calculation, Form, Location, OperandKind, PairTest, Product, SignTest, Special, Width, decoded,
    form_of, operand_kind,
};
pub use instructions::{AFunction, Abs, Autos, Code, Depths, Op, Operand, Operands, TextDef};
pub use laws::{code_laws, live_examples, program_laws, step_laws, undefined_examples};
pub use modules::{AModule, Body, DataPiece, Def, Pieces, Symbol, Symbols};
pub use regions::{Homes, Points, Region, Regions};
pub use weights::{weight, words_of};
