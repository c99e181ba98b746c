//! The R3000: its table of instructions, and its machine with branch slots and load delays.
#![tactic(auto)]

mod code;
mod inst;
mod laws;
mod lines;
mod scheduling;
mod uses;

pub use code::{decode, encode};
pub use inst::Inst;
pub use laws::{machine_laws, pending_laws, straight_laws, text_laws, word_laws};
pub use lines::{Line, Lines, Part, Value};
pub use p9_base::{Asked, Effect, Ending, HaltCause};
pub use scheduling::delayed_laws;
pub use uses::use_laws;
