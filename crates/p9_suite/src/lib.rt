//! The suite's top call.
#![tactic(auto)]

mod answer;
mod commands;
mod copied;
mod halt;
mod message;
mod number;
mod options;
mod put;
mod report;
mod source;
mod stages;
mod top;
mod words;

pub use answer::{Answer, End, Refusal};
pub use message::Message;
pub use top::suite;
