//! Signatures: the text of a type, which two types share exactly where they agree to every depth.
#![tactic(auto)]

mod fault;
mod laws;
mod met;
mod writer;

pub use fault::SigFault;
pub use laws::{text_examples, texts_tell_types, types_have_texts};
pub use writer::signature;
