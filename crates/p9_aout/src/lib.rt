//! Executables of the a.out format: an image of text and data as bytes, and bytes as an image.
#![tactic(auto)]

mod format;
mod reader;
mod writer;

pub use format::{AoutFault, AoutSym, Image};
pub use reader::{read_aout, read_with_magic};
pub use writer::write_aout;
