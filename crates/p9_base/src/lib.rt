//! What every crate of the suite stands on: lists of bytes, the outside as a source, a sink and a
//! store of files, words of 32 bits, and what a machine's effects, halts and system calls are.
#![tactic(auto)]

mod adapters;
mod bytes;
mod halt;
mod memory;
mod numbers;
mod order;
mod outside;
mod streams;
mod words;

pub use adapters::{HostFiles, ReadSource, WriteSink};
pub use bytes::{Bytes, Calls, Entry, Name, NoMemory, Words};
pub use halt::{Asked, Effect, Ending, HaltCause};
pub use memory::{MemFiles, MemSink, MemSource};
pub use numbers::{field, get32, put32, sext8, sext16};
pub use order::ByteOrder;
pub use outside::{FileFault, Files, Got, Put, Sink, Source, Took};
pub use streams::{fill, fill_at, put_all};
pub use words::{
    is_negative, is_signed_less, low8, low16, shift_left, shift_right, shift_right_signed,
    signed_product, signed_quotient, signed_remainder, unsigned_product, word_and, word_complement,
    word_difference, word_negation, word_nor, word_or, word_product, word_sum, word_xor,
};
