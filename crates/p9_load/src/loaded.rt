// What loading gives.
use p9_base::Bytes;

/// An executable, with the address at which it begins to run, the bytes of its text, and, in the order
/// of the text, the address of each function and behind it those of its instructions.
#[derive(Drop)]
pub struct Loaded {
    pub bytes: Bytes,
    pub entry: u32,
    pub text_size: u32,
    pub places: Vec<u32>,
}
