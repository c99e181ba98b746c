// Files that are read, by name and number.

use p9_base::{Bytes, Name};

/// A file: its name, its place in the list of the unit's files, and its bytes.
#[derive(Drop)]
pub struct Source {
    pub name: Name,
    pub number: u32,
    pub bytes: Bytes,
}
