// Copies of bytes.
ghost use Rattle.std.specs.Prelude.{◌≡◌, IfOk};

use p9_base::{Bytes, NoMemory};
use std::alloc::Global;

/// A list with these bytes.
pub(crate) fn copied(alloc: Global, bytes: &[u8]) -> Result<Bytes, NoMemory>
    ensures { IfOk result (λ copy. copy ≡ bytes.now) }
{
    Ok(Bytes {
        list: bytes.to_vec(alloc)?,
    })
}
