// Offsets, told exactly up to the limit and as one byte more beyond it.
ghost use Rattle.std.specs.Prelude.{◌≡◌, ◌+◌};
ghost use Rattle.p9_types.specs.Capping.{capped};
ghost use Rattle.p9_types.specs.Offsets.{kept_offset};

use crate::capped::capped_number;

// No type has more bytes.
const LIMIT: u32 = 16_777_216;

/// An offset behind another.
pub(crate) fn moved(offset: u32, by: u32) -> u32
    ensures { result ≡ capped (offset + by) }
{
    capped_number(u64::from(offset) + u64::from(by))
}

/// The offset, if it is within the limit.
pub(crate) fn kept_offset(offset: u32) -> Option<u32>
    ensures { result ≡ kept_offset offset }
{
    if offset <= LIMIT { Some(offset) } else { None }
}
