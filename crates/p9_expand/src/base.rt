// What the start puts into R30.
ghost use Rattle.std.specs.Prelude.{◌≡◌, length, unwrap_or};
ghost use Rattle.p9_abs.specs.Programs.{same_def};
ghost use Rattle.p9_expand.specs.Base.{behind, spot_offset};

use p9_abs::Def;
use p9_place::Spot;

/// The symbol of the built-in module that is `_argv`.
pub(crate) const ARGUMENT_LIST: u32 = 1;

/// R30 is so many bytes behind the data start.
const BASE_BYTES: u64 = 32_766;

fn is_at(spot: &Spot, def: Def) -> bool
    ensures { result ≡ same_def (record { «module» = spot.now.«module»; symbol = spot.now.symbol }) def }
{
    spot.module == def.module && spot.symbol == def.symbol
}

/// The offset of a definition among spots.
pub(crate) fn spot_offset(spots: &[Spot], def: Def) -> Option<u32>
    ensures { result ≡ spot_offset spots.now def }
{
    let mut rest = spots;
    while let [spot, after @ ..] = rest {
        if is_at(spot, def) {
            return Some(spot.offset);
        }
        rest = after;
    }
    None
}

/// Where R30 points, from what lies at an offset from the data start.
pub(crate) fn behind(offset: u32) -> u32
    ensures { result ≡ behind offset }
{
    ((BASE_BYTES + 0x1_0000_0000 - u64::from(offset)) % 0x1_0000_0000) as u32
}
