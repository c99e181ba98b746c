// Masks of homes that are taken at instructions.

ghost use Rattle.std.specs.Prelude.{◌≡◌, ◌≢◌, ◌<◌, ◌≤◌, ℕ, All, MatchOption, length};
ghost use Rattle.std.specs.Int.{bit_at};
ghost use Rattle.p9_region.specs.Masks.{IsUnion, AreMarked, IsChosen};

/// The first register that is a home.
const FIRST: u8 = 9;

/// How many registers are homes.
const HOMES: u32 = 12;

fn taken(points: &[u32], used: &[u32]) -> u32
    requires { All (λ i. i < length used.now) points.now }
    ensures { IsUnion points.now used.now result }
{
    let mut mask = 0;
    for i in points {
        mask |= used[*i as usize];
    }
    mask
}

// The lowest of the homes' bits that is clear.
fn first_free(mask: u32) -> Option<u32>
    ensures { MatchOption result ((g : ℕ) → g < 12 → bit_at mask g ≡ 1) (λ g. (g < 12) × (bit_at mask g ≢ 1)) }
{
    for g in 0..HOMES {
        if (mask >> g) & 1 == 0 {
            return Some(g);
        }
    }
    None
}

fn mark(points: &[u32], used: &mut [u32], g: u32)
    requires home { g < 12 }
    requires within { All (λ i. i < length used.old) points.now }
    ensures { AreMarked points.now used.old g used.new }
{
    for i in points {
        used[*i as usize] |= 1u32 << g;
    }
}

/// Chooses the first home that isn't taken at any of the points, and takes it there.
pub(crate) fn choose(asked: bool, points: &[u32], used: &mut [u32]) -> Option<u8>
    requires { All (λ i. i < length used.old) points.now }
    ensures { IsChosen asked points.now used.old result used.new }
{
    if !asked {
        return None;
    }
    match first_free(taken(points, used)) {
        None => None,
        Some(g) => {
            mark(points, used, g);
            Some(FIRST + g as u8)
        }
    }
}
