// What a register for a region saves.

ghost use Rattle.std.specs.Prelude.{◌≡◌, ◌||◌, ◌^◌, ◌≤◌, ◌<◌, AllPairs, min, sum_by, slice_index};
ghost use Rattle.p9_abs.specs.Automatics.{form_at, is_automatic, reads, writes, reads_at, writes_at};
ghost use Rattle.p9_abs.specs.Regions.{IsRegion, cost_of};
ghost use Rattle.p9_region.specs.Costs.{cost_in};

use p9_abs::{AFunction, Abs, Form, Location, Region, decoded};

fn is_automatic(v: u32, location: Location) -> bool
    ensures { result ≡ is_automatic v location }
{
    match location {
        Location::Automatic(w, _) => w == v,
        _ => false,
    }
}

fn reads(v: u32, form: Form) -> bool
    ensures { result ≡ reads v form }
{
    match form {
        Form::Load(_, from, _) => is_automatic(v, from),
        _ => false,
    }
}

fn writes(v: u32, form: Form) -> bool
    ensures { result ≡ writes v form }
{
    match form {
        Form::Store(_, _, to) => is_automatic(v, to),
        _ => false,
    }
}

fn form_at(code: &[Abs], i: u32) -> Option<Form>
    ensures { result ≡ form_at code.now i }
{
    match code.get(i as usize) {
        Some(a) => decoded(a),
        None => None,
    }
}

fn accesses(code: &[Abs], v: u32, i: u32) -> bool
    ensures { result ≡ reads_at code.now v i || writes_at code.now v i }
{
    match form_at(code, i) {
        Some(form) => reads(v, form) || writes(v, form),
        None => false,
    }
}

fn depth_at(depths: &[u8], i: u32) -> u8
    ensures { result ≡ slice_index depths.now i }
{
    match depths.get(i as usize) {
        Some(depth) => *depth,
        None => 0,
    }
}

#[tactic(auto, using(crate::proofs::Costing::small_power, crate::proofs::Costing::power_fits))]
fn depth_cost(depth: u8) -> u64
    ensures value { result ≡ 4 ^ min depth 8 }
    ensures bound { result ≤ 65536 }
{
    4u64.pow(u32::from(depth.min(8)))
}

fn cost_in(code: &[Abs], depths: &[u8], v: u32, i: u32) -> u64
    ensures value { result ≡ cost_in code.now depths.now v i }
    ensures bound { result ≤ 65536 }
{
    if accesses(code, v, i) {
        depth_cost(depth_at(depths, i))
    } else {
        0
    }
}

fn cost_over(code: &[Abs], depths: &[u8], v: u32, points: &[u32]) -> u64
    requires { AllPairs (λ i j. i < j) points.now }
    ensures { result ≡ sum_by (cost_in code.now depths.now v) points.now }
{
    let mut total = 0;
    for i in points {
        total += cost_in(code, depths, v, *i);
    }
    total
}

/// What a register for the region saves: each read and write of its automatic counts 4 to the power
/// of the loop depth, at most 4^8.
pub fn cost(f: &AFunction, r: &Region) -> u64
    requires { IsRegion f.now r.now }
    ensures { result ≡ cost_of f.now r.now }
{
    cost_over(&f.code.list, &f.depth.list, r.auto, &r.points.list)
}
