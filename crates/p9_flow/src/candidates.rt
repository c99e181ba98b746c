// Which automatics may have a register: small ones that are only read and written whole.

ghost use Rattle.std.specs.Prelude.{◌≡◌, ◌==◌, ◌&&◌, ℕ, IfOk, map, nat_le, slice_index, slice_index_or, false, length};
ghost use Rattle.p9_abs.specs.declared.instructions.AFunction.{AFunction};
ghost use Rattle.p9_abs.specs.Automatics.{is_candidate};
ghost use Rattle.p9_abs.specs.Forms.{decoded};
ghost use Rattle.p9_abs.specs.Steps.{bytes_of};
ghost use Rattle.p9_flow.specs.Acts.{part_of, barred_by, barred_at, without, AreFitBelow};

use crate::acts::automatic_of;
use p9_abs::{AFunction, Abs, Form, Location, Width, decoded};
use p9_base::NoMemory;
use std::alloc::Global;

fn bytes_of(width: Width) -> u32
    ensures { result ≡ bytes_of width }
{
    match width {
        Width::Word => 4,
        Width::SignedHalf => 2,
        Width::UnsignedHalf => 2,
        Width::SignedByte => 1,
        Width::UnsignedByte => 1,
    }
}

fn size_of(autos: &[u32], v: u32) -> u32
    ensures { result ≡ slice_index autos.now v }
{
    match autos.get(v as usize) {
        Some(size) => *size,
        None => 0,
    }
}

fn part_of(autos: &[u32], width: Width, location: Location) -> Option<u32>
    ensures { result ≡ part_of autos.now width location }
{
    match location {
        Location::Automatic(v, offset) => {
            if offset == 0 && bytes_of(width) == size_of(autos, v) {
                None
            } else {
                Some(v)
            }
        }
        _ => None,
    }
}

fn barred_by(autos: &[u32], form: Form) -> Option<u32>
    ensures { result ≡ barred_by autos.now form }
{
    match form {
        Form::SetAddress(location, _) => automatic_of(location),
        Form::Load(width, from, _) => part_of(autos, width, from),
        Form::Store(width, _, to) => part_of(autos, width, to),
        _ => None,
    }
}

fn barred_at(autos: &[u32], a: &Abs) -> Option<u32>
    ensures { result ≡ barred_at autos.now (decoded a.now) }
{
    match decoded(a) {
        Some(form) => barred_by(autos, form),
        None => None,
    }
}

fn bar(candidates: &mut Vec<bool>, automatic: Option<u32>)
    ensures { candidates.new.items ≡ without candidates.old.items automatic }
{
    if let Some(v) = automatic {
        if (v as usize) < candidates.len() {
            candidates[v as usize] = false;
        }
    }
}

fn small(alloc: Global, autos: &[u32]) -> Result<Vec<bool>, NoMemory>
    ensures { IfOk result (λ small. small.items ≡ map (λ size. nat_le size 4) autos.now) }
{
    let small = autos.iter().map(|size| *size <= 4).collect(alloc)?;
    Ok(small)
}

fn candidates_of(alloc: Global, autos: &[u32], code: &[Abs]) -> Result<Vec<bool>, NoMemory>
    ensures { IfOk result (λ candidates. AreFitBelow autos.now code.now (length code.now) candidates.items) }
{
    let mut candidates = small(alloc, autos)?;
    for a in code {
        bar(&mut candidates, barred_at(autos, a));
    }
    Ok(candidates)
}

/// Of each automatic whether it is a candidate for a register: it has at most 4 bytes, its address
/// isn't taken, and each access is to the whole of it.
pub fn register_candidates(alloc: Global, f: &AFunction) -> Result<Vec<bool>, NoMemory>
    ensures { IfOk result (λ candidates. (v : ℕ) → slice_index_or candidates.items v false ≡ is_candidate f.now v) }
{
    let candidates = candidates_of(alloc, &f.autos.list, &f.code.list)?;
    Ok(candidates)
}
