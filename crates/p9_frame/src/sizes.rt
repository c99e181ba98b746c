// The frame: offsets of automatics, and its size.

ghost use Rattle.std.specs.Prelude.{◌≡◌, ◌↔◌, ◌^◌, ◌<◌, ◌≤◌, max, IsTrue, IfOk};
ghost use Rattle.p9_abs.specs.Forms.{decoded};
ghost use Rattle.p9_frame.specs.Sizes.{rounded, stack_offset, offset_in, offset_of, greatest_named, first_offset, offsets_from, end_from, stated_sum};

use p9_abs::{AFunction, Abs, Form, Location, decoded};
use p9_base::NoMemory;
use std::alloc::Global;

fn stack_offset(location: Location) -> u32
    ensures { result ≡ stack_offset location }
{
    match location {
        Location::Based(29, offset) => offset,
        _ => 0,
    }
}

fn offset_in(form: Form) -> u32
    ensures { result ≡ offset_in form }
{
    match form {
        Form::Load(_, from, _) => stack_offset(from),
        Form::Store(_, _, to) => stack_offset(to),
        _ => 0,
    }
}

fn offset_of(form: Option<Form>) -> u32
    ensures { result ≡ offset_of form }
{
    match form {
        None => 0,
        Some(form) => offset_in(form),
    }
}

fn larger(a: u32, b: u32) -> u32
    ensures { result ≡ max a b }
{
    a.max(b)
}

fn greatest_named(code: &[Abs]) -> u32
    ensures { result ≡ greatest_named code.now }
{
    let mut greatest = 0;
    for a in code {
        greatest = larger(offset_of(decoded(a)), greatest);
    }
    greatest
}

fn rounded(size: u32) -> u64
    ensures { result ≡ rounded size }
{
    (u64::from(size) + 3) / 4 * 4
}

/// Where the automatics begin: behind the return address, the word of the first argument, and all
/// words that the code names.
pub(crate) fn first_offset(code: &[Abs]) -> u64
    ensures { result ≡ first_offset (greatest_named code.now) }
{
    rounded(greatest_named(code).max(4)) + 4
}

/// Offsets of automatics, and where they end.
#[derive(Drop)]
pub(crate) struct Offsets {
    pub list: Vec<u32>,
    pub end: u32,
}

/// Places automatics of these sizes one after the other.
pub(crate) fn offsets_of(alloc: Global, first: u64, sizes: &[u32]) -> Result<Offsets, NoMemory>
    requires { end_from first sizes.now < 2 ^ 32 }
    ensures list { IfOk result (λ offsets. offsets.list.items ≡ offsets_from first sizes.now) }
    ensures end { IfOk result (λ offsets. offsets.end ≡ end_from first sizes.now) }
{
    let mut list = Vec::new(alloc);
    let mut at = first;
    for size in sizes {
        list.push(at as u32)?;
        at += rounded(*size);
    }
    Ok(Offsets {
        list,
        end: at as u32,
    })
}

/// The greatest frame.
const LIMIT: u64 = 16777212;

fn sum_fits(first: u64, sizes: &[u32]) -> bool
    requires { first < 2 ^ 33 }
    ensures { IsTrue result ↔ (end_from first sizes.now ≤ 16777212) }
{
    let mut total = first;
    for size in sizes {
        total += rounded(*size);
        if total > LIMIT {
            return false;
        }
    }
    total <= LIMIT
}

/// Whether 8 bytes, the greatest offset that the function names from R29, and its automatics, each
/// rounded up to 4, come to a frame within the limit.
pub fn has_room(f: &AFunction) -> bool
    ensures { IsTrue result ↔ (stated_sum f.now ≤ 16777212) }
{
    sum_fits(8 + rounded(greatest_named(&f.code.list)), &f.autos.list)
}
