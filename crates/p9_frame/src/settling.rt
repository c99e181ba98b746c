// Functions with their frames.

ghost use Rattle.std.specs.Prelude.{◌≡◌, ◌≤◌, IfOk, length};
ghost use Rattle.p9_abs.specs.Automatics.{IsCode};
ghost use Rattle.p9_abs.specs.Regions.{AreRegions, AreHomes};
ghost use Rattle.p9_abs.specs.Validity.{IsFunction};
ghost use Rattle.p9_abs.specs.Keeping.{IsSettled};
ghost use Rattle.p9_homes.specs.Tables.{AreWithin};
ghost use Rattle.p9_keeps.specs.Addresses.{HasNearAddresses};
ghost use Rattle.p9_frame.specs.Sizes.{end_from, stated_sum};
ghost use Rattle.p9_homed.specs.Plain.{IsPlain};
ghost use Rattle.p9_frame.specs.Making.{first_of, IsMade};

use crate::code::code_of;
use crate::sizes::{first_offset, offsets_of};
use crate::starts::starts;
use p9_abs::{AFunction, Abs, Code, Homes, Regions, TextDef};
use p9_base::NoMemory;
use p9_homes::table_of;
use std::alloc::Global;

fn def_of(
    alloc: Global,
    code: &[Abs],
    sizes: &[u32],
    regions: &Regions,
    homes: &Homes,
) -> Result<TextDef, NoMemory>
    requires within { AreWithin (length code.now) regions.now }
    requires homes { AreHomes regions.now homes.now }
    requires room { end_from (first_of code.now) sizes.now ≤ 16777212 }
    ensures { IfOk result (λ def. IsMade code.now sizes.now regions.now homes.now def) }
{
    if code.len() >= 1 << 32 {
        return Err(NoMemory);
    }
    let table = table_of(alloc, regions, homes, code.len())?;
    let offsets = offsets_of(alloc, first_offset(code), sizes)?;
    let starts = starts(alloc, code, &table)?;
    let frame = offsets.end;
    let list = code_of(
        alloc,
        code,
        sizes,
        &table,
        &offsets.list,
        &starts,
        frame + 4,
    )?;
    Ok(TextDef {
        frame,
        code: Code { list },
    })
}

/// The function with its frame: each automatic stands in the home of its region, or in the frame. 2^32
/// instructions and more are want of memory.
pub fn settle(
    alloc: Global,
    f: &AFunction,
    regions: &Regions,
    homes: &Homes,
) -> Result<TextDef, NoMemory>
    requires code { IsCode f.now }
    requires plain { IsPlain f.now.code }
    requires regions { AreRegions f.now regions.now }
    requires homes { AreHomes regions.now homes.now }
    requires room { stated_sum f.now ≤ 16777212 }
    // Framed from the function, and it keeps its meaning at the same offsets.
    ensures keeps { IfOk result (λ def. IsSettled f.now regions.now homes.now def) }
    ensures valid { HasNearAddresses f.now → IfOk result (λ def. IsFunction def) }
    ensures frame { IfOk result (λ def. def.frame ≤ stated_sum f.now) }
{
    let def = def_of(alloc, &f.code.list, &f.autos.list, regions, homes)?;
    Ok(def)
}
