// The regions of a function.

ghost use Rattle.std.specs.Prelude.{◌≡◌, ◌<◌, ◌^◌, ◌/◌, ℕ, false, length, slice_index_or, IfOk, OnOk};
ghost use Rattle.p9_abs.specs.Automatics.{is_candidate};
ghost use Rattle.p9_abs.specs.Regions.{AreRegions};
ghost use Rattle.p9_flow.specs.Rows.{AreLiveRows};
ghost use Rattle.p9_region.specs.Picking.{picked, column_bit};
ghost use Rattle.p9_region.specs.Finding.{points_in, AddsIf, AddsRegions};

use crate::classes::labels_of;
use crate::edges::edges;
use crate::groups::add_groups;
use crate::points::{next_column, points};
use crate::steps::{Step, steps};
use p9_abs::{AFunction, Region, Regions};
use p9_base::NoMemory;
use p9_flow::{Rows, register_candidates};
use std::alloc::Global;

// Adds the regions of an automatic with these points.
fn add_points(
    alloc: Global,
    steps: &[Step],
    bits: &[u64],
    width: u32,
    v: u32,
    points: &[u32],
    regions: &mut Vec<Region>,
) -> Result<(), NoMemory>
    requires few { length steps.now < 2 ^ 32 }
    requires points { points.now ≡ points_in steps.now bits.now width v }
    ensures { OnOk result (AddsRegions steps.now bits.now width v regions.old.items regions.new.items) }
{
    let edges = edges(alloc, steps, bits, width, v, points)?;
    let labels = labels_of(alloc, &edges, points.len() as u32)?;
    add_groups(alloc, v, points, &labels, regions)?;
    Ok(())
}

// Adds the regions of an automatic that is a candidate, from the points of its column.
fn add_automatic(
    alloc: Global,
    is_candidate: bool,
    steps: &[Step],
    bits: &[u64],
    width: u32,
    v: u32,
    column: &[u32],
    regions: &mut Vec<Region>,
) -> Result<(), NoMemory>
    requires few { length steps.now < 2 ^ 32 }
    requires column { column.now ≡ picked (column_bit steps.now bits.now width (v / 64)) (length steps.now) }
    ensures { OnOk result (AddsIf is_candidate steps.now bits.now width v regions.old.items regions.new.items) }
{
    if !is_candidate {
        return Ok(());
    }
    let points = points(alloc, steps, bits, width, v, column)?;
    add_points(alloc, steps, bits, width, v, &points, regions)?;
    Ok(())
}

fn regions_of(
    alloc: Global,
    f: &AFunction,
    rows: &Rows,
    candidates: &[bool],
) -> Result<Vec<Region>, NoMemory>
    requires rows { AreLiveRows f.now rows.now }
    requires candidates { (v : ℕ) → slice_index_or candidates.now v false ≡ is_candidate f.now v }
    ensures { IfOk result (λ regions. AreRegions f.now regions.items) }
{
    let steps = steps(alloc, &f.code.list)?;
    if steps.len() >= 1 << 32 || candidates.len() >= 1 << 32 {
        return Err(NoMemory);
    }
    let mut list = Vec::new(alloc);
    let mut column = Vec::new(alloc);
    for v in 0..candidates.len() as u32 {
        column = next_column(alloc, &steps, &rows.bits, rows.width, v, column)?;
        add_automatic(
            alloc,
            candidates[v as usize],
            &steps,
            &rows.bits,
            rows.width,
            v,
            &column,
            &mut list,
        )?;
    }
    Ok(list)
}

/// The regions of a function, by automatic and then by least point. 2^32 instructions or automatics
/// and more are want of memory.
pub fn regions(alloc: Global, f: &AFunction, rows: &Rows) -> Result<Regions, NoMemory>
    requires { AreLiveRows f.now rows.now }
    ensures { IfOk result (λ regions. AreRegions f.now regions) }
{
    let candidates = register_candidates(alloc, f)?;
    let list = regions_of(alloc, f, rows, &candidates)?;
    Ok(Regions { list })
}
