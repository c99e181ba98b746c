// The table of what homes hold.

ghost use Rattle.std.specs.Prelude.{◌≡◌, ◌*◌, ◌+◌, ◌<◌, ◌≤◌, ◌^◌, ℕ, All, IfOk, length, replicate, Some, None};
ghost use Rattle.p9_abs.specs.Regions.{AreHomes};
ghost use Rattle.p9_homes.specs.Tables.{AreWithin, AreMarked, IsTable};

use p9_abs::{Homes, Points, Region, Regions};
use p9_base::NoMemory;
use std::alloc::Global;
use std::marker::Model;

/// The first register that is a home.
pub(crate) const FIRST: u8 = 9;

/// How many registers are homes.
pub(crate) const HOMES: u8 = 12;

/// For each instruction in turn, the automatics that R9 to R20 hold there.
#[derive(Drop)]
pub struct Table {
    pub list: Vec<Option<u32>>,
}

impl Model for Table {
    ghost use Rattle.std.specs.Prelude.{List, Option, ℕ};

    ghost Value = { List (Option ℕ) };

    ghost view = { λ t. t.list.items };
}

// Home g holds v at each of the points.
fn mark(points: &[u32], v: u32, g: u8, cells: &mut [Option<u32>])
    requires home { g < 12 }
    requires within { All (λ i. i * 12 + 12 ≤ length cells.old) points.now }
    ensures { AreMarked points.now v g cells.old cells.new }
{
    for i in points {
        cells[*i as usize * HOMES as usize + g as usize] = Some(v);
    }
}

fn mark_region(points: &Points, v: u32, home: Option<u8>, cells: &mut [Option<u32>])
    requires within { All (λ i. i * 12 + 12 ≤ length cells.old) points.now }
    ensures none { home ≡ None → cells.new ≡ cells.old }
    ensures some { (g : ℕ) → g < 12 → home ≡ Some (9 + g) → AreMarked points.now v g cells.old cells.new }
{
    if let Some(home) = home {
        if FIRST <= home && home < FIRST + HOMES {
            mark(&points.list, v, home - FIRST, cells);
        }
    }
}

// Each region that has a home stands in it at its points.
fn mark_all(count: usize, regions: &[Region], homes: &[Option<u8>], cells: &mut [Option<u32>])
    requires within { AreWithin count regions.now }
    requires homes { AreHomes regions.now homes.now }
    requires none { IsTable regions.now homes.now 0 count cells.old }
    ensures { IsTable regions.now homes.now (length regions.now) count cells.new }
{
    for k in 0..regions.len() {
        let region = &regions[k];
        mark_region(&region.points, region.auto, homes[k], cells);
    }
}

fn empty(alloc: Global, count: usize) -> Result<Vec<Option<u32>>, NoMemory>
    ensures { IfOk result (λ cells. cells.items ≡ replicate count None) }
{
    let mut cells = Vec::new(alloc);
    for i in 0..count {
        let _ = i;
        cells.push(None)?;
    }
    Ok(cells)
}

/// What each home holds at each of so many instructions.
pub fn table_of(
    alloc: Global,
    regions: &Regions,
    homes: &Homes,
    count: usize,
) -> Result<Table, NoMemory>
    requires few { count < 2 ^ 32 }
    requires within { AreWithin count regions.now }
    requires homes { AreHomes regions.now homes.now }
    ensures { IfOk result (λ table. IsTable regions.now homes.now (length regions.now) count table) }
{
    let mut list = empty(alloc, count * HOMES as usize)?;
    mark_all(count, &regions.list, &homes.list, &mut list);
    Ok(Table { list })
}
