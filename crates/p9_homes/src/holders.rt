// What a table says.

ghost use Rattle.std.specs.Prelude.{◌≡◌, ◌+◌, ◌<◌, Some, if◌then◌else◌};
ghost use Rattle.p9_homes.specs.Tables.{cell, is_it, home_in};

use crate::tables::{FIRST, HOMES, Table};

/// The automatic that home g, counted from R9, holds at instruction i.
pub fn holder(table: &Table, i: u32, g: u8) -> Option<u32>
    ensures { result ≡ cell table.now i g }
{
    match table.list.get(i as usize * HOMES as usize + g as usize) {
        Some(holder) => *holder,
        None => None,
    }
}

fn is_it(v: u32, automatic: Option<u32>) -> bool
    ensures { result ≡ is_it v automatic }
{
    match automatic {
        None => false,
        Some(w) => w == v,
    }
}

fn home_if(found: bool, g: u8, home: Option<u8>) -> Option<u8>
    requires { g < 12 }
    ensures { result ≡ (if found then Some (9 + g) else home) }
{
    if found { Some(FIRST + g) } else { home }
}

/// The home of automatic v at instruction i.
pub fn home_of(table: &Table, i: u32, v: u32) -> Option<u8>
    ensures { result ≡ home_in table.now i v }
{
    let mut home = None;
    for g in 0..HOMES {
        home = home_if(is_it(v, holder(table, i, g)), g, home);
    }
    home
}
