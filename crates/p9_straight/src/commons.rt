// The variables without first values: a word for each, behind the data with first values.
ghost use Rattle.std.specs.Prelude.{◌≡◌, ◌<◌, ◌≤◌, ◌+◌, ◌*◌, ◌^◌, ◌∷◌, [], All, OnOk, length, flat_map};
ghost use Rattle.p9_form.specs.Sharing.{declared_data, tentative_in, tentatives, IsSmall};
ghost use Rattle.p9_straight.specs.Building.{AddsTo, commons_in};

use crate::places::note;
use indexmap::IndexMap;
use p9_base::{Name, NoMemory};
use p9_form::{Declaration, Declarations, File, First};
use std::alloc::Global;

// A word for a name that has no place yet.
fn add_common(
    alloc: Global,
    places: &mut IndexMap<Name, u32>,
    next: &mut u32,
    name: &Name,
) -> Result<(), NoMemory>
    requires { next.old + 4 < 2 ^ 32 }
    ensures adds { OnOk result (AddsTo places.old.entries next.old (name.now ∷ []) places.new.entries next.new []) }
    ensures small { OnOk result (next.new ≤ next.old + 4) }
{
    if note(alloc, places, name, *next)? {
        *next += 4;
    }
    Ok(())
}

// A word for what a declaration declares without a first value.
fn add_declaration(
    alloc: Global,
    places: &mut IndexMap<Name, u32>,
    next: &mut u32,
    declaration: &Declaration,
) -> Result<(), NoMemory>
    requires { next.old + 4 < 2 ^ 32 }
    ensures adds { OnOk result (AddsTo places.old.entries next.old (tentative_in declaration.now) places.new.entries next.new []) }
    ensures small { OnOk result (next.new ≤ next.old + 4) }
{
    match declaration.first {
        First::Zero => add_common(alloc, places, next, &declaration.name),
        _ => Ok(()),
    }
}

// A word for each name that declarations declare without a first value.
fn add_declarations(
    alloc: Global,
    places: &mut IndexMap<Name, u32>,
    next: &mut u32,
    declarations: &Declarations,
) -> Result<(), NoMemory>
    requires { next.old + declared_data declarations.now < 2 ^ 32 }
    ensures adds { OnOk result (AddsTo places.old.entries next.old (flat_map tentative_in declarations.now) places.new.entries next.new []) }
    ensures small { OnOk result (next.new ≤ next.old + declared_data declarations.now) }
{
    let mut rest = declarations.list.as_slice();
    while let [declaration, after @ ..] = rest {
        add_declaration(alloc, places, next, declaration)?;
        rest = after;
    }
    Ok(())
}

// A word for each name that a file declares without a first value.
fn add_file(
    alloc: Global,
    places: &mut IndexMap<Name, u32>,
    next: &mut u32,
    file: &File,
) -> Result<(), NoMemory>
    requires file { IsSmall file.now }
    requires room { next.old + 131072 < 2 ^ 32 }
    ensures adds { OnOk result (AddsTo places.old.entries next.old (commons_in file.now) places.new.entries next.new []) }
    ensures small { OnOk result (next.new ≤ next.old + 131072) }
{
    add_declarations(alloc, places, next, &file.before)?;
    add_declarations(alloc, places, next, &file.after)
}

/// A word for each name that files declare without a first value.
pub(crate) fn add_files(
    alloc: Global,
    places: &mut IndexMap<Name, u32>,
    next: &mut u32,
    files: &[File],
) -> Result<(), NoMemory>
    requires files { All IsSmall files.now }
    requires room { next.old + 131072 * length files.now < 2 ^ 32 }
    ensures adds { OnOk result (AddsTo places.old.entries next.old (tentatives files.now) places.new.entries next.new []) }
    ensures small { OnOk result (next.new ≤ next.old + 131072 * length files.now) }
{
    let mut rest = files;
    while let [file, after @ ..] = rest {
        add_file(alloc, places, next, file)?;
        rest = after;
    }
    Ok(())
}
