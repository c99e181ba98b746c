// The data with first values: variables and texts, file by file.
ghost use Rattle.std.specs.Prelude.{◌≡◌, ◌<◌, ◌≤◌, ◌+◌, ◌*◌, ◌^◌, ◌++◌, ◌∷◌, [], All, OnOk, length, flat_map};
ghost use Rattle.p9_base.specs.Numbers.{word_bytes};
ghost use Rattle.p9_form.specs.Sharing.{declared_data, statements, IsSmall};
ghost use Rattle.p9_straight.specs.Layout.{text_bytes, text_in, data_of};
ghost use Rattle.p9_straight.specs.Building.{noted, LaysTo, variable_data};

use crate::places::note;
use crate::words::push_word;
use indexmap::IndexMap;
use p9_base::{Name, NoMemory};
use p9_form::{Declaration, Declarations, File, First, Statement, Statements};
use std::alloc::Global;

const ZEROS: [u8; 4] = [0; 4];

/// Appends a text, a zero byte, and more of them up to a whole word.
pub(crate) fn push_text(init: &mut Vec<u8>, text: &[u8]) -> Result<(), NoMemory>
    ensures { OnOk result (init.new.items ≡ init.old.items ++ text_bytes text.now) }
{
    init.extend_from_slice(text)?;
    init.extend_from_slice(&ZEROS[text.len() % 4..])?;
    Ok(())
}

// A variable with its first value.
fn lay_variable(
    alloc: Global,
    start: u32,
    places: &mut IndexMap<Name, u32>,
    init: &mut Vec<u8>,
    name: &Name,
    value: u32,
) -> Result<(), NoMemory>
    requires { start + length init.old.items < 2 ^ 32 }
    ensures bytes { OnOk result (init.new.items ≡ init.old.items ++ word_bytes value) }
    ensures entries { OnOk result (places.new.entries ≡ noted places.old.entries name.now (start + length init.old.items)) }
{
    let at = (start as usize + init.len()) as u32;
    note(alloc, places, name, at)?;
    push_word(init, value)
}

// What a declaration gives a first value.
fn lay_declaration(
    alloc: Global,
    start: u32,
    places: &mut IndexMap<Name, u32>,
    init: &mut Vec<u8>,
    declaration: &Declaration,
) -> Result<(), NoMemory>
    requires { start + length init.old.items < 2 ^ 32 }
    ensures lays { OnOk result (LaysTo start places.old.entries init.old.items (variable_data (declaration.now ∷ [])) places.new.entries init.new.items []) }
    ensures small { OnOk result (length init.new.items ≤ length init.old.items + 4) }
{
    match declaration.first {
        First::Number(value) => {
            lay_variable(alloc, start, places, init, &declaration.name, value)
        }
        _ => Ok(()),
    }
}

// What declarations give first values.
fn lay_declarations(
    alloc: Global,
    start: u32,
    places: &mut IndexMap<Name, u32>,
    init: &mut Vec<u8>,
    declarations: &Declarations,
) -> Result<(), NoMemory>
    requires { start + (length init.old.items + declared_data declarations.now) < 2 ^ 32 }
    ensures lays { OnOk result (LaysTo start places.old.entries init.old.items (variable_data declarations.now) places.new.entries init.new.items []) }
    ensures small { OnOk result (length init.new.items ≤ length init.old.items + declared_data declarations.now) }
{
    let mut rest = declarations.list.as_slice();
    while let [declaration, after @ ..] = rest {
        lay_declaration(alloc, start, places, init, declaration)?;
        rest = after;
    }
    Ok(())
}

// The text of a statement.
fn lay_text(init: &mut Vec<u8>, statement: &Statement) -> Result<(), NoMemory>
    ensures { OnOk result (init.new.items ≡ init.old.items ++ flat_map text_bytes (text_in statement.now)) }
{
    match statement {
        Statement::Write { text, .. } | Statement::Exits(Some(text)) => push_text(init, &text.list),
        _ => Ok(()),
    }
}

// The texts of statements.
fn lay_texts(init: &mut Vec<u8>, statements: &[Statement]) -> Result<(), NoMemory>
    ensures { OnOk result (init.new.items ≡ init.old.items ++ flat_map text_bytes (flat_map text_in statements.now)) }
{
    let mut rest = statements;
    while let [statement, after @ ..] = rest {
        lay_text(init, statement)?;
        rest = after;
    }
    Ok(())
}

// The texts of `main`, where there is one.
fn lay_main(init: &mut Vec<u8>, main: &Option<Statements>) -> Result<(), NoMemory>
    ensures { OnOk result (init.new.items ≡ init.old.items ++ flat_map text_bytes (flat_map text_in (statements main.now))) }
{
    match main {
        None => Ok(()),
        Some(statements) => lay_texts(init, &statements.list),
    }
}

// The data of a file.
fn lay_file(
    alloc: Global,
    start: u32,
    places: &mut IndexMap<Name, u32>,
    init: &mut Vec<u8>,
    file: &File,
) -> Result<(), NoMemory>
    requires file { IsSmall file.now }
    requires room { start + (length init.old.items + 131072) < 2 ^ 32 }
    ensures lays { OnOk result (LaysTo start places.old.entries init.old.items (data_of file.now) places.new.entries init.new.items []) }
    ensures small { OnOk result (length init.new.items ≤ length init.old.items + 131072) }
{
    lay_declarations(alloc, start, places, init, &file.before)?;
    lay_declarations(alloc, start, places, init, &file.after)?;
    lay_main(init, &file.main)
}

/// The data of files.
pub(crate) fn lay_files(
    alloc: Global,
    start: u32,
    places: &mut IndexMap<Name, u32>,
    init: &mut Vec<u8>,
    files: &[File],
) -> Result<(), NoMemory>
    requires files { All IsSmall files.now }
    requires room { start + (length init.old.items + 131072 * length files.now) < 2 ^ 32 }
    ensures lays { OnOk result (LaysTo start places.old.entries init.old.items (flat_map data_of files.now) places.new.entries init.new.items []) }
    ensures small { OnOk result (length init.new.items ≤ length init.old.items + 131072 * length files.now) }
{
    let mut rest = files;
    while let [file, after @ ..] = rest {
        lay_file(alloc, start, places, init, file)?;
        rest = after;
    }
    Ok(())
}
