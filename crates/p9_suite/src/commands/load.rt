// The commands `vl`, `build` and `run` of assembler files and objects.
ghost use Rattle.std.specs.Prelude.{◌≡◌, ◌≢◌, ◌⊎◌, ◌≤◌, ◌&&◌, [], length, All, Err};
ghost use Rattle.p9_base.specs.Calls.{Call};
ghost use Rattle.p9_base.specs.Outside.{FileCall};
ghost use Rattle.p9_object.specs.Laws.{IsObject};
ghost use Rattle.p9_reader.specs.Answers.{answer};
ghost use Rattle.p9_suite.specs.CommandLine.{is_assembly};
ghost use Rattle.p9_suite.specs.Scene.{doing, objects};
ghost use Rattle.p9_suite.specs.Stages.{Makes, MakesOnStore};
ghost use Rattle.p9_suite.specs.commands.Load.{Decodes, Delivers, LoadStages, LoadsAndDelivers, LoadsModules, ReadsModule, ReadsModules, TakesModule, TakesText, Writes, load_seen};

mod modules;
mod request;

use crate::answer::{Answer, Refusal};
use crate::commands::load::modules::Modules;
pub(crate) use crate::commands::load::request::Load;
use crate::commands::va::object_of;
use crate::stages::{read_file, write_and_run, write_file};
use crate::words::is_assembly;
use p9_abs::AModule;
use p9_base::{Bytes, Files, Name, Sink, Source};
use p9_reader::{ObjFault, ObjReader};
use std::alloc::Global;

/// An object's bytes are given to its reader in pieces of at most so many bytes.
const PIECE: usize = 65_536;

// The module of an object's bytes.
fn read_in_pieces(alloc: Global, bytes: &[u8]) -> Result<AModule, ObjFault>
    ensures { (result ≡ Err ObjFault.Memory) ⊎ (result ≡ answer bytes.now) }
{
    let mut reader = ObjReader::new(alloc)?;
    let mut rest = bytes;
    while !rest.is_empty() {
        let (piece, after) = rest.split_at(rest.len().min(PIECE));
        reader.feed(alloc, piece)?;
        rest = after;
    }
    reader.finish()
}

// The refusal of a file that is no object.
fn refusal(alloc: Global, name: &Name, why: ObjFault) -> Refusal
    ensures { (result ≡ Refusal.Memory) ⊎ ((why ≢ ObjFault.Memory) × (result ≡ Refusal.Object name.now why)) }
{
    match why {
        ObjFault::Memory => Refusal::Memory,
        why => match name.copied(alloc) {
            Ok(word) => Refusal::Object(word, why),
            Err(_) => Refusal::Memory,
        },
    }
}

// Takes bytes as an object. A refusal names the file by `name`.
fn decoded(alloc: Global, name: &Name, bytes: &[u8]) -> Result<AModule, Refusal>
    ensures { Decodes {C = FileCall} name.now bytes.now result [] }
{
    match read_in_pieces(alloc, bytes) {
        Ok(module) => Ok(module),
        Err(why) => Err(refusal(alloc, name, why)),
    }
}

// Takes bytes as an assembler file. Its module too is read from the bytes of its object.
fn text_module(alloc: Global, name: &Name, text: &Bytes) -> Result<AModule, Refusal>
    ensures { TakesText {C = FileCall} name.now text.now result [] }
{
    let object = object_of(alloc, name, text)?;
    decoded(alloc, name, &object.list)
}

// Whether a file is an assembler file.
fn is_text(by_name: bool, name: &Name) -> bool
    ensures { result ≡ by_name && is_assembly name.now }
{
    by_name && is_assembly(&name.list)
}

// Takes bytes as an assembler file or an object.
fn module_of(alloc: Global, by_name: bool, name: &Name, bytes: &Bytes) -> Result<AModule, Refusal>
    ensures { TakesModule {C = FileCall} by_name name.now bytes.now result [] }
{
    if is_text(by_name, name) {
        text_module(alloc, name, bytes)
    } else {
        decoded(alloc, name, &bytes.list)
    }
}

// Reads a file and takes it as a module.
fn read_module<F: Files>(
    alloc: Global,
    by_name: bool,
    name: &Name,
    files: &mut F,
) -> Result<AModule, Refusal>
    ensures { MakesOnStore F.did files.old files.new (ReadsModule by_name name.now) result }
{
    let bytes = read_file(alloc, name, files)?;
    module_of(alloc, by_name, name, &bytes)
}

// Reads files in order and takes them as modules.
fn read_modules<F: Files>(
    alloc: Global,
    by_name: bool,
    names: &[Name],
    files: &mut F,
) -> Result<Modules, Refusal>
    ensures { MakesOnStore F.did files.old files.new (ReadsModules by_name names.now) result }
{
    let mut list = Vec::new(alloc);
    let mut rest = names;
    while let [name, after @ ..] = rest {
        let module = read_module(alloc, by_name, name, files)?;
        let Ok(()) = list.push(module) else {
            return Err(Refusal::Memory);
        };
        rest = after;
    }
    Ok(Modules { list })
}

// The executable of modules.
fn executable_of(alloc: Global, modules: &Modules) -> Result<Bytes, Refusal>
    requires objects { All IsObject modules.now }
    requires count { length modules.now ≤ 256 }
    ensures { LoadsModules {C = Call} modules.now result [] }
{
    match p9_load::load(alloc, &modules.list) {
        Ok(loaded) => Ok(loaded.bytes),
        Err(why) => Err(Refusal::Load(why)),
    }
}

// Writes an executable, and does no more.
fn write_alone<F: Files>(
    alloc: Global,
    output: &[u8],
    bytes: &Bytes,
    files: &mut F,
) -> Result<Answer, Refusal>
    ensures { MakesOnStore F.did files.old files.new (Writes output.now bytes.now) result }
{
    write_file(alloc, output, bytes, files)?;
    Ok(Answer::Done)
}

// Writes an executable, and simulates it where there is a budget.
fn deliver<I: Source, O: Sink, F: Files>(
    alloc: Global,
    bytes: &Bytes,
    request: Load<'_>,
    input: &mut I,
    out: &mut O,
    files: &mut F,
) -> Result<Answer, Refusal>
    ensures { Makes (doing I.did O.did F.did) (objects input.old out.old files.old) (objects input.new out.new files.new)
        (Delivers (load_seen request.entry) bytes.now) result }
{
    match request.budget {
        None => write_alone(alloc, request.output, bytes, files),
        Some(budget) => write_and_run(alloc, bytes, request.output, budget, input, out, files),
    }
}

// Loads modules, and writes the executable.
fn load_and_deliver<I: Source, O: Sink, F: Files>(
    alloc: Global,
    modules: &Modules,
    request: Load<'_>,
    input: &mut I,
    out: &mut O,
    files: &mut F,
) -> Result<Answer, Refusal>
    requires objects { All IsObject modules.now }
    requires count { length modules.now ≤ 256 }
    ensures { Makes (doing I.did O.did F.did) (objects input.old out.old files.old) (objects input.new out.new files.new)
        (LoadsAndDelivers (load_seen request.entry) modules.now) result }
{
    let bytes = executable_of(alloc, modules)?;
    deliver(alloc, &bytes, request, input, out, files)
}

/// Reads files as modules, loads these, writes the executable, and simulates it where there is a budget.
pub(crate) fn load_files<I: Source, O: Sink, F: Files>(
    alloc: Global,
    request: Load<'_>,
    input: &mut I,
    out: &mut O,
    files: &mut F,
) -> Result<Answer, Refusal>
    ensures { Makes (doing I.did O.did F.did) (objects input.old out.old files.old) (objects input.new out.new files.new)
        (LoadStages (load_seen request.entry)) result }
{
    let modules = read_modules(alloc, request.by_name, request.files, files)?;
    load_and_deliver(alloc, &modules, request, input, out, files)
}
