// The command `va`.
ghost use Rattle.std.specs.Prelude.{◌≡◌, ◌≢◌, ◌⊎◌, [], MatchOption, Some, None};
ghost use Rattle.p9_base.specs.Outside.{FileCall};
ghost use Rattle.p9_object.specs.Fields.{spelling};
ghost use Rattle.p9_suite.specs.CommandLine.{object_name};
ghost use Rattle.p9_suite.specs.Stages.{MakesOnStore, WritesFile};
ghost use Rattle.p9_suite.specs.commands.Va.{Assembles, AssemblesFile, output_of, va_of, va_seen, va_with};

use crate::answer::{Answer, Refusal};
use crate::stages::{read_file, write_file};
use crate::words::{is_assembly, is_file, object_name};
use p9_asm::{AsmFault, assemble};
use p9_base::{Bytes, Files, Name};
use p9_obj::write_obj;
use std::alloc::Global;

/// The name of an object: given by the words, or that of the file with another ending.
#[derive(Clone, Copy)]
pub(crate) enum ObjectName<'a> {
    Given(&'a Name),
    Derived,
}

/// The file is assembled, and its object written.
#[derive(Clone, Copy)]
pub(crate) struct Va<'a> {
    pub(crate) output: ObjectName<'a>,
    pub(crate) file: &'a Name,
}

// `va` of a file.
fn va_with<'a>(output: ObjectName<'a>, file: &'a Name) -> Option<Va<'a>>
    ensures { MatchOption result (va_with (output_of output.entry file.now) file.now ≡ None) (λ va. va_with (output_of output.entry file.now) file.now ≡ Some (va_seen va)) }
{
    if is_assembly(&file.list) {
        Some(Va { output, file })
    } else {
        None
    }
}

/// The words behind `va`.
pub(crate) fn va_of(words: &[Name]) -> Option<Va<'_>>
    ensures { MatchOption result (va_of words.now ≡ None) (λ va. va_of words.now ≡ Some (va_seen va)) }
{
    match words {
        [file] => va_with(ObjectName::Derived, file),
        [option, output, file] => {
            if option.list.as_slice() == b"-o".as_slice() && is_file(&output.list) {
                va_with(ObjectName::Given(output), file)
            } else {
                None
            }
        }
        _ => None,
    }
}

// The refusal of a file by the assembler.
fn refusal(alloc: Global, name: &Name, why: AsmFault) -> Refusal
    ensures { (result ≡ Refusal.Memory) ⊎ ((why ≢ AsmFault.Memory) × (result ≡ Refusal.Assembly name.now why)) }
{
    match why {
        AsmFault::Memory => Refusal::Memory,
        why => match name.copied(alloc) {
            Ok(word) => Refusal::Assembly(word, why),
            Err(_) => Refusal::Memory,
        },
    }
}

/// The object of a file's text. A refusal names the file by `name`.
pub(crate) fn object_of(alloc: Global, name: &Name, text: &Bytes) -> Result<Bytes, Refusal>
    ensures { Assembles {C = FileCall} name.now text.now result [] }
{
    match assemble(alloc, &text.list) {
        Ok(module) => Ok(write_obj(alloc, &module)?),
        Err(why) => Err(refusal(alloc, name, why)),
    }
}

// Writes the object of a file.
fn write_object<F: Files>(
    alloc: Global,
    va: Va<'_>,
    object: &Bytes,
    files: &mut F,
) -> Result<(), Refusal>
    ensures { MakesOnStore F.did files.old files.new (WritesFile (output_of va.entry.output va.entry.file.now) object.now) result }
{
    match va.output {
        ObjectName::Given(output) => write_file(alloc, &output.list, object, files),
        ObjectName::Derived => {
            let file = va.file;
            let output = object_name(alloc, &file.list)?;
            write_file(alloc, &output.list, object, files)
        }
    }
}

/// Reads a file, assembles it, and writes its object.
pub(crate) fn assemble_file<F: Files>(
    alloc: Global,
    va: Va<'_>,
    files: &mut F,
) -> Result<Answer, Refusal>
    ensures { MakesOnStore F.did files.old files.new (AssemblesFile (va_seen va.entry)) result }
{
    let text = read_file(alloc, va.file, files)?;
    let object = object_of(alloc, va.file, &text)?;
    write_object(alloc, va, &object, files)?;
    Ok(Answer::Done)
}
