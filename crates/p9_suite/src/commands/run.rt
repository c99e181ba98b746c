// The command `run`.
ghost use Rattle.std.specs.Prelude.{◌≡◌, ◌≤◌, [], length, All, MatchOption, Some, None};
ghost use Rattle.p9_base.specs.Calls.{Call};
ghost use Rattle.p9_base.specs.Outside.{FileCall};
ghost use Rattle.p9_first.specs.Form.{IsFile};
ghost use Rattle.p9_form.specs.Items.{items_of};
ghost use Rattle.p9_form.specs.Sharing.{IsSmall};
ghost use Rattle.p9_suite.specs.Requests.{budgeted_seen};
ghost use Rattle.p9_suite.specs.Scene.{doing, objects};
ghost use Rattle.p9_suite.specs.Stages.{Makes, MakesOnStore};
ghost use Rattle.p9_suite.specs.commands.Run.{Links, LinksAndRuns, ReadsForm, ReadsForms, RunStages, TakesForm, run_of, run_seen};

mod request;

use crate::answer::{Answer, Refusal};
pub(crate) use crate::commands::run::request::Run;
use crate::options::{Budgeted, Named};
use crate::stages::{read_file, write_and_run};
use p9_base::{Bytes, Files, Name, Sink, Source};
use p9_form::{File, FileList};
use p9_share::join;
use p9_straight::compile;
use std::alloc::Global;

/// `run` takes so many C sources at most.
const MOST_FILES: usize = 16;

/// `run` of C sources.
pub(crate) fn run_of(words: Budgeted<'_>) -> Option<Run<'_>>
    ensures { MatchOption result (run_of (budgeted_seen words.entry) ≡ None) (λ run. run_of (budgeted_seen words.entry) ≡ Some (run_seen run)) }
{
    let Named { output, files } = words.made;
    if files.len() <= MOST_FILES {
        Some(Run {
            budget: words.budget,
            output,
            files,
        })
    } else {
        None
    }
}

// Takes bytes as a file of the form. A refusal names the file by `name`.
fn form_of(alloc: Global, name: &Name, bytes: &Bytes) -> Result<File, Refusal>
    ensures { TakesForm {C = FileCall} name.now bytes.now result [] }
{
    match p9_form::read_file(alloc, bytes)? {
        Some(file) => Ok(file),
        None => Err(Refusal::NotBuilt(name.copied(alloc)?)),
    }
}

// Reads a file of the form.
fn read_form<F: Files>(alloc: Global, name: &Name, files: &mut F) -> Result<File, Refusal>
    ensures { MakesOnStore F.did files.old files.new (ReadsForm name.now) result }
{
    let bytes = read_file(alloc, name, files)?;
    form_of(alloc, name, &bytes)
}

// Reads files of the form in order.
fn read_forms<F: Files>(alloc: Global, names: &[Name], files: &mut F) -> Result<FileList, Refusal>
    ensures { MakesOnStore F.did files.old files.new (ReadsForms names.now) result }
{
    let mut list = Vec::new(alloc);
    let mut rest = names;
    while let [name, after @ ..] = rest {
        let file = read_form(alloc, name, files)?;
        let Ok(()) = list.push(file) else {
            return Err(Refusal::Memory);
        };
        rest = after;
    }
    Ok(FileList { list })
}

// Joins files and compiles them.
fn link(alloc: Global, list: &FileList) -> Result<Bytes, Refusal>
    requires form { All (λ f. IsFile (items_of f)) list.now }
    requires small { All IsSmall list.now }
    requires count { length list.now ≤ 16 }
    ensures { Links {C = Call} list.now result [] }
{
    match join(alloc, list) {
        Ok(()) => Ok(compile(alloc, list)?),
        Err(why) => Err(Refusal::Link(why)),
    }
}

// Joins and compiles files, writes the executable and simulates it.
fn link_and_run<I: Source, O: Sink, F: Files>(
    alloc: Global,
    list: &FileList,
    output: &[u8],
    budget: u32,
    input: &mut I,
    out: &mut O,
    files: &mut F,
) -> Result<Answer, Refusal>
    requires form { All (λ f. IsFile (items_of f)) list.now }
    requires small { All IsSmall list.now }
    requires count { length list.now ≤ 16 }
    ensures { Makes (doing I.did O.did F.did) (objects input.old out.old files.old) (objects input.new out.new files.new)
        (LinksAndRuns output.now budget list.now) result }
{
    let bytes = link(alloc, list)?;
    write_and_run(alloc, &bytes, output, budget, input, out, files)
}

/// Compiles files, writes the executable by the name `output`, and simulates it for at most `budget`
/// instructions.
pub(crate) fn compile_and_run<I: Source, O: Sink, F: Files>(
    alloc: Global,
    names: &[Name],
    output: &[u8],
    budget: u32,
    input: &mut I,
    out: &mut O,
    files: &mut F,
) -> Result<Answer, Refusal>
    requires { length names.now ≤ 16 }
    ensures { Makes (doing I.did O.did F.did) (objects input.old out.old files.old) (objects input.new out.new files.new)
        (RunStages (record { budget = budget; output = output.now; files = names.now })) result }
{
    let list = read_forms(alloc, names, files)?;
    link_and_run(alloc, &list, output, budget, input, out, files)
}
