// The table of commands: of each its words, and what it does.
ghost use Rattle.std.specs.Prelude.{◌≡◌, [], ◌∷◌, MatchOption, Some, None};
ghost use Rattle.p9_suite.specs.CommandLine.{first_source};
ghost use Rattle.p9_suite.specs.Requests.{budgeted_seen, named_seen};
ghost use Rattle.p9_suite.specs.Scene.{doing, objects};
ghost use Rattle.p9_suite.specs.Stages.{Makes};
ghost use Rattle.p9_suite.specs.commands.{TellsNotBuilt, build_of, command_of, command_seen, modules_of, objects_of, running_of, stages};

mod load;
mod run;
mod va;
mod vi;

use crate::answer::{Answer, Refusal};
use crate::commands::load::{Load, load_files};
use crate::commands::run::{Run, compile_and_run, run_of};
use crate::commands::va::{Va, assemble_file, va_of};
use crate::commands::vi::{Vi, read_and_run, vi_of};
use crate::options::{Budgeted, Named, budget_and_files, output_and_files};
use crate::words::{are_sources, first_source};
use p9_base::{Files, Name, Sink, Source, Words};
use std::alloc::Global;

/// What the words ask for.
pub(crate) enum Command<'a> {
    Run(Run<'a>),
    Vi(Vi<'a>),
    Va(Va<'a>),
    Load(Load<'a>),
    /// This C source can't be built where it stands.
    NotBuilt(&'a Name),
}

// `vl` of files.
fn objects_of(made: Named<'_>) -> Command<'_>
    ensures { command_seen result ≡ objects_of (named_seen made.entry) }
{
    let Named { output, files } = made;
    Command::Load(Load {
        by_name: false,
        budget: None,
        output,
        files,
    })
}

// `build` of files, and `run` of files that are not all C sources.
fn modules_of(budget: Option<u32>, made: Named<'_>) -> Command<'_>
    ensures { command_seen result ≡ modules_of budget (named_seen made.entry) (first_source made.entry.files.now) }
{
    let Named { output, files } = made;
    match first_source(files) {
        Some(source) => Command::NotBuilt(source),
        None => Command::Load(Load {
            by_name: true,
            budget,
            output,
            files,
        }),
    }
}

// `run` of files.
fn running_of(words: Budgeted<'_>) -> Option<Command<'_>>
    ensures { MatchOption result (running_of (budgeted_seen words.entry) ≡ None) (λ c. running_of (budgeted_seen words.entry) ≡ Some (command_seen c)) }
{
    let Budgeted { budget, made } = words;
    if are_sources(made.files) {
        match run_of(words) {
            Some(run) => Some(Command::Run(run)),
            None => None,
        }
    } else {
        Some(modules_of(Some(budget), made))
    }
}

// The command of this name with these words.
fn command_with<'a>(name: &[u8], words: &'a [Name]) -> Option<Command<'a>>
    ensures { MatchOption result (command_of (name.now ∷ words.now) ≡ None) (λ c. command_of (name.now ∷ words.now) ≡ Some (command_seen c)) }
{
    if name == b"run".as_slice() {
        match budget_and_files(words) {
            Some(words) => running_of(words),
            None => None,
        }
    } else if name == b"vi".as_slice() {
        match vi_of(words) {
            Some(vi) => Some(Command::Vi(vi)),
            None => None,
        }
    } else if name == b"va".as_slice() {
        match va_of(words) {
            Some(va) => Some(Command::Va(va)),
            None => None,
        }
    } else if name == b"vl".as_slice() {
        match output_and_files(words) {
            Some(made) => Some(objects_of(made)),
            None => None,
        }
    } else if name == b"build".as_slice() {
        match output_and_files(words) {
            Some(made) => Some(modules_of(None, made)),
            None => None,
        }
    } else {
        None
    }
}

/// The command of the words.
pub(crate) fn command_of(words: &Words) -> Option<Command<'_>>
    ensures { MatchOption result (command_of words.now ≡ None) (λ c. command_of words.now ≡ Some (command_seen c)) }
{
    match words.list.as_slice() {
        [name, others @ ..] => command_with(&name.list, others),
        [] => None,
    }
}

// Tells that a C source can't be built where it stands.
fn not_built(alloc: Global, file: &Name) -> Result<Answer, Refusal>
    ensures { TellsNotBuilt file.now result [] }
{
    Err(Refusal::NotBuilt(file.copied(alloc)?))
}

/// Does what a command asks.
pub(crate) fn perform<I: Source, O: Sink, F: Files>(
    alloc: Global,
    command: Command<'_>,
    input: &mut I,
    out: &mut O,
    files: &mut F,
) -> Result<Answer, Refusal>
    ensures { Makes (doing I.did O.did F.did) (objects input.old out.old files.old) (objects input.new out.new files.new)
        (stages (command_seen command.entry)) result }
{
    match command {
        Command::Run(run) => compile_and_run(
            alloc, run.files, run.output, run.budget, input, out, files,
        ),
        Command::Vi(vi) => read_and_run(alloc, vi.file, vi.budget, input, out, files),
        Command::Va(va) => assemble_file(alloc, va, files),
        Command::Load(load) => load_files(alloc, load, input, out, files),
        Command::NotBuilt(file) => not_built(alloc, file),
    }
}
