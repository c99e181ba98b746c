// The command `vi`.
ghost use Rattle.std.specs.Prelude.{◌≡◌, MatchOption, Some, None};
ghost use Rattle.p9_suite.specs.Scene.{doing, objects};
ghost use Rattle.p9_suite.specs.Stages.{Makes};
ghost use Rattle.p9_suite.specs.commands.Vi.{ViStages, vi_of, vi_seen, vi_with};

use crate::answer::{Answer, Refusal};
use crate::number::number;
use crate::stages::{read_file, run_file};
use crate::words::is_file;
use p9_base::{Files, Name, Sink, Source};
use p9_headline::DEFAULT_BUDGET;
use std::alloc::Global;

/// The file is simulated for at most `budget` instructions.
#[derive(Clone, Copy)]
pub(crate) struct Vi<'a> {
    pub(crate) budget: u32,
    pub(crate) file: &'a Name,
}

// `vi` of a file.
fn vi_with(budget: u32, file: &Name) -> Option<Vi<'_>>
    ensures { MatchOption result (vi_with (Some budget) file.now ≡ None) (λ vi. vi_with (Some budget) file.now ≡ Some (vi_seen vi)) }
{
    if is_file(&file.list) {
        Some(Vi { budget, file })
    } else {
        None
    }
}

/// The words behind `vi`.
pub(crate) fn vi_of(words: &[Name]) -> Option<Vi<'_>>
    ensures { MatchOption result (vi_of words.now ≡ None) (λ vi. vi_of words.now ≡ Some (vi_seen vi)) }
{
    match words {
        [file] => vi_with(DEFAULT_BUDGET, file),
        [option, digits, file] => {
            if option.list.as_slice() == b"-n".as_slice() {
                match number(&digits.list) {
                    Some(budget) => vi_with(budget, file),
                    None => None,
                }
            } else {
                None
            }
        }
        _ => None,
    }
}

/// Reads an executable and simulates it for at most `budget` instructions.
pub(crate) fn read_and_run<I: Source, O: Sink, F: Files>(
    alloc: Global,
    file: &Name,
    budget: u32,
    input: &mut I,
    out: &mut O,
    files: &mut F,
) -> Result<Answer, Refusal>
    ensures { Makes (doing I.did O.did F.did) (objects input.old out.old files.old) (objects input.new out.new files.new)
        (ViStages (record { budget = budget; file = file.now })) result }
{
    let bytes = read_file(alloc, file, files)?;
    run_file(alloc, &file.list, &bytes, budget, input, out)
}
