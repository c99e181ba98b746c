// Options of a command line, and the files behind them.
ghost use Rattle.std.specs.Prelude.{◌≡◌, MatchOption, Some, None};
ghost use Rattle.std.specs.List.{list_all};
ghost use Rattle.p9_suite.specs.CommandLine.{are_files, budget_and_files, budget_behind, budgeted, is_file, named, output_and_files};
ghost use Rattle.p9_suite.specs.Requests.{budgeted_seen, named_seen};

mod request;

use crate::number::number;
pub(crate) use crate::options::request::Named;
use crate::words::is_file;
use p9_base::Name;
use p9_headline::DEFAULT_BUDGET;

/// A command takes so many files at most.
const MOST_FILES: usize = 256;

/// Files, the name by which their executable is written, and the number of instructions that its run
/// has at most.
#[derive(Clone, Copy)]
pub(crate) struct Budgeted<'a> {
    pub(crate) budget: u32,
    pub(crate) made: Named<'a>,
}

// Whether all of these words name files.
fn all_files(words: &[Name]) -> bool
    ensures { result ≡ list_all is_file words.now }
{
    let mut rest = words;
    while let [word, after @ ..] = rest {
        if !is_file(&word.list) {
            return false;
        }
        rest = after;
    }
    true
}

// Files that are written by this name.
fn named_files<'a>(output: &'a [u8], files: &'a [Name]) -> Option<Named<'a>>
    ensures { MatchOption result (named output.now files.now ≡ None) (λ n. named output.now files.now ≡ Some (named_seen n)) }
{
    if is_file(output) && 1 <= files.len() && files.len() <= MOST_FILES && all_files(files) {
        Some(Named { output, files })
    } else {
        None
    }
}

/// Files behind `-o` and a name, or alone.
pub(crate) fn output_and_files(words: &[Name]) -> Option<Named<'_>>
    ensures { MatchOption result (output_and_files words.now ≡ None) (λ n. output_and_files words.now ≡ Some (named_seen n)) }
{
    match words {
        [option, output, files @ ..] => {
            if option.list.as_slice() == b"-o".as_slice() {
                named_files(&output.list, files)
            } else {
                named_files(b"v.out", words)
            }
        }
        [_] => named_files(b"v.out", words),
        [] => None,
    }
}

// Files that are written by this name, with a budget.
fn budgeted_files<'a>(budget: u32, output: &'a [u8], files: &'a [Name]) -> Option<Budgeted<'a>>
    ensures { MatchOption result (budgeted (Some budget) (named output.now files.now) ≡ None) (λ b. budgeted (Some budget) (named output.now files.now) ≡ Some (budgeted_seen b)) }
{
    match named_files(output, files) {
        Some(made) => Some(Budgeted { budget, made }),
        None => None,
    }
}

// Files behind a budget, with `-o` and a name or alone.
fn budget_first(budget: u32, words: &[Name]) -> Option<Budgeted<'_>>
    ensures { MatchOption result (budgeted (Some budget) (output_and_files words.now) ≡ None) (λ b. budgeted (Some budget) (output_and_files words.now) ≡ Some (budgeted_seen b)) }
{
    match output_and_files(words) {
        Some(made) => Some(Budgeted { budget, made }),
        None => None,
    }
}

// Files behind `-o` and a name, with `-n` and a number or alone.
fn budget_behind<'a>(output: &'a [u8], words: &'a [Name]) -> Option<Budgeted<'a>>
    ensures { MatchOption result (budget_behind output.now words.now ≡ None) (λ b. budget_behind output.now words.now ≡ Some (budgeted_seen b)) }
{
    match words {
        [option, digits, files @ ..] => {
            if option.list.as_slice() == b"-n".as_slice() {
                match number(&digits.list) {
                    Some(budget) => budgeted_files(budget, output, files),
                    None => None,
                }
            } else {
                budgeted_files(DEFAULT_BUDGET, output, words)
            }
        }
        [_] => budgeted_files(DEFAULT_BUDGET, output, words),
        [] => None,
    }
}

/// Files behind a budget and an output's name, each or none of them, in any order.
pub(crate) fn budget_and_files(words: &[Name]) -> Option<Budgeted<'_>>
    ensures { MatchOption result (budget_and_files words.now ≡ None) (λ b. budget_and_files words.now ≡ Some (budgeted_seen b)) }
{
    match words {
        [option, value, others @ ..] => {
            if option.list.as_slice() == b"-n".as_slice() {
                match number(&value.list) {
                    Some(budget) => budget_first(budget, others),
                    None => None,
                }
            } else if option.list.as_slice() == b"-o".as_slice() {
                budget_behind(&value.list, others)
            } else {
                budgeted_files(DEFAULT_BUDGET, b"v.out", words)
            }
        }
        [_] => budgeted_files(DEFAULT_BUDGET, b"v.out", words),
        [] => None,
    }
}
