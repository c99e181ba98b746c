// Words of a command line that name files.
ghost use Rattle.std.specs.Prelude.{◌≡◌, IfOk, MatchOption, Some, None};
ghost use Rattle.std.specs.List.{list_all};
ghost use Rattle.p9_suite.specs.CommandLine.{first_source, is_assembly, is_file, is_source, object_name};

use p9_base::{Bytes, Name, NoMemory};
use std::alloc::Global;

/// Whether a word names a file.
pub(crate) fn is_file(word: &[u8]) -> bool
    ensures { result ≡ is_file word.now }
{
    !word.is_empty() && !word.starts_with(b"-")
}

/// Whether a word names a C source.
pub(crate) fn is_source(word: &[u8]) -> bool
    ensures { result ≡ is_source word.now }
{
    word.ends_with(b".c") && !word.starts_with(b"-")
}

/// Whether all of these words name C sources.
pub(crate) fn are_sources(words: &[Name]) -> bool
    ensures { result ≡ list_all is_source words.now }
{
    let mut rest = words;
    while let [word, after @ ..] = rest {
        if !is_source(&word.list) {
            return false;
        }
        rest = after;
    }
    true
}

/// The first of these words that names a C source.
pub(crate) fn first_source(words: &[Name]) -> Option<&Name>
    ensures { MatchOption result (first_source words.now ≡ None) (λ file. first_source words.now ≡ Some file.now) }
{
    let mut rest = words;
    while let [word, after @ ..] = rest {
        if is_source(&word.list) {
            return Some(word);
        }
        rest = after;
    }
    None
}

/// Whether a word names an assembler file.
pub(crate) fn is_assembly(word: &[u8]) -> bool
    ensures { result ≡ is_assembly word.now }
{
    word.ends_with(b".s") && !word.starts_with(b"-")
}

/// The name of an assembler file's object, where the words give none.
pub(crate) fn object_name(alloc: Global, file: &[u8]) -> Result<Bytes, NoMemory>
    ensures { IfOk result (λ name. name ≡ object_name file.now) }
{
    let stem = &file[..file.len().saturating_sub(2)];
    let mut list = stem.to_vec(alloc)?;
    list.extend_from_slice(b".v")?;
    Ok(Bytes { list })
}
