// The names of variables.
ghost use Rattle.std.specs.Prelude.{◌≡◌, false, List, ◌∷◌, [], OnOk};
ghost use Rattle.std.specs.Str.{bytes_eq};
ghost use Rattle.indexmap.specs.IndexSet.{insert_key};
ghost use Rattle.std.specs.List.{list_all, list_any};
ghost use Rattle.p9_first.specs.Form.{same_name, is_among, is_letter_or_digit, is_name, keywords, functions, is_variable_name};

use crate::scan::{is_letter, is_letter_or_digit};
use indexmap::IndexSet;
use p9_base::{Name, NoMemory};
use std::alloc::Global;
use std::marker::Model;

/// Names that are declared, the newest first.
#[derive(Drop)]
pub(crate) struct Names {
    set: IndexSet<Name>,
}

impl Model for Names {
    ghost use Rattle.std.specs.Prelude.{List, ℕ, reverse};

    ghost Value = { List (List ℕ) };

    ghost view = { λ n. reverse n.set.keys };
}

fn is_in(set: &IndexSet<Name>, name: &Name) -> bool
    ensures { result ≡ list_any (bytes_eq name.now) set.now.keys }
{
    set.contains(name)
}

fn put(set: &mut IndexSet<Name>, name: Name) -> Result<(), NoMemory>
    ensures { OnOk result (set.new.keys ≡ insert_key bytes_eq set.old.keys name) }
{
    set.insert(name)?;
    Ok(())
}

impl Names {
    /// No names.
    pub(crate) fn new(alloc: Global) -> Self
        ensures { result ≡ [] }
    {
        Names {
            set: IndexSet::new(alloc),
        }
    }

    /// Whether the name is among these.
    #[tactic(auto, using(crate::proofs::ParseNames::among_reversed))]
    pub(crate) fn has(&self, name: &Name) -> bool
        ensures { result ≡ is_among self.now name.now }
    {
        is_in(&self.set, name)
    }

    /// Adds a name.
    #[tactic(auto, using(crate::proofs::ParseNames::added))]
    pub(crate) fn add(&mut self, name: Name) -> Result<(), NoMemory>
        requires { is_among self.old name ≡ false }
        ensures { OnOk result (self.new ≡ name ∷ self.old) }
    {
        put(&mut self.set, name)
    }
}

fn are_letters_and_digits(bytes: &[u8]) -> bool
    ensures { result ≡ list_all is_letter_or_digit bytes.now }
{
    bytes.iter().all(|b| is_letter_or_digit(*b))
}

fn is_name(bytes: &[u8]) -> bool
    ensures { result ≡ is_name bytes.now }
{
    match bytes {
        [first, rest @ ..] => is_letter(*first)
            && are_letters_and_digits(rest)
            && rest.len() <= 254,
        [] => false,
    }
}

const KEYWORDS: [&[u8]; 32] = [
    b"auto",
    b"break",
    b"case",
    b"char",
    b"const",
    b"continue",
    b"default",
    b"do",
    b"double",
    b"else",
    b"enum",
    b"extern",
    b"float",
    b"for",
    b"goto",
    b"if",
    b"int",
    b"long",
    b"register",
    b"return",
    b"short",
    b"signed",
    b"sizeof",
    b"static",
    b"struct",
    b"switch",
    b"typedef",
    b"union",
    b"unsigned",
    b"void",
    b"volatile",
    b"while",
];

const FUNCTIONS: [&[u8]; 4] = [b"main", b"write", b"exits", b"read"];

#[tactic(auto, using(crate::proofs::ParseSteps::same_bytes))]
fn is_spelled(name: &[u8], word: &[u8]) -> bool
    ensures { result ≡ same_name name.now word.now }
{
    name == word
}

fn is_one_of(name: &[u8], words: &[&[u8]]) -> bool
    ensures { result ≡ list_any (λ word. same_name name.now word.now) words.now }
{
    words.iter().any(|word| is_spelled(name, *word))
}

fn is_keyword(name: &[u8]) -> bool
    ensures { result ≡ is_among keywords name.now }
{
    is_one_of(name, &KEYWORDS)
}

fn is_function(name: &[u8]) -> bool
    ensures { result ≡ is_among functions name.now }
{
    is_one_of(name, &FUNCTIONS)
}

/// Whether a variable may have this name.
pub(crate) fn is_variable_name(name: &Name) -> bool
    ensures { result ≡ is_variable_name name.now }
{
    let bytes = name.list.as_slice();
    is_name(bytes) && !is_keyword(bytes) && !is_function(bytes)
}
