// Which words of a declaration's head stand beside each other.
ghost use Rattle.std.specs.Prelude.{◌≡◌, ◌++◌, ◌∷◌, [], IfOk};
ghost use Rattle.std.specs.List.{list_any};
ghost use Rattle.p9_grammar.specs.Grammar.{share, excludes, has_type, names_type};
ghost use Rattle.p9_grammar.specs.Symbols.{is_typedef};
ghost use Rattle.p9_tree_moves.specs.Moves.{share_of, may_stand};

use p9_lang::SpecWord;
use sqlite_items::Items;
use std::alloc::AllocError;

/// The part that a word has in a type.
#[derive(Clone, Copy, PartialEq, Eq, Debug, Drop)]
pub enum WordShare {
    Nothing,
    Storage,
    Whole,
    Sign,
    Char,
    Int,
    Size,
}

pub fn share(word: &SpecWord) -> WordShare
    ensures { share_of result ≡ share word.now }
{
    match word {
        SpecWord::Extern | SpecWord::Static | SpecWord::Typedef => WordShare::Storage,
        SpecWord::Auto | SpecWord::Register | SpecWord::Const | SpecWord::Volatile => {
            WordShare::Nothing
        }
        SpecWord::Void
        | SpecWord::TypeName(_)
        | SpecWord::Tag {
            is_union: _,
            name: _,
            members: _,
        }
        | SpecWord::Enum {
            name: _,
            consts: _,
            comma: _,
        } => WordShare::Whole,
        SpecWord::Char => WordShare::Char,
        SpecWord::Short | SpecWord::Long => WordShare::Size,
        SpecWord::Int => WordShare::Int,
        SpecWord::Signed | SpecWord::Unsigned => WordShare::Sign,
    }
}

fn excludes(new: WordShare, old: WordShare) -> bool
    ensures { result ≡ excludes (share_of new) (share_of old) }
{
    match new {
        WordShare::Nothing => false,
        WordShare::Storage => match old {
            WordShare::Storage => true,
            _ => false,
        },
        WordShare::Whole => match old {
            WordShare::Nothing | WordShare::Storage => false,
            _ => true,
        },
        WordShare::Sign => match old {
            WordShare::Whole | WordShare::Sign => true,
            _ => false,
        },
        WordShare::Char => match old {
            WordShare::Whole | WordShare::Char | WordShare::Int | WordShare::Size => true,
            _ => false,
        },
        WordShare::Int => match old {
            WordShare::Whole | WordShare::Char | WordShare::Int => true,
            _ => false,
        },
        WordShare::Size => match old {
            WordShare::Whole | WordShare::Char | WordShare::Size => true,
            _ => false,
        },
    }
}

fn is_excluded(new: WordShare, words: &[SpecWord]) -> bool
    ensures { result ≡ list_any (λ v. excludes (share_of new) (share v)) words.now }
{
    let mut rest = words;
    while let [word, after @ ..] = rest {
        if excludes(new, share(word)) {
            return true;
        }
        rest = after;
    }
    false
}

/// Whether a word with this part in a type may follow those.
pub fn may_stand(storage: bool, words: &[SpecWord], new: WordShare) -> bool
    ensures { result ≡ may_stand storage words.now (share_of new) }
{
    match new {
        WordShare::Storage => storage && !is_excluded(new, words),
        _ => !is_excluded(new, words),
    }
}

fn names_type(word: &SpecWord) -> bool
    ensures { result ≡ names_type (share word.now) }
{
    match share(word) {
        WordShare::Nothing | WordShare::Storage => false,
        _ => true,
    }
}

/// Whether one of the words is a type.
pub fn has_type(words: &[SpecWord]) -> bool
    ensures { result ≡ has_type words.now }
{
    let mut rest = words;
    while let [word, after @ ..] = rest {
        if names_type(word) {
            return true;
        }
        rest = after;
    }
    false
}

/// Whether the words declare types.
pub fn is_typedef(words: &[SpecWord]) -> bool
    ensures { result ≡ is_typedef words.now }
{
    let mut rest = words;
    while let [word, after @ ..] = rest {
        if let SpecWord::Typedef = word {
            return true;
        }
        rest = after;
    }
    false
}

/// The words with one more at the end.
pub fn pushed<T: Drop>(items: Items<T>, item: T) -> Result<Items<T>, AllocError>
    ensures { IfOk result (λ all. all ≡ items ++ item ∷ []) }
{
    let mut all = items;
    all.push(item)?;
    Ok(all)
}
