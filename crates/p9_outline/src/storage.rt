// Whether a declaration is written with `extern`.
ghost use Rattle.std.specs.Prelude.{◌≡◌};
ghost use Rattle.p9_lang.specs.Declarators.{storage_of, is_extern};
ghost use Rattle.p9_outline.specs.Externs.{ExternBy};

use p9_lang::{Spec, SpecWord};

// Whether a word that says a class says `extern`.
fn extern_by(word: &SpecWord) -> Option<bool>
    ensures { ExternBy result word.now }
{
    match word {
        SpecWord::Extern => Some(true),
        SpecWord::Static | SpecWord::Typedef => Some(false),
        SpecWord::Auto
        | SpecWord::Register
        | SpecWord::Const
        | SpecWord::Volatile
        | SpecWord::Void
        | SpecWord::Char
        | SpecWord::Short
        | SpecWord::Int
        | SpecWord::Long
        | SpecWord::Signed
        | SpecWord::Unsigned
        | SpecWord::TypeName(_)
        | SpecWord::Tag { .. }
        | SpecWord::Enum { .. } => None,
    }
}

fn extern_among(words: &[SpecWord]) -> bool
    ensures { result ≡ is_extern (storage_of words.now) }
{
    let mut rest = words;
    'words: while let [word, after @ ..] = rest {
        if let Some(external) = extern_by(word) {
            return external;
        }
        rest = after;
    }
    false
}

/// Whether the first class among the words is `extern`.
pub(crate) fn is_extern(spec: &Spec) -> bool
    ensures { result ≡ is_extern (storage_of spec.now.words) }
{
    extern_among(spec.words.as_slice())
}
