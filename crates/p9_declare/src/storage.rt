// Storage classes, and what names are declared as.
ghost use Rattle.std.specs.Prelude.{◌≡◌};
ghost use Rattle.std.specs.Option.{option_map};
ghost use Rattle.p9_lang.specs.Declarators.{storage_of, is_typedef, is_static, is_extern, is_filled};
ghost use Rattle.p9_lang.specs.Declaring.{takes_automatic};
ghost use Rattle.p9_declare.specs.Heads.{ClassBy};
ghost use Rattle.p9_declare.specs.Told.{told_storage, told_declaring};

use p9_lang::SpecWord;

/// The storage class of linkage: `auto` and `register` change nothing.
#[derive(Clone, Copy, PartialEq, Eq, Debug, Drop)]
pub enum Storage {
    NoClass,
    ExternClass,
    StaticClass,
    TypedefClass,
}

/// What a name is declared as.
#[derive(Clone, Copy, Debug, Drop)]
pub struct Declaring {
    pub storage: Storage,
    pub is_at_file: bool,
    pub has_initialiser: bool,
    pub has_body: bool,
}

// The class that a word says.
fn class_of(word: &SpecWord) -> Option<Storage>
    ensures { ClassBy (option_map told_storage result) word.now }
{
    match word {
        SpecWord::Extern => Some(Storage::ExternClass),
        SpecWord::Static => Some(Storage::StaticClass),
        SpecWord::Typedef => Some(Storage::TypedefClass),
        SpecWord::Auto
        | SpecWord::Register
        | SpecWord::Const
        | SpecWord::Volatile
        | SpecWord::Void
        | SpecWord::Char
        | SpecWord::Short
        | SpecWord::Int
        | SpecWord::Long
        | SpecWord::Signed
        | SpecWord::Unsigned
        | SpecWord::TypeName(_)
        | SpecWord::Tag { .. }
        | SpecWord::Enum { .. } => None,
    }
}

/// The class that the words of a spec say.
pub fn storage_of(words: &[SpecWord]) -> Storage
    ensures { told_storage result ≡ storage_of words.now }
{
    let mut rest = words;
    'words: while let [word, after @ ..] = rest {
        if let Some(storage) = class_of(word) {
            return storage;
        }
        rest = after;
    }
    Storage::NoClass
}

impl Storage {
    pub fn is_typedef(self) -> bool
        ensures { result ≡ is_typedef (told_storage self) }
    {
        match self {
            Storage::TypedefClass => true,
            Storage::NoClass | Storage::ExternClass | Storage::StaticClass => false,
        }
    }

    pub fn is_static(self) -> bool
        ensures { result ≡ is_static (told_storage self) }
    {
        match self {
            Storage::StaticClass => true,
            Storage::NoClass | Storage::ExternClass | Storage::TypedefClass => false,
        }
    }

    pub fn is_extern(self) -> bool
        ensures { result ≡ is_extern (told_storage self) }
    {
        match self {
            Storage::ExternClass => true,
            Storage::NoClass | Storage::StaticClass | Storage::TypedefClass => false,
        }
    }
}

impl Declaring {
    /// Whether it is declared with an initialiser or a body.
    pub fn is_filled(self) -> bool
        ensures { result ≡ is_filled (told_declaring self) }
    {
        self.has_initialiser || self.has_body
    }

    /// Whether it is an automatic.
    pub fn takes_automatic(self) -> bool
        ensures { result ≡ takes_automatic (told_declaring self) }
    {
        !self.storage.is_typedef() && !self.is_at_file && !self.storage.is_static()
    }
}
