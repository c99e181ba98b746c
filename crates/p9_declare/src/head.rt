// The type that a spec names.
ghost use Rattle.std.specs.Prelude.{◌≡◌};
ghost use Rattle.std.specs.Option.{option_map};
ghost use Rattle.p9_lang.specs.Types.{type_of};
ghost use Rattle.p9_lang.specs.Declarators.{head_of, nothing_said, said_type, signed_or_not};
ghost use Rattle.p9_declare.specs.Heads.{said_with, HeadBy};
ghost use Rattle.p9_declare.specs.Told.{told_head, told_said};

use p9_lang::{CType, Ident, SpecWord};

/// What a spec names: a type by words, a typedef by its name, a structure or union with the count of
/// its members where it has braces, or an enumeration with that of its constants.
#[derive(Drop)]
pub enum Head<'a> {
    Words(CType),
    Named(&'a Ident),
    Structure {
        is_union: bool,
        name: &'a Ident,
        members: Option<u32>,
    },
    Enumeration {
        name: &'a Ident,
        constants: Option<u32>,
    },
}

// What the words say so far.
#[derive(Clone, Copy)]
struct Said {
    is_void: bool,
    is_char: bool,
    is_short: bool,
    is_long: bool,
    is_unsigned: bool,
}

fn signed_or_not(is_unsigned: bool, signed: CType, unsigned: CType) -> CType
    ensures { type_of result ≡ signed_or_not is_unsigned (type_of signed) (type_of unsigned) }
{
    if is_unsigned { unsigned } else { signed }
}

#[tactic(auto, using(p9_types::proofs::Shapes::shapes))]
fn said_type(said: Said) -> CType
    ensures { type_of result ≡ said_type (told_said said) }
{
    if said.is_void {
        return CType::Void;
    }
    if said.is_char {
        return signed_or_not(said.is_unsigned, CType::Char, CType::UChar);
    }
    if said.is_short {
        return signed_or_not(said.is_unsigned, CType::Short, CType::UShort);
    }
    if said.is_long {
        return signed_or_not(said.is_unsigned, CType::Long, CType::ULong);
    }
    signed_or_not(said.is_unsigned, CType::Int, CType::UInt)
}

impl Said {
    fn nothing() -> Said
        ensures { told_said result ≡ nothing_said }
    {
        Said {
            is_void: false,
            is_char: false,
            is_short: false,
            is_long: false,
            is_unsigned: false,
        }
    }

    // With one word more, which names no type alone.
    fn with(self, word: &SpecWord) -> Said
        ensures { told_said result ≡ said_with word.now (told_said self) }
    {
        match word {
            SpecWord::Void => Said {
                is_void: true,
                ..self
            },
            SpecWord::Char => Said {
                is_char: true,
                ..self
            },
            SpecWord::Short => Said {
                is_short: true,
                ..self
            },
            SpecWord::Long => Said {
                is_long: true,
                ..self
            },
            SpecWord::Unsigned => Said {
                is_unsigned: true,
                ..self
            },
            SpecWord::Int
            | SpecWord::Signed
            | SpecWord::Extern
            | SpecWord::Static
            | SpecWord::Typedef
            | SpecWord::Auto
            | SpecWord::Register
            | SpecWord::Const
            | SpecWord::Volatile
            | SpecWord::TypeName(_)
            | SpecWord::Tag { .. }
            | SpecWord::Enum { .. } => self,
        }
    }
}

// The type that a word alone names.
fn named_by(word: &SpecWord) -> Option<Head<'_>>
    ensures { HeadBy (option_map told_head result) word.now }
{
    match word {
        SpecWord::TypeName(name) => Some(Head::Named(name)),
        SpecWord::Tag {
            is_union,
            name,
            members,
        } => Some(Head::Structure {
            is_union: *is_union,
            name,
            members: *members,
        }),
        SpecWord::Enum {
            name,
            consts,
            comma: _,
        } => Some(Head::Enumeration {
            name,
            constants: *consts,
        }),
        SpecWord::Void
        | SpecWord::Char
        | SpecWord::Short
        | SpecWord::Long
        | SpecWord::Unsigned
        | SpecWord::Int
        | SpecWord::Signed
        | SpecWord::Extern
        | SpecWord::Static
        | SpecWord::Typedef
        | SpecWord::Auto
        | SpecWord::Register
        | SpecWord::Const
        | SpecWord::Volatile => None,
    }
}

/// What the words of a spec name.
pub fn head_of(words: &[SpecWord]) -> Head<'_>
    ensures { told_head result ≡ head_of words.now }
{
    let mut said = Said::nothing();
    let mut rest = words;
    'words: while let [word, after @ ..] = rest {
        if let Some(head) = named_by(word) {
            return head;
        }
        said = said.with(word);
        rest = after;
    }
    Head::Words(said_type(said))
}
