// Keywords and punctuators by their spelling and number.
ghost use Rattle.std.specs.Prelude.{◌≡◌, slice_get};
ghost use Rattle.std.specs.Option.{option_copied};
ghost use Rattle.p9_terminal.specs.Terminals.{punctuators, spelled, all_keywords, keyword_in};

use p9_grammar::{Keyword, Punctuator};

const KEYWORDS: [Keyword; 32] = [
    Keyword::Auto,
    Keyword::Break,
    Keyword::Case,
    Keyword::Char,
    Keyword::Const,
    Keyword::Continue,
    Keyword::Default,
    Keyword::Do,
    Keyword::Double,
    Keyword::Else,
    Keyword::Enum,
    Keyword::Extern,
    Keyword::Float,
    Keyword::For,
    Keyword::Goto,
    Keyword::If,
    Keyword::Int,
    Keyword::Long,
    Keyword::Register,
    Keyword::Return,
    Keyword::Short,
    Keyword::Signed,
    Keyword::Sizeof,
    Keyword::Static,
    Keyword::Struct,
    Keyword::Switch,
    Keyword::Typedef,
    Keyword::Union,
    Keyword::Unsigned,
    Keyword::Void,
    Keyword::Volatile,
    Keyword::While,
];

const PUNCTUATORS: [Punctuator; 46] = [
    Punctuator::OpenBrace,
    Punctuator::CloseBrace,
    Punctuator::OpenParen,
    Punctuator::CloseParen,
    Punctuator::OpenBracket,
    Punctuator::CloseBracket,
    Punctuator::Semicolon,
    Punctuator::Comma,
    Punctuator::Dot,
    Punctuator::Arrow,
    Punctuator::PlusPlus,
    Punctuator::MinusMinus,
    Punctuator::Ampersand,
    Punctuator::Star,
    Punctuator::Plus,
    Punctuator::Minus,
    Punctuator::Tilde,
    Punctuator::Bang,
    Punctuator::Slash,
    Punctuator::Percent,
    Punctuator::ShiftLeft,
    Punctuator::ShiftRight,
    Punctuator::Less,
    Punctuator::Greater,
    Punctuator::LessEqual,
    Punctuator::GreaterEqual,
    Punctuator::EqualEqual,
    Punctuator::BangEqual,
    Punctuator::Caret,
    Punctuator::Bar,
    Punctuator::AmpersandAmpersand,
    Punctuator::BarBar,
    Punctuator::Question,
    Punctuator::Colon,
    Punctuator::Equal,
    Punctuator::StarEqual,
    Punctuator::SlashEqual,
    Punctuator::PercentEqual,
    Punctuator::PlusEqual,
    Punctuator::MinusEqual,
    Punctuator::ShiftLeftEqual,
    Punctuator::ShiftRightEqual,
    Punctuator::AmpersandEqual,
    Punctuator::CaretEqual,
    Punctuator::BarEqual,
    Punctuator::Hash,
];

fn spelled(keyword: Keyword) -> &'static [u8]
    ensures { result.now ≡ spelled keyword }
{
    match keyword {
        Keyword::Auto => b"auto",
        Keyword::Break => b"break",
        Keyword::Case => b"case",
        Keyword::Char => b"char",
        Keyword::Const => b"const",
        Keyword::Continue => b"continue",
        Keyword::Default => b"default",
        Keyword::Do => b"do",
        Keyword::Double => b"double",
        Keyword::Else => b"else",
        Keyword::Enum => b"enum",
        Keyword::Extern => b"extern",
        Keyword::Float => b"float",
        Keyword::For => b"for",
        Keyword::Goto => b"goto",
        Keyword::If => b"if",
        Keyword::Int => b"int",
        Keyword::Long => b"long",
        Keyword::Register => b"register",
        Keyword::Return => b"return",
        Keyword::Short => b"short",
        Keyword::Signed => b"signed",
        Keyword::Sizeof => b"sizeof",
        Keyword::Static => b"static",
        Keyword::Struct => b"struct",
        Keyword::Switch => b"switch",
        Keyword::Typedef => b"typedef",
        Keyword::Union => b"union",
        Keyword::Unsigned => b"unsigned",
        Keyword::Void => b"void",
        Keyword::Volatile => b"volatile",
        Keyword::While => b"while",
    }
}

/// The keyword that is spelled so.
pub fn keyword(name: &[u8]) -> Option<Keyword>
    ensures { result ≡ keyword_in all_keywords name.now }
{
    let mut rest = KEYWORDS.as_slice();
    while let [first, after @ ..] = rest {
        if spelled(*first) == name {
            return Some(*first);
        }
        rest = after;
    }
    None
}

fn mark_at(marks: &[Punctuator], number: usize) -> Option<&Punctuator>
    ensures { option_copied result ≡ slice_get marks.now number }
{
    marks.get(number)
}

/// The punctuator with this number.
pub fn punctuator(number: u8) -> Option<Punctuator>
    ensures { result ≡ slice_get punctuators number }
{
    mark_at(&PUNCTUATORS, number as usize).copied()
}
