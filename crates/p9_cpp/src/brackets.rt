// The marks that bound and split arguments.
ghost use Rattle.std.specs.Prelude.{◌≡◌};
ghost use Rattle.p9_cpp.specs.Macros.{bracket_of, bracket_of_mark};

use p9_lex::TokenKind;

#[derive(Clone, Copy, Debug, PartialEq, Eq, Drop)]
pub enum Bracket {
    Open,
    Close,
    Comma,
    Other,
}

fn bracket_of_mark(number: u8) -> Bracket
    ensures { result ≡ bracket_of_mark number }
{
    if number == 2 {
        Bracket::Open
    } else if number == 3 {
        Bracket::Close
    } else if number == 7 {
        Bracket::Comma
    } else {
        Bracket::Other
    }
}

pub fn bracket_of(kind: &TokenKind) -> Bracket
    ensures { result ≡ bracket_of kind.now }
{
    match kind {
        TokenKind::Mark(number) => bracket_of_mark(*number),
        TokenKind::Word(_) => Bracket::Other,
        TokenKind::Number {
            value: _,
            unsigned: _,
            long: _,
        } => Bracket::Other,
        TokenKind::Char(_) => Bracket::Other,
        TokenKind::Text(_) => Bracket::Other,
        TokenKind::NewLine => Bracket::Other,
        TokenKind::End => Bracket::Other,
    }
}
