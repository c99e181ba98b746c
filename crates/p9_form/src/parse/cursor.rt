// A parser's place among the tokens.
ghost use Rattle.std.specs.Prelude.{◌≡◌, ◌||◌, codes, List, [], ◌∷◌, Some, None, true, false, MatchOption, IfOk, IfErr};
ghost use Rattle.p9_first.specs.Form.{same_name};
ghost use Rattle.p9_form.specs.Scanning.{token_seen, seen};
ghost use Rattle.p9_form.specs.Reading.{got, is_that_mark, read_mark, read_word, read_number, read_text, is_that_word, read_this};
ghost use Rattle.p9_form.specs.Found.{begins_declaration, is_end};
ghost use Rattle.p9_form.specs.declared.parse.cursor.Refusal.TheVariants.{NoForm};

use crate::parse::text::is_text;
use crate::token::Token;
use p9_base::{Bytes, Name, NoMemory};
use std::alloc::AllocFailed;
use std::marker::Model;

/// The largest int.
pub(crate) const LARGEST: u32 = 0x7fff_ffff;

/// Why a file is not read.
#[derive(Clone, Copy, Debug, PartialEq, Eq, Drop)]
pub(crate) enum Refusal {
    NoForm,
    Memory,
}

impl From<NoMemory> for Refusal {
    ghost use Rattle.std.specs.Prelude.{◌≡◌};
    ghost use Rattle.p9_form.specs.declared.parse.cursor.Refusal.{Refusal};

    ghost from_gives = { λ _ e. e ≡ Refusal.Memory };

    fn from(_: NoMemory) -> Refusal {
        Refusal::Memory
    }
}

impl<T: Drop> From<AllocFailed<T>> for Refusal {
    ghost use Rattle.std.specs.Prelude.{◌≡◌};
    ghost use Rattle.p9_form.specs.declared.parse.cursor.Refusal.{Refusal};

    ghost from_gives = { λ _ e. e ≡ Refusal.Memory };

    fn from(_: AllocFailed<T>) -> Refusal {
        Refusal::Memory
    }
}

/// The tokens that are left.
#[derive(Drop)]
pub(crate) struct Cursor<'a> {
    left: &'a [Token],
}

impl<'a> Model for Cursor<'a> {
    ghost use Rattle.std.specs.Prelude.{List};
    ghost use Rattle.p9_first.specs.Tokens.{Token};
    ghost use Rattle.p9_form.specs.Scanning.{seen};

    ghost Value = { List Token };

    ghost view = { λ c. seen c.left.now };
}

fn is_mark(token: &Token, c: u8) -> bool
    ensures { result ≡ is_that_mark c (token_seen token.now) }
{
    match token {
        Token::Mark(found) => *found == c,
        _ => false,
    }
}

/// Whether the name is this word.
#[tactic(auto, using(crate::proofs::ParseSteps::same_bytes))]
pub(crate) fn is_word(name: &Name, word: &[u8]) -> bool
    ensures { result ≡ same_name word.now name.now }
{
    word == name.list.as_slice()
}

fn is_that_word(token: &Token, word: &[u8]) -> bool
    ensures { result ≡ is_that_word word.now (token_seen token.now) }
{
    match token {
        Token::Word(name) => is_word(name, word),
        _ => false,
    }
}

// `extern`, `int` or `long`
fn begins_declaration(token: &Token) -> bool
    ensures { result ≡ is_that_word (codes "extern") (token_seen token.now) || (is_that_word (codes "int") (token_seen token.now) || is_that_word (codes "long") (token_seen token.now)) }
{
    is_that_word(token, b"extern") || is_that_word(token, b"int") || is_that_word(token, b"long")
}

impl<'a> Cursor<'a> {
    /// Before the first token.
    pub(crate) fn new(tokens: &'a [Token]) -> Self
        ensures { result ≡ seen tokens.now }
    {
        Cursor { left: tokens }
    }

    /// Passes the next token.
    pub(crate) fn next(&mut self) -> Option<&'a Token>
        ensures { MatchOption result (self.old ≡ []) (λ token. self.old ≡ token_seen token.now ∷ self.new) }
    {
        if let [first, rest @ ..] = self.left {
            self.left = rest;
            return Some(first);
        }
        None
    }

    /// Passes the mark, if it is next.
    #[tactic(auto, unfolding(crate::specs::Reading::read_mark))]
    pub(crate) fn takes(&mut self, c: u8) -> bool
        ensures yes { result ≡ true → read_mark c self.old ≡ Some self.new }
        ensures no { result ≡ false → read_mark c self.old ≡ None }
        ensures stays { result ≡ false → self.new ≡ self.old }
    {
        if let [first, rest @ ..] = self.left {
            if is_mark(first, c) {
                self.left = rest;
                return true;
            }
        }
        false
    }

    /// Passes the mark.
    pub(crate) fn mark(&mut self, c: u8) -> Result<(), Refusal>
        ensures ok { IfOk result (λ _. read_mark c self.old ≡ Some self.new) }
        ensures err { IfErr result (λ e. e ≡ NoForm → read_mark c self.old ≡ None) }
    {
        if self.takes(c) {
            Ok(())
        } else {
            Err(Refusal::NoForm)
        }
    }

    /// Passes a word.
    #[tactic(auto, unfolding(crate::specs::Reading::read_word))]
    pub(crate) fn word(&mut self) -> Result<&'a Name, Refusal>
        ensures ok { IfOk result (λ name. read_word self.old ≡ Some (got name.now self.new)) }
        ensures err { IfErr result (λ e. e ≡ NoForm → read_word self.old ≡ None) }
    {
        match self.next() {
            Some(Token::Word(name)) => Ok(name),
            _ => Err(Refusal::NoForm),
        }
    }

    /// Passes a text.
    #[tactic(auto, unfolding(crate::specs::Reading::read_text))]
    pub(crate) fn text(&mut self) -> Result<&'a Bytes, Refusal>
        ensures ok { IfOk result (λ text. read_text self.old ≡ Some (got text.now self.new)) }
        ensures err { IfErr result (λ e. e ≡ NoForm → read_text self.old ≡ None) }
    {
        match self.next() {
            Some(Token::Text(text)) if is_text(text) => Ok(text),
            _ => Err(Refusal::NoForm),
        }
    }

    /// Passes a number that fits an int.
    #[tactic(auto, unfolding(crate::specs::Reading::read_number))]
    pub(crate) fn number(&mut self) -> Result<u32, Refusal>
        ensures ok { IfOk result (λ value. read_number self.old ≡ Some (got value self.new)) }
        ensures err { IfErr result (λ e. e ≡ NoForm → read_number self.old ≡ None) }
    {
        match self.next() {
            Some(Token::Number(value)) if *value <= LARGEST => Ok(*value),
            _ => Err(Refusal::NoForm),
        }
    }

    /// Passes the word, if it is next.
    #[tactic(auto, unfolding(crate::specs::Reading::read_this))]
    pub(crate) fn takes_word(&mut self, word: &[u8]) -> bool
        ensures yes { result ≡ true → read_this word.now self.old ≡ Some self.new }
        ensures no { result ≡ false → read_this word.now self.old ≡ None }
        ensures stays { result ≡ false → self.new ≡ self.old }
    {
        if let [first, rest @ ..] = self.left {
            if is_that_word(first, word) {
                self.left = rest;
                return true;
            }
        }
        false
    }

    /// Passes the word.
    pub(crate) fn this(&mut self, word: &[u8]) -> Result<(), Refusal>
        ensures ok { IfOk result (λ _. read_this word.now self.old ≡ Some self.new) }
        ensures err { IfErr result (λ e. e ≡ NoForm → read_this word.now self.old ≡ None) }
    {
        if self.takes_word(word) {
            Ok(())
        } else {
            Err(Refusal::NoForm)
        }
    }

    /// Whether a declaration begins here.
    #[tactic(auto, unfolding(crate::specs::Found::begins_declaration))]
    pub(crate) fn begins_declaration(&self) -> bool
        ensures { result ≡ begins_declaration self.now }
    {
        match self.left {
            [first, ..] => begins_declaration(first),
            [] => false,
        }
    }

    /// Whether nothing is left but the end.
    pub(crate) fn at_end(&self) -> bool
        ensures { result ≡ is_end self.now }
    {
        match self.left {
            [Token::End] => true,
            _ => false,
        }
    }
}
