// Tokens of a file of the form.
use p9_base::Bytes;
use std::marker::Model;

/// A word, a number, a text, a mark of one character, or the end.
#[derive(Drop)]
pub(crate) enum Token {
    Word(Bytes),
    Number(u32),
    Text(Bytes),
    Mark(u8),
    End,
}

/// Tokens in order.
#[derive(Drop)]
pub(crate) struct Tokens {
    pub(crate) list: Vec<Token>,
}

impl Model for Tokens {
    ghost use Rattle.std.specs.Prelude.{List};
    ghost use Rattle.p9_form.specs.declared.token.Token.{Token};

    ghost Value = { List Token };

    ghost view = { λ t. t.list.items };
}
