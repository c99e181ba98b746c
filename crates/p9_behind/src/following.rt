// What stands behind a declarator.
ghost use Rattle.std.specs.Prelude.{◌≡◌};
ghost use Rattle.p9_lang.specs.Trees.{row_of};
ghost use Rattle.p9_lang.specs.Parts as specs;
ghost use Rattle.p9_declare.specs.Told.{told_by};
ghost use Rattle.p9_behind.specs.Following.{told_follows};

use p9_declare::LengthBy;
use p9_lang::{Kind, Node};
use p9_opening::is_declarator;

/// What stands behind a declarator: no initialiser, braces, a text, or another expression.
#[derive(Clone, Copy)]
pub(crate) enum Follows {
    NoInitialiser,
    Braces,
    Text,
    Expression,
}

fn kind_that_follows(kind: &Kind) -> Follows
    ensures { told_follows result ≡ specs.follows_kind kind.now }
{
    match kind {
        Kind::InitList { .. } => Follows::Braces,
        Kind::Text(_) => Follows::Text,
        other => {
            if is_declarator(other) {
                Follows::NoInitialiser
            } else {
                Follows::Expression
            }
        }
    }
}

/// What the parts behind a declarator begin with.
pub(crate) fn what_follows(rest: &[Node]) -> Follows
    ensures { told_follows result ≡ specs.follows (row_of rest.now) }
{
    match rest {
        [] => Follows::NoInitialiser,
        [first, ..] => kind_that_follows(&first.kind),
    }
}

impl Follows {
    pub(crate) fn length_by(self) -> LengthBy
        ensures { told_by result ≡ specs.length_by (told_follows self) }
    {
        match self {
            Follows::NoInitialiser | Follows::Expression => LengthBy::ByNothing,
            Follows::Braces => LengthBy::ByBraces,
            Follows::Text => LengthBy::ByText,
        }
    }

    pub(crate) fn has_initialiser(self) -> bool
        ensures { result ≡ specs.has_initialiser (told_follows self) }
    {
        match self {
            Follows::NoInitialiser => false,
            Follows::Braces | Follows::Text | Follows::Expression => true,
        }
    }
}
