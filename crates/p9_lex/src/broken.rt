// How a rule is broken.
ghost use Rattle.std.specs.Prelude.{◌≡◌};
ghost use Rattle.p9_lex.specs.Broken.{bad_byte, open_comment, open_text, wide_number};

use std::alloc::AllocError;

#[derive(Clone, Copy, Debug, PartialEq, Eq, Drop)]
pub enum Reason {
    BadByte,
    OpenComment,
    OpenText,
    WideNumber,
}

/// The refusal of a piece, and the byte of it that breaks the rule.
#[derive(Clone, Copy, Debug, PartialEq, Eq, Drop)]
pub struct Break {
    pub reason: Reason,
    pub by: usize,
}

/// The refusal of a file: where the piece begins, and which byte of the file breaks the rule.
#[derive(Clone, Copy, Debug, PartialEq, Eq, Drop)]
pub struct Stop {
    pub reason: Reason,
    pub start: usize,
    pub by: usize,
}

pub fn bad_byte(by: usize) -> Break
    ensures { result ≡ bad_byte by }
{
    Break {
        reason: Reason::BadByte,
        by,
    }
}

pub fn open_comment(by: usize) -> Break
    ensures { result ≡ open_comment by }
{
    Break {
        reason: Reason::OpenComment,
        by,
    }
}

pub fn open_text(by: usize) -> Break
    ensures { result ≡ open_text by }
{
    Break {
        reason: Reason::OpenText,
        by,
    }
}

pub fn wide_number(by: usize) -> Break
    ensures { result ≡ wide_number by }
{
    Break {
        reason: Reason::WideNumber,
        by,
    }
}

/// Why a piece is not read.
#[derive(Clone, Copy, Debug, PartialEq, Eq, Drop)]
pub enum PieceFault {
    Break(Break),
    Memory,
}

impl From<Break> for PieceFault {
    ghost use Rattle.std.specs.Prelude.{◌≡◌};
    ghost use Rattle.p9_lex.specs.declared.broken.PieceFault.{PieceFault};

    ghost from_gives = { λ b e. e ≡ PieceFault.Break b };

    fn from(b: Break) -> PieceFault {
        PieceFault::Break(b)
    }
}

impl From<AllocError> for PieceFault {
    ghost use Rattle.std.specs.Prelude.{◌≡◌};
    ghost use Rattle.p9_lex.specs.declared.broken.PieceFault.{PieceFault};

    ghost from_gives = { λ b e. e ≡ PieceFault.Memory };

    fn from(_: AllocError) -> PieceFault {
        PieceFault::Memory
    }
}
