// Marks.
ghost use Rattle.std.specs.Prelude.{◌≡◌, ◌+◌, [], ◌∷◌, length};
ghost use Rattle.p9_lex.specs.Mark.{mark_number, longest_mark};
ghost use Rattle.p9_lex.specs.Broken.{IsInside};

use crate::broken::{Break, bad_byte};
use crate::token::Dialect;

/// A mark's number, and how many bytes spell it.
#[derive(Clone, Copy, Debug, PartialEq, Eq, Drop)]
pub struct Marked {
    pub number: u8,
    pub length: usize,
}

#[tactic(auto, unfolding(crate::specs::Mark::mark_number))]
fn mark_of_one(dialect: Dialect, first: u8) -> Option<u8>
    ensures { result ≡ mark_number dialect (first ∷ []) }
{
    match first {
        b'{' => Some(0),
        b'}' => Some(1),
        b'(' => Some(2),
        b')' => Some(3),
        b'[' => Some(4),
        b']' => Some(5),
        b';' => Some(6),
        b',' => Some(7),
        b'.' => Some(8),
        b'&' => Some(12),
        b'*' => Some(13),
        b'+' => Some(14),
        b'-' => Some(15),
        b'~' => Some(16),
        b'!' => Some(17),
        b'/' => Some(18),
        b'%' => Some(19),
        b'<' => Some(22),
        b'>' => Some(23),
        b'^' => Some(28),
        b'|' => Some(29),
        b'?' => Some(32),
        b':' => Some(33),
        b'=' => Some(34),
        b'#' => Some(45),
        b'$' => match dialect {
            Dialect::C => None,
            Dialect::Asm => Some(46),
        },
        _ => None,
    }
}

// The mark of this byte and a `=`.
#[tactic(auto, unfolding(crate::specs::Mark::mark_number))]
fn mark_before_equals(dialect: Dialect, first: u8) -> Option<u8>
    ensures { result ≡ mark_number dialect (first ∷ 61 ∷ []) }
{
    match first {
        b'<' => Some(24),
        b'>' => Some(25),
        b'=' => Some(26),
        b'!' => Some(27),
        b'*' => Some(35),
        b'/' => Some(36),
        b'%' => Some(37),
        b'+' => Some(38),
        b'-' => Some(39),
        b'&' => Some(42),
        b'^' => Some(43),
        b'|' => Some(44),
        _ => None,
    }
}

#[tactic(auto, unfolding(crate::specs::Mark::mark_number))]
fn mark_of_two(dialect: Dialect, first: u8, second: u8) -> Option<u8>
    ensures { result ≡ mark_number dialect (first ∷ second ∷ []) }
{
    match second {
        b'=' => mark_before_equals(dialect, first),
        b'>' => match first {
            b'-' => Some(9),
            b'>' => Some(21),
            _ => None,
        },
        b'+' => (first == b'+').then_some(10),
        b'-' => (first == b'-').then_some(11),
        b'<' => (first == b'<').then_some(20),
        b'&' => (first == b'&').then_some(30),
        b'|' => (first == b'|').then_some(31),
        _ => None,
    }
}

#[tactic(auto, unfolding(crate::specs::Mark::mark_number))]
fn mark_of_three(dialect: Dialect, first: u8, second: u8, third: u8) -> Option<u8>
    ensures { result ≡ mark_number dialect (first ∷ second ∷ third ∷ []) }
{
    if third != b'=' || second != first {
        return None;
    }
    match first {
        b'<' => Some(40),
        b'>' => Some(41),
        _ => None,
    }
}

/// The longest mark that `first` and `rest` begin with.
#[tactic(auto, unfolding(crate::specs::Mark::longest_mark))]
pub fn longest_mark(dialect: Dialect, first: u8, rest: &[u8]) -> Result<Marked, Break>
    ensures value { result ≡ longest_mark dialect first rest.now }
    ensures inside { IsInside 1 (1 + length rest.now) (λ i. i.length) result }
{
    if let [second, third, ..] = rest {
        if let Some(number) = mark_of_three(dialect, first, *second, *third) {
            return Ok(Marked { number, length: 3 });
        }
    }
    if let [second, ..] = rest {
        if let Some(number) = mark_of_two(dialect, first, *second) {
            return Ok(Marked { number, length: 2 });
        }
    }
    match mark_of_one(dialect, first) {
        Some(number) => Ok(Marked { number, length: 1 }),
        None => Err(bad_byte(0)),
    }
}
