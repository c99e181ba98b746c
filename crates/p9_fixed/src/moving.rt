// Values that are moved by bytes.
ghost use Rattle.std.specs.Prelude.{◌≡◌};
ghost use Rattle.p9_lang.specs.Initialisers.{moved, moved_by, moved_back};
ghost use Rattle.p9_fixed.specs.Told.{told_fixed};

use crate::kinds::Fixed;
use p9_base::{word_negation, word_product, word_sum};

/// What is moved by so many bytes.
pub fn moved<'a>(start: Fixed<'a>, amount: u32) -> Fixed<'a>
    ensures { told_fixed result ≡ moved (told_fixed start.entry) amount }
{
    match start {
        Fixed::Number(word) => Fixed::Number(word_sum(word, amount)),
        Fixed::Address { base, offset } => Fixed::Address {
            base,
            offset: word_sum(offset, amount),
        },
        Fixed::NotFixed => Fixed::NotFixed,
    }
}

/// What so many elements of a size move forwards.
pub(crate) fn moved_by<'a>(start: Fixed<'a>, size: u32, count: Fixed<'a>) -> Fixed<'a>
    ensures { told_fixed result ≡ moved_by (told_fixed start.entry) size (told_fixed count.entry) }
{
    match count {
        Fixed::Number(count) => moved(start, word_product(count, size)),
        Fixed::Address { .. } | Fixed::NotFixed => Fixed::NotFixed,
    }
}

/// What so many elements of a size move backwards.
pub(crate) fn moved_back<'a>(start: Fixed<'a>, size: u32, count: Fixed<'a>) -> Fixed<'a>
    ensures { told_fixed result ≡ moved_back (told_fixed start.entry) size (told_fixed count.entry) }
{
    match count {
        Fixed::Number(count) => moved(start, word_negation(word_product(count, size))),
        Fixed::Address { .. } | Fixed::NotFixed => Fixed::NotFixed,
    }
}
