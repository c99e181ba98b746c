// Operations of which one operand may not count.
ghost use Rattle.std.specs.Prelude.{◌≡◌, ◌==◌, if◌then◌else◌};
ghost use Rattle.p9_lang.specs.Initialisers.{Number, on_number, chosen_fixed, fixed_truth, after};
ghost use Rattle.p9_fixed.specs.Told.{told_fixed};

use crate::kinds::Fixed;

/// The first where the test isn't 0, and else the second.
pub(crate) fn chosen_fixed<'a>(test: Fixed<'a>, a: Fixed<'a>, b: Fixed<'a>) -> Fixed<'a>
    ensures { told_fixed result ≡ chosen_fixed (told_fixed test.entry) (told_fixed a.entry) (told_fixed b.entry) }
{
    match test {
        Fixed::Number(x) => { if x == 0 { b } else { a } }
        Fixed::Address { .. } | Fixed::NotFixed => Fixed::NotFixed,
    }
}

fn fixed_truth<'a>(a: Fixed<'a>) -> Fixed<'a>
    ensures { told_fixed result ≡ fixed_truth (told_fixed a.entry) }
{
    match a {
        Fixed::Number(0) => Fixed::Number(0),
        Fixed::Number(_) => Fixed::Number(1),
        Fixed::Address { .. } | Fixed::NotFixed => Fixed::NotFixed,
    }
}

/// Whether both aren't 0; the second counts only where the first isn't.
pub(crate) fn both_true<'a>(a: Fixed<'a>, b: Fixed<'a>) -> Fixed<'a>
    ensures { told_fixed result
        ≡ on_number (λ x. if x == 0 then Number 0 else fixed_truth (told_fixed b.entry)) (told_fixed a.entry) }
{
    match a {
        Fixed::Number(x) => {
            if x == 0 {
                Fixed::Number(0)
            } else {
                fixed_truth(b)
            }
        }
        Fixed::Address { .. } | Fixed::NotFixed => Fixed::NotFixed,
    }
}

/// Whether one isn't 0; the second counts only where the first is.
pub(crate) fn one_true<'a>(a: Fixed<'a>, b: Fixed<'a>) -> Fixed<'a>
    ensures { told_fixed result
        ≡ on_number (λ x. if x == 0 then fixed_truth (told_fixed b.entry) else Number 1) (told_fixed a.entry) }
{
    match a {
        Fixed::Number(x) => {
            if x == 0 {
                fixed_truth(b)
            } else {
                Fixed::Number(1)
            }
        }
        Fixed::Address { .. } | Fixed::NotFixed => Fixed::NotFixed,
    }
}

/// The second where the first is fixed.
pub(crate) fn after<'a>(a: Fixed<'a>, b: Fixed<'a>) -> Fixed<'a>
    ensures { told_fixed result ≡ after (told_fixed a.entry) (told_fixed b.entry) }
{
    match a {
        Fixed::Number(_) => b,
        Fixed::Address { .. } => b,
        Fixed::NotFixed => Fixed::NotFixed,
    }
}
