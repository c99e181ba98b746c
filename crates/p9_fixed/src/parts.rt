// Parts by how many there are.
ghost use Rattle.std.specs.Prelude.{◌≡◌, ◌∷◌, [], None, MatchOption};
ghost use Rattle.p9_fixed.specs.Told.{told_part, told_parts};
ghost use Rattle.p9_fixed.specs.Arities.{the_one, the_two, the_three};

use crate::kinds::FixedPart;

/// The part, where there is one.
#[tactic(auto, using(crate::proofs::Counted::fewer_than_one, crate::proofs::Counted::more_than_one))]
pub(crate) fn one<'a>(parts: &[FixedPart<'a>]) -> Option<FixedPart<'a>>
    ensures { MatchOption result (the_one (told_parts parts.now) ≡ None) (λ a.
        told_parts parts.now ≡ told_part a ∷ []) }
{
    match parts {
        [] => None,
        [a] => Some(*a),
        [_, _, ..] => None,
    }
}

/// The parts, where there are two.
#[tactic(auto, using(crate::proofs::Counted::fewer_than_two, crate::proofs::Counted::more_than_two))]
pub(crate) fn two<'a>(parts: &[FixedPart<'a>]) -> Option<(FixedPart<'a>, FixedPart<'a>)>
    ensures { MatchOption result (the_two (told_parts parts.now) ≡ None) (λ p.
        told_parts parts.now ≡ told_part p.0 ∷ (told_part p.1 ∷ [])) }
{
    match parts {
        [] => None,
        [_] => None,
        [a, b] => Some((*a, *b)),
        [_, _, _, ..] => None,
    }
}

/// The parts, where there are three.
#[tactic(auto, using(crate::proofs::Counted::fewer_than_three, crate::proofs::Counted::more_than_three))]
pub(crate) fn three<'a>(
    parts: &[FixedPart<'a>],
) -> Option<(FixedPart<'a>, FixedPart<'a>, FixedPart<'a>)>
    ensures { MatchOption result (the_three (told_parts parts.now) ≡ None) (λ p.
        told_parts parts.now ≡ told_part p.0 ∷ (told_part p.1 ∷ (told_part p.2 ∷ []))) }
{
    match parts {
        [] => None,
        [_] => None,
        [_, _] => None,
        [a, b, c] => Some((*a, *b, *c)),
        [_, _, _, _, ..] => None,
    }
}
