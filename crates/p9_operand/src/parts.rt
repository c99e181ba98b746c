// Operands by how many there are.
ghost use Rattle.std.specs.Prelude.{◌≡◌, ◌∷◌, [], None, MatchOption};
ghost use Rattle.p9_operand.specs.Told.{told_operand, told_operands};
ghost use Rattle.p9_operand.specs.Arities.{the_one, the_two, the_three};

use crate::operand::Operand;

/// The operand, where there is one.
#[tactic(auto, using(crate::proofs::Operands::fewer_than_one, crate::proofs::Operands::more_than_one))]
pub fn one(operands: &[Operand]) -> Option<&Operand>
    ensures { MatchOption result (the_one (told_operands operands.now) ≡ None) (λ a.
        told_operands operands.now ≡ told_operand a.now ∷ []) }
{
    match operands {
        [] => None,
        [a] => Some(a),
        [_, _, ..] => None,
    }
}

/// The operands, where there are two.
#[tactic(auto, using(crate::proofs::Operands::fewer_than_two, crate::proofs::Operands::more_than_two))]
pub fn two(operands: &[Operand]) -> Option<(&Operand, &Operand)>
    ensures { MatchOption result (the_two (told_operands operands.now) ≡ None) (λ p.
        told_operands operands.now ≡ told_operand p.0.now ∷ (told_operand p.1.now ∷ [])) }
{
    match operands {
        [] => None,
        [_] => None,
        [a, b] => Some((a, b)),
        [_, _, _, ..] => None,
    }
}

/// The operands, where there are three.
#[tactic(auto, using(crate::proofs::Operands::fewer_than_three, crate::proofs::Operands::more_than_three))]
pub fn three(operands: &[Operand]) -> Option<(&Operand, &Operand, &Operand)>
    ensures { MatchOption result (the_three (told_operands operands.now) ≡ None) (λ p.
        told_operands operands.now
        ≡ told_operand p.0.now ∷ (told_operand p.1.now ∷ (told_operand p.2.now ∷ []))) }
{
    match operands {
        [] => None,
        [_] => None,
        [_, _] => None,
        [a, b, c] => Some((a, b, c)),
        [_, _, _, _, ..] => None,
    }
}
