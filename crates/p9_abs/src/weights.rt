// What an instruction weighs, in machine words.
ghost use Rattle.std.specs.Prelude.{◌≡◌, IsSome, unwrap_or, map, length};
ghost use Rattle.p9_abs.specs.Forms.{move_words, words_of, IsForm, weight_of};

use crate::forms::{Form, Width, decoded};
use crate::instructions::Abs;

fn move_words(width: Width) -> u32
    ensures { result ≡ move_words width }
{
    match width {
        Width::SignedHalf | Width::SignedByte => 2,
        Width::Word | Width::UnsignedHalf | Width::UnsignedByte => 1,
    }
}

/// The words of a form.
pub fn words_of(form: Form) -> u32
    ensures { result ≡ words_of form }
{
    match form {
        Form::Move(width, _, _) => move_words(width),
        Form::GetHiLo(_, _) | Form::SystemCall => 1,
        Form::Calculate(_, _, _, _) | Form::ShiftConstant(_, _, _, _) => 1,
        Form::SetConstant(_, _) | Form::Jump(_) | Form::Call(_) | Form::CallRegister(_) => 2,
        Form::SetAddress(_, _) | Form::Store(_, _, _) | Form::SetHiLo(_, _) => 3,
        Form::CalculateConstant(_, _, _, _) | Form::Multiply(_, _, _) => 3,
        Form::Load(_, _, _) | Form::BranchPair(_, _, _, _) | Form::BranchSign(_, _, _) => 4,
        Form::Return => 7,
    }
}

/// The words of the instruction by the table of forms.
pub fn weight(a: &Abs) -> u32
    requires { IsForm a.now }
    ensures { result ≡ weight_of a.now }
{
    match decoded(a) {
        Some(form) => words_of(form),
        None => 0,
    }
}
