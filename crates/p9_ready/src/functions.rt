// Whether a function may be given its frame.
ghost use Rattle.std.specs.Prelude.{◌↔◌, ◌≡◌, ◌⊎◌, ◌≤◌, IsTrue, All};
ghost use Rattle.p9_abs.specs.declared.instructions.Op.TheVariants.{Jmp, Ret};
ghost use Rattle.p9_abs.specs.Validity.{EndsWell};
ghost use Rattle.p9_abs.specs.Automatics.{IsInstructionOf, IsCode};
ghost use Rattle.p9_abs.specs.declared.instructions.Abs.{Abs as AbsValue};
ghost use Rattle.p9_homed.specs.Plain.{IsPlain};
ghost use Rattle.p9_keeps.specs.Addresses.{IsNear, HasNearAddresses};
ghost use Rattle.p9_frame.specs.Sizes.{stated_sum};
ghost use Rattle.p9_ready.specs.Written.{IsPlainInstruction};

use crate::operands::{are_near, is_instruction, is_plain};
use p9_abs::{AFunction, Abs, Op};
use p9_frame::has_room;

fn is_end(op: Op) -> bool
    ensures { IsTrue result ↔ ((op ≡ Ret) ⊎ (op ≡ Jmp)) }
{
    match op {
        Op::Ret | Op::Jmp => true,
        _ => false,
    }
}

fn ends_well(code: &[Abs]) -> bool
    ensures { IsTrue result ↔ EndsWell code.now }
{
    match code.last() {
        None => false,
        Some(last) => is_end(last.op),
    }
}

fn are_instructions(autos: usize, count: usize, code: &[Abs]) -> bool
    ensures { IsTrue result ↔ All (IsInstructionOf autos count) code.now }
{
    code.iter().all(|a| is_instruction(autos, count, a))
}

fn all_plain(code: &[Abs]) -> bool
    ensures { IsTrue result ↔ All IsPlainInstruction code.now }
{
    code.iter().all(|a| is_plain(a))
}

fn are_plain(code: &[Abs]) -> bool
    ensures { IsTrue result ↔ IsPlain code.now }
{
    all_plain(code)
}

fn is_code(f: &AFunction) -> bool
    ensures { IsTrue result ↔ IsCode f.now }
{
    let code = f.code.list.as_slice();
    f.depth.list.len() == code.len()
        && ends_well(code)
        && are_instructions(f.autos.list.len(), code.len(), code)
}

/// Whether the function may be given its frame.
pub fn may_settle(f: &AFunction) -> bool
    ensures { IsTrue result ↔ (IsCode f.now × IsPlain f.now.code × (stated_sum f.now ≤ 16777212)) }
{
    is_code(f) && are_plain(&f.code.list) && has_room(f)
}

fn are_all_near(sizes: &[u32], code: &[Abs]) -> bool
    ensures { IsTrue result ↔ All (λ (a : AbsValue). All (IsNear sizes.now) a.operands) code.now }
{
    code.iter().all(|a| are_near(sizes, &a.operands.list))
}

/// Whether each address of an automatic that the function takes is that of one of its bytes, or of the
/// byte behind them.
pub fn has_near_addresses(f: &AFunction) -> bool
    ensures { IsTrue result ↔ HasNearAddresses f.now }
{
    are_all_near(&f.autos.list, &f.code.list)
}
