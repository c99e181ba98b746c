// Loads, stores, branches and jumps, as effects.
ghost use Rattle.std.specs.Prelude.{◌≡◌, ◌<◌, ◌^◌, true};
ghost use Rattle.p9_base.specs.Numbers.{sign_extended};
ghost use Rattle.p9_r3k.specs.Effects.{address, branch_to, jump_to, load_byte, load_half, load_word, store_byte, store_half, store_word};
ghost use Rattle.p9_vi.specs.Kept.{CanApply};

use crate::machine::Machine;
use p9_base::{low8, low16, sext8, sext16, word_sum};
use p9_r3k::{Effect, HaltCause};

impl Machine {
    // The address of a load or store.
    pub(super) fn address(&self, rs: u32, imm: u32) -> u32
        requires { rs < 32 }
        ensures { result ≡ address self.now rs imm }
    {
        word_sum(self.reg(rs), sext16(imm))
    }

    // A branch to a place so many words from its slot.
    pub(super) fn branch(&self, link: u32, taken: bool, imm: u32) -> Effect
        ensures { result ≡ Effect.Branch link taken (branch_to self.now imm) }
    {
        let to = self
            .pc
            .wrapping_add(4)
            .wrapping_add(sext16(imm).wrapping_mul(4));
        Effect::Branch { link, taken, to }
    }

    // A jump to a place in the 256 MiB of its slot.
    pub(super) fn jump(&self, link: u32, index: u32) -> Effect
        requires { index < 2 ^ 26 }
        ensures { result ≡ Effect.Branch link true (jump_to self.now index) }
    {
        let to = word_sum(self.pc, 4) / 0x1000_0000 * 0x1000_0000 + index * 4;
        Effect::Branch {
            link,
            taken: true,
            to,
        }
    }

    #[inline(always)]
    pub(super) fn load_byte(&self, register: u32, a: u32) -> Effect
        requires { register < 32 }
        ensures exact { result ≡ load_byte self.now register a (λ b. b) }
        ensures safe { CanApply result self.now }
    {
        if self.readable(a) >= 1 {
            Effect::Load {
                register,
                value: self.byte(a),
            }
        } else {
            Effect::Stop(HaltCause::BadAddress(a))
        }
    }

    #[inline(always)]
    pub(super) fn load_signed_byte(&self, register: u32, a: u32) -> Effect
        requires { register < 32 }
        ensures exact { result ≡ load_byte self.now register a (sign_extended 8) }
        ensures safe { CanApply result self.now }
    {
        if self.readable(a) >= 1 {
            Effect::Load {
                register,
                value: sext8(self.byte(a)),
            }
        } else {
            Effect::Stop(HaltCause::BadAddress(a))
        }
    }

    #[inline(always)]
    pub(super) fn load_half(&self, register: u32, a: u32) -> Effect
        requires { register < 32 }
        ensures exact { result ≡ load_half self.now register a (λ h. h) }
        ensures safe { CanApply result self.now }
    {
        if a % 2 != 0 {
            Effect::Stop(HaltCause::Misaligned(a))
        } else if self.readable(a) >= 2 {
            Effect::Load {
                register,
                value: self.half(a),
            }
        } else {
            Effect::Stop(HaltCause::BadAddress(a))
        }
    }

    #[inline(always)]
    pub(super) fn load_signed_half(&self, register: u32, a: u32) -> Effect
        requires { register < 32 }
        ensures exact { result ≡ load_half self.now register a (sign_extended 16) }
        ensures safe { CanApply result self.now }
    {
        if a % 2 != 0 {
            Effect::Stop(HaltCause::Misaligned(a))
        } else if self.readable(a) >= 2 {
            Effect::Load {
                register,
                value: sext16(self.half(a)),
            }
        } else {
            Effect::Stop(HaltCause::BadAddress(a))
        }
    }

    #[inline(always)]
    pub(super) fn load_word(&self, register: u32, a: u32) -> Effect
        requires { register < 32 }
        ensures exact { result ≡ load_word self.now register a }
        ensures safe { CanApply result self.now }
    {
        if a % 4 != 0 {
            Effect::Stop(HaltCause::Misaligned(a))
        } else if self.readable(a) >= 4 {
            Effect::Load {
                register,
                value: self.word(a),
            }
        } else {
            Effect::Stop(HaltCause::BadAddress(a))
        }
    }

    pub(super) fn store_byte(&self, a: u32, value: u32) -> Effect
        ensures exact { result ≡ store_byte self.now a value }
        ensures safe { CanApply result self.now }
    {
        if self.writable(a) >= 1 {
            Effect::StoreByte {
                at: a,
                value: low8(value),
            }
        } else {
            Effect::Stop(HaltCause::BadAddress(a))
        }
    }

    pub(super) fn store_half(&self, a: u32, value: u32) -> Effect
        ensures exact { result ≡ store_half self.now a value }
        ensures safe { CanApply result self.now }
    {
        if a % 2 != 0 {
            Effect::Stop(HaltCause::Misaligned(a))
        } else if self.writable(a) >= 2 {
            Effect::StoreHalf {
                at: a,
                value: low16(value),
            }
        } else {
            Effect::Stop(HaltCause::BadAddress(a))
        }
    }

    pub(super) fn store_word(&self, a: u32, value: u32) -> Effect
        ensures exact { result ≡ store_word self.now a value }
        ensures safe { CanApply result self.now }
    {
        if a % 4 != 0 {
            Effect::Stop(HaltCause::Misaligned(a))
        } else if self.writable(a) >= 4 {
            Effect::StoreWord { at: a, value }
        } else {
            Effect::Stop(HaltCause::BadAddress(a))
        }
    }
}
