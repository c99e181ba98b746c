// What a system call asks for.
ghost use Rattle.std.specs.Prelude.{◌≡◌, ◌<◌, ◌==◌, ℕ, IfSome, length, position};
ghost use Rattle.p9_r3k.specs.Machine.{argument, then_three, asked_exits, asked_read, asked_write, asked};
ghost use Rattle.p9_base.specs.declared.halt.Asked.{Asked};
ghost use Rattle.p9_vi.specs.Kept.{CanAsk, with_words};

use crate::machine::Machine;
use p9_base::{is_negative, word_sum};
use p9_r3k::{Asked, HaltCause};

impl Machine {
    // A word among the arguments.
    fn argument(&self, a: u32) -> Result<u32, HaltCause>
        ensures { result ≡ argument self.now a }
    {
        if a % 4 != 0 {
            return Err(HaltCause::Misaligned(a));
        }
        let reach = self.readable(a);
        if reach >= 4 {
            Ok(self.word(a))
        } else {
            Err(HaltCause::BadAddress(a + reach))
        }
    }

    // Three arguments.
    fn arguments(&self) -> Result<(u32, u32, u32), HaltCause>
        ensures { (go : ℕ → ℕ → ℕ → Asked) → then_three self.now go ≡ with_words result go }
    {
        let descriptor = self.argument(word_sum(self.reg(29), 4))?;
        let a = self.argument(word_sum(self.reg(29), 8))?;
        let count = self.argument(word_sum(self.reg(29), 12))?;
        Ok((descriptor, a, count))
    }

    fn asked_exits(&self, a: u32) -> Asked
        ensures exact { result ≡ asked_exits self.now a }
        ensures can { CanAsk result self.now }
    {
        let _ = &self.low_end;
        if a == 0 {
            return Asked::Exits { at: 0, length: 0 };
        }
        let reach = self.readable(a);
        match first_zero(self.bytes(a, reach)) {
            None => Asked::Stop(HaltCause::BadAddress(a + reach)),
            Some(length) => Asked::Exits {
                at: a,
                length: length as u32,
            },
        }
    }

    fn asked_read(&self, descriptor: u32, a: u32, count: u32) -> Asked
        ensures exact { result ≡ asked_read self.now descriptor a count }
        ensures can { CanAsk result self.now }
    {
        if descriptor != 0 || is_negative(count) {
            return Asked::Refused;
        }
        let reach = self.writable(a);
        if count <= reach {
            Asked::Read { at: a, count }
        } else {
            Asked::Stop(HaltCause::BadAddress(a + reach))
        }
    }

    fn asked_write(&self, descriptor: u32, a: u32, count: u32) -> Asked
        ensures exact { result ≡ asked_write self.now descriptor a count }
        ensures can { CanAsk result self.now }
    {
        if descriptor != 1 || is_negative(count) {
            return Asked::Refused;
        }
        let reach = self.readable(a);
        if count <= reach {
            Asked::Write { at: a, count }
        } else {
            Asked::Stop(HaltCause::BadAddress(a + reach))
        }
    }

    // What the system call at the pc asks for.
    pub(super) fn asked(&self) -> Asked
        ensures exact { result ≡ asked self.now }
        ensures can { CanAsk result self.now }
    {
        match self.reg(1) {
            8 => match self.argument(word_sum(self.reg(29), 4)) {
                Ok(a) => self.asked_exits(a),
                Err(cause) => Asked::Stop(cause),
            },
            15 => match self.arguments() {
                Ok((descriptor, a, count)) => self.asked_read(descriptor, a, count),
                Err(cause) => Asked::Stop(cause),
            },
            20 => match self.arguments() {
                Ok((descriptor, a, count)) => self.asked_write(descriptor, a, count),
                Err(cause) => Asked::Stop(cause),
            },
            number => Asked::Stop(HaltCause::BadCall(number)),
        }
    }
}

// The place of the first zero byte.
fn first_zero(bytes: &[u8]) -> Option<usize>
    ensures exact { result ≡ position (λ b. b == 0) bytes.now }
    ensures bound { IfSome result (λ k. k < length bytes.now) }
{
    bytes.iter().position(|b| *b == 0)
}
