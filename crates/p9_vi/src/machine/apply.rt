// Effects, applied.
ghost use Rattle.std.specs.Prelude.{◌≡◌, ◌<◌};
ghost use Rattle.p9_r3k.specs.Machine.{advanced, halted, linked, sent, applied, answered};
ghost use Rattle.p9_vi.specs.Kept.{CanApply};

use crate::machine::Machine;
use p9_r3k::{Effect, Ending, HaltCause};

impl Machine {
    // On to the next instruction, after one that does or doesn't read HI or LO.
    pub(super) fn advance(&mut self, reader: bool)
        ensures { self.new ≡ advanced self.old reader }
    {
        self.pc = self.next;
        self.next = self.next.wrapping_add(4);
        self.slot = false;
        self.loaded = 0;
        self.used_before = self.used;
        self.used = reader;
    }

    pub(super) fn halt(&mut self, cause: HaltCause)
        ensures { self.new ≡ halted self.old cause }
    {
        self.ending = Ending::Halted(cause, self.pc);
    }

    // A register holds the address of the instruction after the slot.
    fn link(&mut self, register: u32)
        requires { register < 32 }
        ensures { self.new ≡ linked self.old register }
    {
        let back = self.pc.wrapping_add(8);
        self.set_reg(register, back);
    }

    // On to the slot, and then to an address.
    fn send(&mut self, to: u32)
        ensures { self.new ≡ sent self.old to }
    {
        self.advance(false);
        self.next = to;
        self.slot = true;
    }

    // The answer of a system call.
    pub(super) fn answer(&mut self, value: u32)
        ensures { self.new ≡ answered self.old value }
    {
        self.set_reg(1, value);
        self.advance(false);
    }

    // Applies an effect, but for what a system call asks.
    #[inline(always)]
    pub(super) fn apply(&mut self, effect: Effect, reader: bool)
        requires { CanApply effect self.old }
        ensures { self.new ≡ applied effect self.old reader }
    {
        match effect {
            Effect::Write { register, value } => {
                self.set_reg(register, value);
                self.advance(reader);
            }
            Effect::Pair { hi, lo } => {
                self.hi = hi;
                self.lo = lo;
                self.advance(reader);
            }
            Effect::Load { register, value } => {
                self.set_reg(register, value);
                self.advance(reader);
                self.loaded = register;
            }
            Effect::StoreByte { at, value } => {
                self.set_byte(at, value as u8);
                self.advance(reader);
            }
            Effect::StoreHalf { at, value } => {
                self.set_half(at, value);
                self.advance(reader);
            }
            Effect::StoreWord { at, value } => {
                self.set_word(at, value);
                self.advance(reader);
            }
            Effect::Branch { link, taken, to } => {
                let next = if taken { to } else { self.pc.wrapping_add(8) };
                self.link(link);
                self.send(next);
            }
            Effect::JumpTo { link, to } => {
                self.link(link);
                self.send(to);
            }
            Effect::Call => self.advance(reader),
            Effect::Stop(cause) => self.halt(cause),
        }
    }
}
