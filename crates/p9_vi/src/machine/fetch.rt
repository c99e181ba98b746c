// The instruction at the pc.
ghost use Rattle.std.specs.Prelude.{◌≡◌, IfOk};
ghost use Rattle.p9_r3k.specs.Table.{Fits};
ghost use Rattle.p9_r3k.specs.Machine.{fetched};

use crate::machine::{Machine, TEXT_START};
use p9_r3k::{HaltCause, Inst, decode};

impl Machine {
    // The next instruction, or the stop that comes before its own.
    #[tactic(auto, unfolding(p9_r3k::specs::Machine::fetched))]
    #[inline(always)]
    pub(super) fn fetch(&self) -> Result<Inst, HaltCause>
        ensures exact { result ≡ fetched self.now }
        ensures fits { IfOk result Fits }
    {
        if !(self.pc % 4 == 0 && TEXT_START <= self.pc && self.pc < self.text_end) {
            return Err(HaltCause::Fetch);
        }
        match decode(self.word(self.pc)) {
            None => Err(HaltCause::BadWord),
            Some(i) => {
                if self.loaded != 0 && i.reads(self.loaded) {
                    Err(HaltCause::LoadHazard)
                } else if i.writes_pair() && (self.used || self.used_before) {
                    Err(HaltCause::HiLoHazard)
                } else if self.slot && i.branches() {
                    Err(HaltCause::SlotBranch)
                } else {
                    Ok(i)
                }
            }
        }
    }
}
