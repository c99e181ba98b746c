// Registers and memory by address.
ghost use Rattle.std.specs.Prelude.{◌≡◌, ◌<◌, ◌≤◌, ◌+◌, ◌^◌, length};
ghost use Rattle.p9_r3k.specs.Memory.{reg, with_reg, readable, writable, read_byte, read_half, read_word, with_byte, with_half, with_word, bytes_from};

use crate::machine::{Machine, STACK_END, STACK_START, TEXT_START};

impl Machine {
    // What a register holds.
    pub(super) fn reg(&self, r: u32) -> u32
        requires { r < 32 }
        ensures { result ≡ reg self.now r }
    {
        self.regs[r as usize]
    }

    // Sets a register, but for register 0.
    pub(super) fn set_reg(&mut self, r: u32, value: u32)
        requires { r < 32 }
        ensures { self.new ≡ record self.old { regs = with_reg self.old.regs r value } }
    {
        if r != 0 {
            self.regs[r as usize] = value;
        }
    }

    // How many bytes from an address on may be read.
    #[inline(always)]
    pub(super) fn readable(&self, a: u32) -> u32
        ensures exact { result ≡ readable self.now a }
        ensures bound { a + result < 2 ^ 32 }
    {
        if a < TEXT_START {
            0
        } else if a < self.text_end {
            if self.text_end == self.data_start {
                self.low_end - a
            } else {
                self.text_end - a
            }
        } else if a < self.data_start {
            0
        } else if a < self.low_end {
            self.low_end - a
        } else if a < STACK_START {
            0
        } else if a < STACK_END {
            STACK_END - a
        } else {
            0
        }
    }

    // How many bytes from an address on may be written.
    pub(super) fn writable(&self, a: u32) -> u32
        ensures exact { result ≡ writable self.now a }
        ensures bound { a + result < 2 ^ 32 }
    {
        if a < self.data_start {
            0
        } else if a < self.low_end {
            self.low_end - a
        } else if a < STACK_START {
            0
        } else if a < STACK_END {
            STACK_END - a
        } else {
            0
        }
    }

    #[inline(always)]
    pub(super) fn byte(&self, a: u32) -> u32
        requires { 1 ≤ readable self.now a }
        ensures { result ≡ read_byte self.now a }
    {
        if a < STACK_START {
            u32::from(self.low[(a - TEXT_START) as usize])
        } else {
            u32::from(self.stack[(a - STACK_START) as usize])
        }
    }

    #[inline(always)]
    pub(super) fn half(&self, a: u32) -> u32
        requires { 2 ≤ readable self.now a }
        ensures { result ≡ read_half self.now a }
    {
        if a < STACK_START {
            self.order.half(&self.low, (a - TEXT_START) as usize)
        } else {
            self.order.half(&self.stack, (a - STACK_START) as usize)
        }
    }

    #[inline(always)]
    pub(super) fn word(&self, a: u32) -> u32
        requires { 4 ≤ readable self.now a }
        ensures { result ≡ read_word self.now a }
    {
        if a < STACK_START {
            self.order.word(&self.low, (a - TEXT_START) as usize)
        } else {
            self.order.word(&self.stack, (a - STACK_START) as usize)
        }
    }

    pub(super) fn set_byte(&mut self, a: u32, value: u8)
        requires { 1 ≤ writable self.old a }
        ensures { self.new ≡ with_byte self.old a value }
    {
        if a < STACK_START {
            self.low[(a - TEXT_START) as usize] = value;
        } else {
            self.stack[(a - STACK_START) as usize] = value;
        }
    }

    pub(super) fn set_half(&mut self, a: u32, value: u32)
        requires { 2 ≤ writable self.old a }
        ensures { self.new ≡ with_half self.old a value }
    {
        if a < STACK_START {
            self.order
                .set_half(&mut self.low, (a - TEXT_START) as usize, value);
        } else {
            self.order
                .set_half(&mut self.stack, (a - STACK_START) as usize, value);
        }
    }

    pub(super) fn set_word(&mut self, a: u32, value: u32)
        requires { 4 ≤ writable self.old a }
        ensures { self.new ≡ with_word self.old a value }
    {
        if a < STACK_START {
            self.order
                .set_word(&mut self.low, (a - TEXT_START) as usize, value);
        } else {
            self.order
                .set_word(&mut self.stack, (a - STACK_START) as usize, value);
        }
    }

    // The bytes of a range.
    pub(super) fn bytes(&self, a: u32, count: u32) -> &[u8]
        requires { count ≤ readable self.now a }
        ensures exact { result.now ≡ bytes_from self.now a count }
        ensures len { length result.now ≡ count }
    {
        if count == 0 {
            &self.low[..0]
        } else if a < STACK_START {
            let start = (a - TEXT_START) as usize;
            &self.low[start..start + count as usize]
        } else {
            let start = (a - STACK_START) as usize;
            &self.stack[start..start + count as usize]
        }
    }
}
