// The machine that is simulated.
ghost use Rattle.std.specs.Prelude.{◌≡◌, ◌<◌, ◌≤◌, ◌+◌, ◌-◌, ◌%◌, ◌^◌, [], length, IfOk};
ghost use Rattle.p9_aout.specs.Image.{parts_of, IsWithinBounds};
ghost use Rattle.p9_r3k.specs.Machine.{exit_text};
ghost use Rattle.p9_r3k.specs.Memory.{text_start, stack_start};
ghost use Rattle.p9_r3k.specs.Start.{zeros, page_from, before_run, low_bytes};
ghost use Rattle.p9_vi.specs.Run.{start_of, IsExited};

use p9_aout::Image;
use p9_base::{ByteOrder, NoMemory};
use p9_r3k::Ending;
use std::alloc::Global;
use std::marker::Model;

mod access;
mod apply;
mod asking;
mod calls;
mod effect;
mod fetch;
mod memory;
mod plain;

const TEXT_START: u32 = 0x1020;

const STACK_START: u32 = 0x7EFF_F000;

const STACK_END: u32 = 0x7FFF_F000;

const STACK_SIZE: usize = 0x100_0000;

const PAGE: u32 = 4096;

/// A machine with its memory.
#[derive(Drop)]
pub struct Machine {
    order: ByteOrder,
    regs: [u32; 32],
    hi: u32,
    lo: u32,
    // The bytes from the text's start on: text, gap, data and bss.
    low: Vec<u8>,
    stack: Vec<u8>,
    text_end: u32,
    data_start: u32,
    low_end: u32,
    pc: u32,
    next: u32,
    slot: bool,
    loaded: u32,
    used: bool,
    used_before: bool,
    ending: Ending,
}

impl Model for Machine {
    ghost use Rattle.std.specs.Prelude.{◌≡◌, ◌+◌, ◌%◌, ◌^◌, ◌<◌, ◌≤◌, length};
    ghost use Rattle.p9_r3k.specs.Memory.{Core, text_start, stack_start};
    ghost use Rattle.p9_vi.specs.Kept.{ExitFits};

    ghost Value = { Core };

    ghost view = { λ m. record {
      order = m.order;
      regs = m.regs;
      hi = m.hi;
      lo = m.lo;
      low = m.low.items;
      stack = m.stack.items;
      text_end = m.text_end;
      data_start = m.data_start;
      pc = m.pc;
      next = m.next;
      slot = m.slot;
      loaded = m.loaded;
      used = m.used;
      used_before = m.used_before;
      ending = m.ending;
    } };

    ghost invariant = { λ m. (m.low_end ≡ text_start + length m.low.items) × (length m.stack.items ≡ 2 ^ 24)
        × (text_start ≤ m.text_end) × (m.text_end % 4 ≡ 0) × (m.text_end ≤ m.data_start) × (m.data_start ≤ m.low_end)
        × (m.low_end < stack_start) × ExitFits m.ending (length m.low.items) };
}

impl Machine {
    /// Takes all memory of the run, and stands before the first instruction, big-endian.
    pub fn new(alloc: Global, image: &Image) -> Result<Machine, NoMemory>
        requires { IsWithinBounds (parts_of image.now) }
        ensures { IfOk result (λ machine. machine ≡ (start_of (parts_of image.now) []).core) }
    {
        let low = low_bytes(
            alloc,
            &image.text.list,
            &image.init.list,
            image.bss as usize,
        )?;
        let stack = zeros(alloc, STACK_SIZE)?;
        let text_end = TEXT_START + image.text.list.len() as u32;
        Ok(before_run(low, stack, text_end, page_from(text_end), image.entry))
    }

    /// The same machine over memory whose half words and words have this order.
    pub fn in_order(self, order: ByteOrder) -> Machine
        ensures { result ≡ record self { order = order } }
    {
        Machine { order, ..self }
    }

    /// The text of the exit.
    pub fn exit_text(&self) -> &[u8]
        requires { IsExited self.now.ending }
        ensures { result.now ≡ exit_text self.now }
    {
        match self.ending {
            Ending::Exited { at, length } => {
                if length == 0 {
                    &self.low[..0]
                } else if at < STACK_START {
                    let start = (at - TEXT_START) as usize;
                    &self.low[start..start + length as usize]
                } else {
                    let start = (at - STACK_START) as usize;
                    &self.stack[start..start + length as usize]
                }
            }
            _ => unreachable!(),
        }
    }
}

// The first multiple of 4096 that isn't below.
fn page_from(a: u32) -> u32
    requires { a < 2 ^ 31 }
    ensures { result ≡ page_from a }
{
    (a + PAGE - 1) / PAGE * PAGE
}

// So many zero bytes.
#[tactic(auto, unfolding(p9_r3k::specs::Start::zeros))]
fn zeros(alloc: Global, count: usize) -> Result<Vec<u8>, NoMemory>
    ensures zeros { IfOk result (λ bytes. bytes.items ≡ zeros count) }
    ensures len { IfOk result (λ bytes. length bytes.items ≡ count) }
{
    let bytes = vec![in alloc; 0; count]?;
    Ok(bytes)
}

// Text, a gap up to the next page, data and bss.
#[tactic(auto, unfolding(p9_r3k::specs::Start::zeros))]
fn low_bytes(alloc: Global, text: &[u8], init: &[u8], bss: usize) -> Result<Vec<u8>, NoMemory>
    requires text { length text.now ≤ 33554432 }
    requires data { length init.now + bss ≤ 16777216 }
    ensures bytes { IfOk result (λ bytes. bytes.items ≡ low_bytes text.now init.now bss) }
    ensures len { IfOk result (λ bytes. length bytes.items
        ≡ page_from (text_start + length text.now) - text_start + length init.now + bss) }
{
    let text_end = TEXT_START + text.len() as u32;
    let gap = (page_from(text_end) - text_end) as usize;
    let size = text.len() + gap + init.len() + bss;
    let mut bytes = Vec::with_capacity(alloc, size)?;
    bytes.extend_from_slice(text)?;
    bytes.resize(text.len() + gap, 0)?;
    bytes.extend_from_slice(init)?;
    bytes.resize(size, 0)?;
    Ok(bytes)
}

// A machine before its first instruction.
fn before_run(low: Vec<u8>, stack: Vec<u8>, text_end: u32, data_start: u32, entry: u32) -> Machine
    requires stack { length stack.items ≡ 2 ^ 24 }
    requires text { text_start ≤ text_end }
    requires words { text_end % 4 ≡ 0 }
    requires order { text_end ≤ data_start }
    requires data { data_start ≤ text_start + length low.items }
    requires below { text_start + length low.items < stack_start }
    ensures { result ≡ before_run low.items stack.items text_end data_start entry }
{
    let mut regs = [0; 32];
    regs[29] = STACK_END;
    let low_end = TEXT_START + low.len() as u32;
    Machine {
        order: ByteOrder::Big,
        regs,
        hi: 0,
        lo: 0,
        low,
        stack,
        text_end,
        data_start,
        low_end,
        pc: entry,
        next: entry.wrapping_add(4),
        slot: false,
        loaded: 0,
        used: false,
        used_before: false,
        ending: Ending::Running,
    }
}
