// The bytes of the text.
ghost use Rattle.std.specs.Prelude.{◌≡◌, ◌<◌, ◌^◌, ◌++◌, IfOk, OnOk, length};
ghost use Rattle.p9_base.specs.Numbers.{word_bytes};
ghost use Rattle.p9_r3k.specs.Table.{Fits, word_of};
ghost use Rattle.p9_image.specs.Text.{LinesFit, patched, text_from, text_bytes};

use crate::filling::{SymbolAddresses, patched};
use p9_base::{NoMemory, put32};
use p9_r3k::{Line, encode};
use std::alloc::Global;

// Appends a word, its highest byte first.
fn push_word(out: &mut Vec<u8>, value: u32) -> Result<(), NoMemory>
    ensures { OnOk result (out.new.items ≡ out.old.items ++ word_bytes value) }
{
    let mut word = [0u8; 4];
    put32(&mut word, 0, value);
    out.extend_from_slice(&word)?;
    Ok(())
}

// Appends the word of a line.
#[tactic(auto, using(crate::proofs::Fitting::patched_fits))]
fn push_line(
    out: &mut Vec<u8>,
    tables: &[SymbolAddresses],
    number: u32,
    line: &Line,
) -> Result<(), NoMemory>
    requires { Fits line.now.inst }
    ensures { OnOk result (out.new.items ≡ out.old.items ++ word_bytes (word_of (patched tables.now number line.now))) }
{
    let inst = patched(tables, number, line);
    push_word(out, encode(&inst))
}

/// The bytes of the text of lines: the words of their instructions one behind the other, the highest
/// byte of each first, with the addresses of symbols and the ways to targets filled in.
pub fn text_bytes(
    alloc: Global,
    tables: &[SymbolAddresses],
    lines: &[Line],
) -> Result<Vec<u8>, NoMemory>
    requires fit { LinesFit lines.now }
    requires count { length lines.now < 2 ^ 32 }
    ensures { IfOk result (λ bytes. bytes.items ≡ text_bytes tables.now lines.now) }
{
    let mut bytes = Vec::new(alloc);
    let mut number: u32 = 0;
    let mut rest = lines;
    while let [line, after @ ..] = rest {
        push_line(&mut bytes, tables, number, line)?;
        number += 1;
        rest = after;
    }
    Ok(bytes)
}
