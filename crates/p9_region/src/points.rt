// The points of an automatic.

ghost use Rattle.std.specs.Prelude.{◌≡◌, ◌≢◌, ◌==◌, ◌/◌, ◌%◌, ◌++◌, ◌∷◌, ◌^◌, ◌<◌, [], length, slice_get, slice_index, IfOk, OnOk, if◌then◌else◌};
ghost use Rattle.std.specs.Int.{bit_at};
ghost use Rattle.p9_region.specs.Picking.{picked, is_it, live_bit, written_in, point_bit, is_in_column, column_written, column_bit};

use crate::steps::Step;
use p9_base::NoMemory;
use std::alloc::Global;

#[tactic(auto, using(std::proofs::lemmas::Nat::Bits::shr_and_one))]
fn bit_of(word: u64, v: u32) -> bool
    ensures { result ≡ (bit_at word (v % 64) == 1) }
{
    (word >> (v % 64)) & 1 == 1
}

fn word_at(bits: &[u64], i: usize) -> u64
    ensures { result ≡ slice_index bits.now i }
{
    match bits.get(i) {
        Some(word) => *word,
        None => 0,
    }
}

/// Whether the bit of automatic v is set in row i.
pub(crate) fn is_live(bits: &[u64], width: u32, v: u32, i: u32) -> bool
    ensures { result ≡ live_bit bits.now width v i }
{
    bit_of(
        word_at(bits, i as usize * width as usize + (v / 64) as usize),
        v,
    )
}

fn is_it(v: u32, automatic: Option<u32>) -> bool
    ensures { result ≡ is_it v automatic }
{
    match automatic {
        None => false,
        Some(w) => w == v,
    }
}

fn is_written(steps: &[Step], v: u32, i: u32) -> bool
    ensures { result ≡ written_in v (slice_get steps.now i) }
{
    match steps.get(i as usize) {
        None => false,
        Some(step) => is_it(v, step.written),
    }
}

fn is_point(steps: &[Step], bits: &[u64], width: u32, v: u32, i: u32) -> bool
    ensures { result ≡ point_bit steps.now bits.now width v i }
{
    is_live(bits, width, v, i) || is_written(steps, v, i)
}

/// Adds a number, if it passes.
pub(crate) fn keep_if(passes: bool, i: u32, list: &mut Vec<u32>) -> Result<(), NoMemory>
    ensures { OnOk result (list.new.items ≡ (if passes then list.old.items ++ i ∷ [] else list.old.items)) }
{
    if passes {
        list.push(i)?;
    }
    Ok(())
}

fn is_in_column(word: u32, automatic: Option<u32>) -> bool
    ensures { result ≡ is_in_column word automatic }
{
    match automatic {
        None => false,
        Some(w) => w / 64 == word,
    }
}

fn is_column_written(steps: &[Step], word: u32, i: u32) -> bool
    ensures { result ≡ column_written word (slice_get steps.now i) }
{
    match steps.get(i as usize) {
        None => false,
        Some(step) => is_in_column(word, step.written),
    }
}

fn is_column_point(steps: &[Step], bits: &[u64], width: u32, word: u32, i: u32) -> bool
    ensures { result ≡ column_bit steps.now bits.now width word i }
{
    word_at(bits, i as usize * width as usize + word as usize) != 0
        || is_column_written(steps, word, i)
}

// The instructions where one of 64 automatics is live, and those that write one.
fn column_points(
    alloc: Global,
    steps: &[Step],
    bits: &[u64],
    width: u32,
    word: u32,
) -> Result<Vec<u32>, NoMemory>
    requires { length steps.now < 2 ^ 32 }
    ensures { IfOk result (λ points. points.items ≡ picked (column_bit steps.now bits.now width word) (length steps.now)) }
{
    let mut points = Vec::new(alloc);
    for i in 0..steps.len() as u32 {
        keep_if(is_column_point(steps, bits, width, word, i), i, &mut points)?;
    }
    Ok(points)
}

/// The points of the column of automatic v, which are those of the automatic before it unless v
/// begins a column.
pub(crate) fn next_column(
    alloc: Global,
    steps: &[Step],
    bits: &[u64],
    width: u32,
    v: u32,
    column: Vec<u32>,
) -> Result<Vec<u32>, NoMemory>
    requires few { length steps.now < 2 ^ 32 }
    requires before { v % 64 ≢ 0 → column.items ≡ picked (column_bit steps.now bits.now width (v / 64)) (length steps.now) }
    ensures { IfOk result (λ points. points.items ≡ picked (column_bit steps.now bits.now width (v / 64)) (length steps.now)) }
{
    if v % 64 == 0 {
        column_points(alloc, steps, bits, width, v / 64)
    } else {
        Ok(column)
    }
}

/// The instructions where automatic v is live, and those that write it, among those of its column.
pub(crate) fn points(
    alloc: Global,
    steps: &[Step],
    bits: &[u64],
    width: u32,
    v: u32,
    column: &[u32],
) -> Result<Vec<u32>, NoMemory>
    requires { column.now ≡ picked (column_bit steps.now bits.now width (v / 64)) (length steps.now) }
    ensures { IfOk result (λ points. points.items ≡ picked (point_bit steps.now bits.now width v) (length steps.now)) }
{
    let mut points = Vec::new(alloc);
    for i in column {
        keep_if(is_point(steps, bits, width, v, *i), *i, &mut points)?;
    }
    Ok(points)
}
