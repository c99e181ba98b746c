// Texts that are put on a sink piece by piece, without taking memory.
ghost use Rattle.std.specs.Prelude.{◌≡◌, ◌≤◌, ◌++◌, List, ℕ, length, codes, decimal, MatchBool};
ghost use Rattle.p9_suite.specs.Answers.{newline, address};
ghost use Rattle.p9_suite.specs.Reports.{Whole, Cut};

use hex::encode_to_slice;
use itoa::Buffer;
use p9_base::{Put, Sink};

/// Puts all of a text, in as many pieces as the sink takes.
#[tactic(auto, using(crate::proofs::Puts::none_put, crate::proofs::Puts::all_put))]
pub(crate) fn put_all<S: Sink>(sink: &mut S, text: &[u8]) -> bool
    ensures { MatchBool result
        (Whole (S.sofar sink.old) (S.sofar sink.new) (S.faults sink.old) (S.faults sink.new) text.now)
        (Cut (S.sofar sink.old) (S.sofar sink.new) (S.faults sink.old) (S.faults sink.new) text.now) }
{
    let mut rest = text;
    while !rest.is_empty() {
        match sink.put(rest) {
            Put::Wrote(count) => rest = &rest[count..],
            Put::Failed => return false,
        }
    }
    true
}

/// Puts a text and another behind it.
#[tactic(auto, using(crate::proofs::Puts::then_put, crate::proofs::Puts::first_cut))]
pub(crate) fn put_both<S: Sink>(sink: &mut S, first: &[u8], second: &[u8]) -> bool
    ensures { MatchBool result
        (Whole (S.sofar sink.old) (S.sofar sink.new) (S.faults sink.old) (S.faults sink.new) (first.now ++ second.now))
        (Cut (S.sofar sink.old) (S.sofar sink.new) (S.faults sink.old) (S.faults sink.new) (first.now ++ second.now)) }
{
    if put_all(sink, first) {
        put_all(sink, second)
    } else {
        false
    }
}

/// Puts three texts, one behind the other.
#[tactic(auto, using(crate::proofs::Puts::then_put, crate::proofs::Puts::first_cut))]
pub(crate) fn put_three<S: Sink>(sink: &mut S, first: &[u8], second: &[u8], third: &[u8]) -> bool
    ensures { MatchBool result
        (Whole (S.sofar sink.old) (S.sofar sink.new) (S.faults sink.old) (S.faults sink.new) (first.now ++ (second.now ++ third.now)))
        (Cut (S.sofar sink.old) (S.sofar sink.new) (S.faults sink.old) (S.faults sink.new) (first.now ++ (second.now ++ third.now))) }
{
    if put_all(sink, first) {
        put_both(sink, second, third)
    } else {
        false
    }
}

/// Puts a text and a decimal number.
#[tactic(auto, using(crate::proofs::Puts::line_is))]
pub(crate) fn put_number<S: Sink>(sink: &mut S, front: &[u8], number: u64) -> bool
    ensures { MatchBool result
        (Whole (S.sofar sink.old) (S.sofar sink.new) (S.faults sink.old) (S.faults sink.new) (front.now ++ decimal number))
        (Cut (S.sofar sink.old) (S.sofar sink.new) (S.faults sink.old) (S.faults sink.new) (front.now ++ decimal number)) }
{
    let mut buffer = Buffer::new();
    put_both(sink, front, buffer.format(number).as_bytes())
}

/// Puts a text, a decimal number and a newline.
#[tactic(auto, using(crate::proofs::Puts::line_is))]
pub(crate) fn put_number_line<S: Sink>(sink: &mut S, front: &[u8], number: u64) -> bool
    ensures { MatchBool result
        (Whole (S.sofar sink.old) (S.sofar sink.new) (S.faults sink.old) (S.faults sink.new) (front.now ++ (decimal number ++ newline)))
        (Cut (S.sofar sink.old) (S.sofar sink.new) (S.faults sink.old) (S.faults sink.new) (front.now ++ (decimal number ++ newline))) }
{
    let mut buffer = Buffer::new();
    put_three(sink, front, buffer.format(number).as_bytes(), b"\n")
}

/// Puts a file's name, a fault, a decimal number and a newline.
#[tactic(auto, using(crate::proofs::Puts::then_put, crate::proofs::Puts::first_cut))]
pub(crate) fn put_numbered<S: Sink>(sink: &mut S, file: &[u8], fault: &[u8], number: u64) -> bool
    ensures { MatchBool result
        (Whole (S.sofar sink.old) (S.sofar sink.new) (S.faults sink.old) (S.faults sink.new) (file.now ++ (fault.now ++ (decimal number ++ newline))))
        (Cut (S.sofar sink.old) (S.sofar sink.new) (S.faults sink.old) (S.faults sink.new) (file.now ++ (fault.now ++ (decimal number ++ newline)))) }
{
    if put_all(sink, file) {
        put_number_line(sink, fault, number)
    } else {
        false
    }
}

// An address, as eight hexadecimal digits.
fn address(a: u32) -> [u8; 8]
    ensures { result ≡ address a }
{
    let mut digits = [0; 8];
    match encode_to_slice(a.to_be_bytes(), &mut digits) {
        Ok(()) => digits,
        // There is room for two digits a byte.
        Err(_) => unreachable!(),
    }
}

/// Puts a text and an address.
#[tactic(auto, using(crate::proofs::Puts::line_is))]
pub(crate) fn put_address<S: Sink>(sink: &mut S, front: &[u8], a: u32) -> bool
    ensures { MatchBool result
        (Whole (S.sofar sink.old) (S.sofar sink.new) (S.faults sink.old) (S.faults sink.new) (front.now ++ address a))
        (Cut (S.sofar sink.old) (S.sofar sink.new) (S.faults sink.old) (S.faults sink.new) (front.now ++ address a)) }
{
    put_both(sink, front, &address(a))
}

/// Puts a text, an address and a newline.
#[tactic(auto, using(crate::proofs::Puts::line_is))]
pub(crate) fn put_address_line<S: Sink>(sink: &mut S, front: &[u8], a: u32) -> bool
    ensures { MatchBool result
        (Whole (S.sofar sink.old) (S.sofar sink.new) (S.faults sink.old) (S.faults sink.new) (front.now ++ (address a ++ newline)))
        (Cut (S.sofar sink.old) (S.sofar sink.new) (S.faults sink.old) (S.faults sink.new) (front.now ++ (address a ++ newline))) }
{
    put_three(sink, front, &address(a), b"\n")
}
