// The line of a halt.
ghost use Rattle.std.specs.Prelude.{◌++◌, codes, MatchBool};
ghost use Rattle.p9_suite.specs.Answers.{address, cause_text, newline};
ghost use Rattle.p9_suite.specs.Reports.{Whole, Cut};

use crate::put::{put_address, put_address_line, put_all, put_number};
use p9_base::{HaltCause, Sink};

// Puts the name of a cause, and its address or its number.
#[tactic(auto, using(crate::proofs::Puts::line_is))]
fn put_cause<S: Sink>(sink: &mut S, cause: HaltCause) -> bool
    ensures { MatchBool result
        (Whole (S.sofar sink.old) (S.sofar sink.new) (S.faults sink.old) (S.faults sink.new) (cause_text cause))
        (Cut (S.sofar sink.old) (S.sofar sink.new) (S.faults sink.old) (S.faults sink.new) (cause_text cause)) }
{
    match cause {
        HaltCause::Fetch => put_all(sink, b"Fetch"),
        HaltCause::BadWord => put_all(sink, b"BadWord"),
        HaltCause::LoadHazard => put_all(sink, b"LoadHazard"),
        HaltCause::HiLoHazard => put_all(sink, b"HiLoHazard"),
        HaltCause::SlotBranch => put_all(sink, b"SlotBranch"),
        HaltCause::Misaligned(at) => put_address(sink, b"Misaligned ", at),
        HaltCause::BadAddress(at) => put_address(sink, b"BadAddress ", at),
        HaltCause::Divide => put_all(sink, b"Divide"),
        HaltCause::Overflow => put_all(sink, b"Overflow"),
        HaltCause::Break => put_all(sink, b"Break"),
        HaltCause::BadCall(number) => put_number(sink, b"BadCall ", u64::from(number)),
    }
}

// Puts a cause, and the address of the instruction that halted.
#[tactic(auto, using(crate::proofs::Puts::then_put, crate::proofs::Puts::first_cut))]
fn put_place<S: Sink>(sink: &mut S, cause: HaltCause, pc: u32) -> bool
    ensures { MatchBool result
        (Whole (S.sofar sink.old) (S.sofar sink.new) (S.faults sink.old) (S.faults sink.new) (cause_text cause ++ (codes " " ++ (address pc ++ newline))))
        (Cut (S.sofar sink.old) (S.sofar sink.new) (S.faults sink.old) (S.faults sink.new) (cause_text cause ++ (codes " " ++ (address pc ++ newline)))) }
{
    if put_cause(sink, cause) {
        put_address_line(sink, b" ", pc)
    } else {
        false
    }
}

/// Puts the line of a halt.
pub(crate) fn put_halt<S: Sink>(sink: &mut S, cause: HaltCause, pc: u32) -> bool
    ensures { MatchBool result
        (Whole (S.sofar sink.old) (S.sofar sink.new) (S.faults sink.old) (S.faults sink.new) (codes "halt " ++ (cause_text cause ++ (codes " " ++ (address pc ++ newline)))))
        (Cut (S.sofar sink.old) (S.sofar sink.new) (S.faults sink.old) (S.faults sink.new) (codes "halt " ++ (cause_text cause ++ (codes " " ++ (address pc ++ newline))))) }
{
    if put_all(sink, b"halt ") {
        put_place(sink, cause, pc)
    } else {
        false
    }
}
