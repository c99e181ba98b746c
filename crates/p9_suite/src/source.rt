// The line of a source file that is refused.
ghost use Rattle.std.specs.Prelude.{◌≡◌, ◌++◌, codes, decimal, MatchBool};
ghost use Rattle.p9_suite.specs.Answers.{assembly_line, assembly_status, lex_line, lex_status, newline, place};
ghost use Rattle.p9_suite.specs.Reports.{Whole, Cut};

use crate::put::{put_all, put_both, put_number, put_number_line, put_three};
use p9_asm::AsmFault;
use p9_base::Sink;
use p9_lex::LexFault;

// Puts a file's name and a line of it.
#[tactic(auto, using(crate::proofs::Puts::then_put, crate::proofs::Puts::first_cut, crate::proofs::Puts::line_is))]
fn put_place<S: Sink>(sink: &mut S, file: &[u8], line: u64) -> bool
    ensures { MatchBool result
        (Whole (S.sofar sink.old) (S.sofar sink.new) (S.faults sink.old) (S.faults sink.new) (place file.now line))
        (Cut (S.sofar sink.old) (S.sofar sink.new) (S.faults sink.old) (S.faults sink.new) (place file.now line)) }
{
    if put_all(sink, file) {
        put_number(sink, b":", line)
    } else {
        false
    }
}

// Puts a place, and what is wrong there.
#[tactic(auto, using(crate::proofs::Puts::then_put, crate::proofs::Puts::first_cut))]
fn put_fault<S: Sink>(sink: &mut S, file: &[u8], line: u64, fault: &[u8]) -> bool
    ensures { MatchBool result
        (Whole (S.sofar sink.old) (S.sofar sink.new) (S.faults sink.old) (S.faults sink.new) (place file.now line ++ fault.now))
        (Cut (S.sofar sink.old) (S.sofar sink.new) (S.faults sink.old) (S.faults sink.new) (place file.now line ++ fault.now)) }
{
    if put_place(sink, file, line) {
        put_all(sink, fault)
    } else {
        false
    }
}

// Puts a place, what is wrong there, and a number.
#[tactic(auto, using(crate::proofs::Puts::then_put, crate::proofs::Puts::first_cut))]
fn put_fault_number<S: Sink>(
    sink: &mut S,
    file: &[u8],
    line: u64,
    fault: &[u8],
    number: u64,
) -> bool
    ensures { MatchBool result
        (Whole (S.sofar sink.old) (S.sofar sink.new) (S.faults sink.old) (S.faults sink.new) (place file.now line ++ (fault.now ++ (decimal number ++ newline))))
        (Cut (S.sofar sink.old) (S.sofar sink.new) (S.faults sink.old) (S.faults sink.new) (place file.now line ++ (fault.now ++ (decimal number ++ newline)))) }
{
    if put_place(sink, file, line) {
        put_number_line(sink, fault, number)
    } else {
        false
    }
}

// Puts a place, what is wrong there, and a name.
#[tactic(auto, using(crate::proofs::Puts::then_put, crate::proofs::Puts::first_cut))]
fn put_fault_name<S: Sink>(sink: &mut S, file: &[u8], line: u64, fault: &[u8], name: &[u8]) -> bool
    ensures { MatchBool result
        (Whole (S.sofar sink.old) (S.sofar sink.new) (S.faults sink.old) (S.faults sink.new) (place file.now line ++ (fault.now ++ (name.now ++ newline))))
        (Cut (S.sofar sink.old) (S.sofar sink.new) (S.faults sink.old) (S.faults sink.new) (place file.now line ++ (fault.now ++ (name.now ++ newline)))) }
{
    if put_place(sink, file, line) {
        put_three(sink, fault, name, b"\n")
    } else {
        false
    }
}

// Puts the line of a file that has no tokens.
#[tactic(auto, using(crate::proofs::Puts::line_is))]
fn put_lex<S: Sink>(sink: &mut S, file: &[u8], fault: &LexFault) -> bool
    ensures { MatchBool result
        (Whole (S.sofar sink.old) (S.sofar sink.new) (S.faults sink.old) (S.faults sink.new) (lex_line file.now fault.now))
        (Cut (S.sofar sink.old) (S.sofar sink.new) (S.faults sink.old) (S.faults sink.new) (lex_line file.now fault.now)) }
{
    match fault {
        LexFault::BadByte { at, line } => {
            let (line, at) = (u64::from(*line), u64::from(*at));
            put_fault_number(sink, file, line, b": 1 BadByte ", at)
        }
        LexFault::OpenComment { at, line } => {
            let (line, at) = (u64::from(*line), u64::from(*at));
            put_fault_number(sink, file, line, b": 2 OpenComment ", at)
        }
        LexFault::OpenText { at, line } => {
            let (line, at) = (u64::from(*line), u64::from(*at));
            put_fault_number(sink, file, line, b": 3 OpenText ", at)
        }
        LexFault::WideNumber { at, line } => {
            let (line, at) = (u64::from(*line), u64::from(*at));
            put_fault_number(sink, file, line, b": 4 WideNumber ", at)
        }
        LexFault::Memory => put_all(sink, b"no memory\n"),
    }
}

/// Puts the line of a file that the assembler refuses.
#[tactic(auto, using(crate::proofs::Puts::line_is))]
pub(crate) fn put_assembly<S: Sink>(sink: &mut S, file: &[u8], fault: &AsmFault) -> bool
    ensures { MatchBool result
        (Whole (S.sofar sink.old) (S.sofar sink.new) (S.faults sink.old) (S.faults sink.new) (assembly_line file.now fault.now))
        (Cut (S.sofar sink.old) (S.sofar sink.new) (S.faults sink.old) (S.faults sink.new) (assembly_line file.now fault.now)) }
{
    match fault {
        AsmFault::Lex(why) => put_lex(sink, file, why),
        AsmFault::AsmSyntax { line } => {
            put_fault(sink, file, u64::from(*line), b": 32 AsmSyntax\n")
        }
        AsmFault::Reserved { line, register } => {
            let (line, register) = (u64::from(*line), u64::from(*register));
            put_fault_number(sink, file, line, b": 33 Reserved ", register)
        }
        AsmFault::NoLabel { line, name } => {
            let line = u64::from(*line);
            put_fault_name(sink, file, line, b": 34 NoLabel ", &name.list)
        }
        AsmFault::LabelTwice { line, name } => {
            let line = u64::from(*line);
            put_fault_name(sink, file, line, b": 35 LabelTwice ", &name.list)
        }
        AsmFault::Memory => put_all(sink, b"no memory\n"),
    }
}

fn lex_status(fault: &LexFault) -> u8
    ensures { result ≡ lex_status fault.now }
{
    match fault {
        LexFault::BadByte { .. } => 3,
        LexFault::OpenComment { .. } => 3,
        LexFault::OpenText { .. } => 3,
        LexFault::WideNumber { .. } => 3,
        LexFault::Memory => 10,
    }
}

/// The status of a file that the assembler refuses.
pub(crate) fn assembly_status(fault: &AsmFault) -> u8
    ensures { result ≡ assembly_status fault.now }
{
    match fault {
        AsmFault::Lex(why) => lex_status(why),
        AsmFault::AsmSyntax { .. } => 3,
        AsmFault::Reserved { .. } => 3,
        AsmFault::NoLabel { .. } => 3,
        AsmFault::LabelTwice { .. } => 3,
        AsmFault::Memory => 10,
    }
}
