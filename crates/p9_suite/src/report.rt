// The line on the sink of errors.
ghost use Rattle.std.specs.Prelude.{◌≡◌, ◌++◌, codes, decimal, MatchBool};
ghost use Rattle.p9_suite.specs.Answers.{end_line, end_status, executable_line, executable_status, message, newline, refusal_line, refusal_status, status};
ghost use Rattle.p9_suite.specs.Reports.{Whole, Cut, Tells};

mod modules;

use crate::answer::{Answer, End, Refusal};
use crate::halt::put_halt;
use crate::put::{put_all, put_both, put_number_line, put_numbered};
use crate::report::modules::{
    link_status, load_status, object_status, put_link, put_load, put_object,
};
use crate::source::{assembly_status, put_assembly};
use p9_aout::AoutFault;
use p9_base::Sink;

// Puts the line of a file that is no executable.
#[tactic(auto, using(crate::proofs::Puts::line_is))]
fn put_executable<S: Sink>(sink: &mut S, file: &[u8], fault: AoutFault) -> bool
    ensures { MatchBool result
        (Whole (S.sofar sink.old) (S.sofar sink.new) (S.faults sink.old) (S.faults sink.new) (executable_line file.now fault))
        (Cut (S.sofar sink.old) (S.sofar sink.new) (S.faults sink.old) (S.faults sink.new) (executable_line file.now fault)) }
{
    match fault {
        AoutFault::BadMagic(magic) => put_numbered(sink, file, b": 50 BadMagic ", u64::from(magic)),
        AoutFault::ShortFile(need) => put_numbered(sink, file, b": 51 ShortFile ", need),
        AoutFault::BadSegment => put_both(sink, file, b": 52 BadSegment\n"),
        AoutFault::Memory => put_all(sink, b"no memory\n"),
    }
}

// Puts the line of a refusal.
#[tactic(auto, using(crate::proofs::Puts::line_is))]
fn put_refusal<S: Sink>(sink: &mut S, why: &Refusal) -> bool
    ensures { MatchBool result
        (Whole (S.sofar sink.old) (S.sofar sink.new) (S.faults sink.old) (S.faults sink.new) (refusal_line why.now))
        (Cut (S.sofar sink.old) (S.sofar sink.new) (S.faults sink.old) (S.faults sink.new) (refusal_line why.now)) }
{
    match why {
        Refusal::Absent(file) => put_both(sink, &file.list, b": absent\n"),
        Refusal::StoreFault(file) => put_both(sink, &file.list, b": store fault\n"),
        Refusal::NotBuilt(file) => put_both(sink, &file.list, b": not built\n"),
        Refusal::Assembly(file, fault) => put_assembly(sink, &file.list, fault),
        Refusal::Object(file, fault) => put_object(sink, &file.list, *fault),
        Refusal::Link(fault) => put_link(sink, fault),
        Refusal::Load(fault) => put_load(sink, fault),
        Refusal::Executable(file, fault) => put_executable(sink, &file.list, *fault),
        Refusal::Memory => put_all(sink, b"no memory\n"),
    }
}

// Puts the line of a run's end.
#[tactic(auto, using(crate::proofs::Puts::line_is))]
fn put_end<S: Sink>(sink: &mut S, end: &End) -> bool
    ensures { MatchBool result
        (Whole (S.sofar sink.old) (S.sofar sink.new) (S.faults sink.old) (S.faults sink.new) (end_line end.now))
        (Cut (S.sofar sink.old) (S.sofar sink.new) (S.faults sink.old) (S.faults sink.new) (end_line end.now)) }
{
    match end {
        End::Exit(text) => put_both(sink, text.bytes(), b"\n"),
        End::ReadFault => put_all(sink, b"read fault\n"),
        End::WriteFault => put_all(sink, b"write fault\n"),
        End::Halted(cause, pc) => put_halt(sink, *cause, *pc),
        End::Spent(budget) => put_number_line(sink, b"budget ", u64::from(*budget)),
    }
}

// Puts an answer's line.
#[tactic(auto, using(crate::proofs::Puts::line_is))]
fn put_line<S: Sink>(sink: &mut S, answer: &Answer) -> bool
    ensures { MatchBool result
        (Whole (S.sofar sink.old) (S.sofar sink.new) (S.faults sink.old) (S.faults sink.new) (message answer.now))
        (Cut (S.sofar sink.old) (S.sofar sink.new) (S.faults sink.old) (S.faults sink.new) (message answer.now)) }
{
    match answer {
        Answer::Done => put_all(sink, b""),
        Answer::Usage => put_all(sink, b"usage\n"),
        Answer::Refused(why) => put_refusal(sink, why),
        Answer::Ran(end) => put_end(sink, end),
    }
}

/// Puts an answer's line. It takes no memory, so want of memory hides no status.
#[tactic(auto, using(crate::proofs::Puts::told))]
pub(crate) fn report<S: Sink>(sink: &mut S, answer: &Answer)
    ensures { Tells S.sofar S.faults sink.old sink.new (message answer.now) }
{
    let _is_whole = put_line(sink, answer);
}

fn executable_status(fault: AoutFault) -> u8
    ensures { result ≡ executable_status fault }
{
    match fault {
        AoutFault::BadMagic(_) => 13,
        AoutFault::ShortFile(_) => 13,
        AoutFault::BadSegment => 13,
        AoutFault::Memory => 10,
    }
}

fn refusal_status(why: &Refusal) -> u8
    ensures { result ≡ refusal_status why.now }
{
    match why {
        Refusal::Assembly(_, fault) => assembly_status(fault),
        Refusal::Object(_, fault) => object_status(*fault),
        Refusal::Link(fault) => link_status(fault),
        Refusal::Load(fault) => load_status(fault),
        Refusal::Absent(_) => 6,
        Refusal::StoreFault(_) => 9,
        Refusal::Memory => 10,
        Refusal::Executable(_, fault) => executable_status(*fault),
        Refusal::NotBuilt(_) => 16,
    }
}

fn end_status(end: &End) -> u8
    ensures { result ≡ end_status end.now }
{
    match end {
        End::Exit(_) => 1,
        End::ReadFault => 7,
        End::WriteFault => 8,
        End::Halted(_, _) => 11,
        End::Spent(_) => 12,
    }
}

/// The status of an answer.
pub(crate) fn status(answer: &Answer) -> u8
    ensures { result ≡ status answer.now }
{
    match answer {
        Answer::Done => 0,
        Answer::Usage => 2,
        Answer::Refused(why) => refusal_status(why),
        Answer::Ran(end) => end_status(end),
    }
}
