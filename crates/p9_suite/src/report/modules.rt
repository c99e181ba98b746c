// The lines of files that are no modules, and of modules that don't join or don't fit.
ghost use Rattle.std.specs.Prelude.{◌≡◌, ◌++◌, codes, decimal, MatchBool};
ghost use Rattle.p9_suite.specs.Answers.{disagree_line, link_line, link_status, load_line, load_status, main_type_line, newline, no_main_line, object_line, object_status, twice_line, unresolved_line};
ghost use Rattle.p9_suite.specs.Reports.{Whole, Cut};

use crate::put::{put_all, put_number, put_number_line, put_numbered};
use p9_base::Sink;
use p9_load::LoadFault;
use p9_names::LinkFault;
use p9_reader::ObjFault;

// Puts a blank, a decimal number, a blank, another number and a newline.
fn put_numbers<S: Sink>(sink: &mut S, i: u64, j: u64) -> bool
    ensures { MatchBool result
        (Whole (S.sofar sink.old) (S.sofar sink.new) (S.faults sink.old) (S.faults sink.new) (codes " " ++ (decimal i ++ (codes " " ++ (decimal j ++ newline)))))
        (Cut (S.sofar sink.old) (S.sofar sink.new) (S.faults sink.old) (S.faults sink.new) (codes " " ++ (decimal i ++ (codes " " ++ (decimal j ++ newline))))) }
{
    if put_number(sink, b" ", i) {
        put_number_line(sink, b" ", j)
    } else {
        false
    }
}

// Puts a name and two numbers.
#[tactic(auto, using(crate::proofs::Puts::then_put, crate::proofs::Puts::first_cut))]
fn put_named<S: Sink>(sink: &mut S, name: &[u8], i: u64, j: u64) -> bool
    ensures { MatchBool result
        (Whole (S.sofar sink.old) (S.sofar sink.new) (S.faults sink.old) (S.faults sink.new) (name.now ++ (codes " " ++ (decimal i ++ (codes " " ++ (decimal j ++ newline))))))
        (Cut (S.sofar sink.old) (S.sofar sink.new) (S.faults sink.old) (S.faults sink.new) (name.now ++ (codes " " ++ (decimal i ++ (codes " " ++ (decimal j ++ newline)))))) }
{
    if put_all(sink, name) {
        put_numbers(sink, i, j)
    } else {
        false
    }
}

// Puts the line of a name that has a fault in two modules.
#[tactic(auto, using(crate::proofs::Puts::then_put, crate::proofs::Puts::first_cut))]
fn put_two<S: Sink>(sink: &mut S, fault: &[u8], name: &[u8], i: u64, j: u64) -> bool
    ensures { MatchBool result
        (Whole (S.sofar sink.old) (S.sofar sink.new) (S.faults sink.old) (S.faults sink.new) (fault.now ++ (name.now ++ (codes " " ++ (decimal i ++ (codes " " ++ (decimal j ++ newline)))))))
        (Cut (S.sofar sink.old) (S.sofar sink.new) (S.faults sink.old) (S.faults sink.new) (fault.now ++ (name.now ++ (codes " " ++ (decimal i ++ (codes " " ++ (decimal j ++ newline))))))) }
{
    if put_all(sink, fault) {
        put_named(sink, name, i, j)
    } else {
        false
    }
}

// Puts the line of a name that has a fault in one module.
#[tactic(auto, using(crate::proofs::Puts::then_put, crate::proofs::Puts::first_cut))]
fn put_one<S: Sink>(sink: &mut S, fault: &[u8], name: &[u8], i: u64) -> bool
    ensures { MatchBool result
        (Whole (S.sofar sink.old) (S.sofar sink.new) (S.faults sink.old) (S.faults sink.new) (fault.now ++ (name.now ++ (codes " " ++ (decimal i ++ newline)))))
        (Cut (S.sofar sink.old) (S.sofar sink.new) (S.faults sink.old) (S.faults sink.new) (fault.now ++ (name.now ++ (codes " " ++ (decimal i ++ newline))))) }
{
    if put_all(sink, fault) {
        put_numbered(sink, name, b" ", i)
    } else {
        false
    }
}

// Puts the line of a name that is defined in two modules.
#[tactic(auto, using(crate::proofs::Puts::line_is))]
fn put_twice<S: Sink>(sink: &mut S, name: &[u8], i: u32, j: u32) -> bool
    ensures { MatchBool result
        (Whole (S.sofar sink.old) (S.sofar sink.new) (S.faults sink.old) (S.faults sink.new) (twice_line name.now i j))
        (Cut (S.sofar sink.old) (S.sofar sink.new) (S.faults sink.old) (S.faults sink.new) (twice_line name.now i j)) }
{
    put_two(sink, b"vl: 40 Twice ", name, u64::from(i), u64::from(j))
}

// Puts the line of a name that no module defines.
#[tactic(auto, using(crate::proofs::Puts::line_is))]
fn put_unresolved<S: Sink>(sink: &mut S, name: &[u8], i: u32) -> bool
    ensures { MatchBool result
        (Whole (S.sofar sink.old) (S.sofar sink.new) (S.faults sink.old) (S.faults sink.new) (unresolved_line name.now i))
        (Cut (S.sofar sink.old) (S.sofar sink.new) (S.faults sink.old) (S.faults sink.new) (unresolved_line name.now i)) }
{
    put_one(sink, b"vl: 41 Unresolved ", name, u64::from(i))
}

// Puts the line of a name on which two modules disagree.
#[tactic(auto, using(crate::proofs::Puts::line_is))]
fn put_disagree<S: Sink>(sink: &mut S, name: &[u8], i: u32, j: u32) -> bool
    ensures { MatchBool result
        (Whole (S.sofar sink.old) (S.sofar sink.new) (S.faults sink.old) (S.faults sink.new) (disagree_line name.now i j))
        (Cut (S.sofar sink.old) (S.sofar sink.new) (S.faults sink.old) (S.faults sink.new) (disagree_line name.now i j)) }
{
    put_two(sink, b"vl: 42 Disagree ", name, u64::from(i), u64::from(j))
}

// Puts the line of modules without a main.
#[tactic(auto, using(crate::proofs::Puts::line_is))]
fn put_no_main<S: Sink>(sink: &mut S) -> bool
    ensures { MatchBool result
        (Whole (S.sofar sink.old) (S.sofar sink.new) (S.faults sink.old) (S.faults sink.new) (no_main_line))
        (Cut (S.sofar sink.old) (S.sofar sink.new) (S.faults sink.old) (S.faults sink.new) (no_main_line)) }
{
    put_all(sink, b"vl: 43 NoMain\n")
}

// Puts the line of a main that is no function of a type that it may have.
#[tactic(auto, using(crate::proofs::Puts::line_is))]
fn put_main_type<S: Sink>(sink: &mut S, i: u32) -> bool
    ensures { MatchBool result
        (Whole (S.sofar sink.old) (S.sofar sink.new) (S.faults sink.old) (S.faults sink.new) (main_type_line i))
        (Cut (S.sofar sink.old) (S.sofar sink.new) (S.faults sink.old) (S.faults sink.new) (main_type_line i)) }
{
    put_number_line(sink, b"vl: 44 MainType ", u64::from(i))
}

/// Puts the line of modules that don't join.
#[tactic(auto, using(crate::proofs::Puts::line_is))]
pub(crate) fn put_link<S: Sink>(sink: &mut S, fault: &LinkFault) -> bool
    ensures { MatchBool result
        (Whole (S.sofar sink.old) (S.sofar sink.new) (S.faults sink.old) (S.faults sink.new) (link_line fault.now))
        (Cut (S.sofar sink.old) (S.sofar sink.new) (S.faults sink.old) (S.faults sink.new) (link_line fault.now)) }
{
    match fault {
        LinkFault::Twice { name, i, j } => put_twice(sink, &name.list, *i, *j),
        LinkFault::Unresolved { name, i } => put_unresolved(sink, &name.list, *i),
        LinkFault::Disagree { name, i, j } => put_disagree(sink, &name.list, *i, *j),
        LinkFault::NoMain => put_no_main(sink),
        LinkFault::MainType { i } => put_main_type(sink, *i),
        LinkFault::Memory => put_all(sink, b"no memory\n"),
    }
}

/// Puts the line of modules that don't join or don't fit.
#[tactic(auto, using(crate::proofs::Puts::line_is))]
pub(crate) fn put_load<S: Sink>(sink: &mut S, fault: &LoadFault) -> bool
    ensures { MatchBool result
        (Whole (S.sofar sink.old) (S.sofar sink.new) (S.faults sink.old) (S.faults sink.new) (load_line fault.now))
        (Cut (S.sofar sink.old) (S.sofar sink.new) (S.faults sink.old) (S.faults sink.new) (load_line fault.now)) }
{
    match fault {
        LoadFault::Twice { name, i, j } => put_twice(sink, &name.list, *i, *j),
        LoadFault::Unresolved { name, i } => put_unresolved(sink, &name.list, *i),
        LoadFault::Disagree { name, i, j } => put_disagree(sink, &name.list, *i, *j),
        LoadFault::NoMain => put_no_main(sink),
        LoadFault::MainType { i } => put_main_type(sink, *i),
        LoadFault::DataTooLarge(bytes) => put_number_line(sink, b"vl: 45 DataTooLarge ", *bytes),
        LoadFault::TextTooLarge(words) => put_number_line(sink, b"vl: 46 TextTooLarge ", *words),
        LoadFault::Memory => put_all(sink, b"no memory\n"),
    }
}

/// Puts the line of a file that is no object.
#[tactic(auto, using(crate::proofs::Puts::line_is))]
pub(crate) fn put_object<S: Sink>(sink: &mut S, file: &[u8], fault: ObjFault) -> bool
    ensures { MatchBool result
        (Whole (S.sofar sink.old) (S.sofar sink.new) (S.faults sink.old) (S.faults sink.new) (object_line file.now fault))
        (Cut (S.sofar sink.old) (S.sofar sink.new) (S.faults sink.old) (S.faults sink.new) (object_line file.now fault)) }
{
    match fault {
        ObjFault::BadObject(at) => put_numbered(sink, file, b": 30 BadObject ", at as u64),
        ObjFault::Version(version) => {
            put_numbered(sink, file, b": 31 Version ", u64::from(version))
        }
        ObjFault::Memory => put_all(sink, b"no memory\n"),
    }
}

/// The status of modules that don't join.
pub(crate) fn link_status(fault: &LinkFault) -> u8
    ensures { result ≡ link_status fault.now }
{
    match fault {
        LinkFault::Twice { .. } => 5,
        LinkFault::NoMain => 5,
        LinkFault::MainType { .. } => 5,
        LinkFault::Unresolved { .. } => 5,
        LinkFault::Disagree { .. } => 5,
        LinkFault::Memory => 10,
    }
}

/// The status of modules that don't join or don't fit.
pub(crate) fn load_status(fault: &LoadFault) -> u8
    ensures { result ≡ load_status fault.now }
{
    match fault {
        LoadFault::Twice { .. } => 5,
        LoadFault::NoMain => 5,
        LoadFault::MainType { .. } => 5,
        LoadFault::Unresolved { .. } => 5,
        LoadFault::Disagree { .. } => 5,
        LoadFault::DataTooLarge(_) => 5,
        LoadFault::TextTooLarge(_) => 5,
        LoadFault::Memory => 10,
    }
}

/// The status of a file that is no object.
pub(crate) fn object_status(fault: ObjFault) -> u8
    ensures { result ≡ object_status fault }
{
    match fault {
        ObjFault::BadObject(_) => 4,
        ObjFault::Version(_) => 4,
        ObjFault::Memory => 10,
    }
}
