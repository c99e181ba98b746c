// The tokens of a unit.
ghost use Rattle.std.specs.Prelude.{◌≡◌, ◌++◌, map, IfOk, IfErr};
ghost use Rattle.std.specs.Option.{option_to_list};
ghost use Rattle.p9_cpp.specs.declared.fault.CppFault.{CppFault};
ghost use Rattle.p9_cpp.specs.Units.{begun, main_run, no_state, in_file};
ghost use Rattle.p9_cpp.specs.Calls.{IsReady, ComesTo, Preprocesses, Counts, Tells};

use crate::fault::CppFault;
use crate::unit::Unit;
use crate::walk::{begin, go_through};
use p9_base::{Bytes, Files, Got, Name};
use p9_lex::{Token, Tokens};
use std::alloc::Global;

const MAX_DEPTH: u32 = 16;

// The tokens of a file of these bytes, which is a unit's.
fn unit_of<F: Files>(
    alloc: Global,
    name: &Name,
    bytes: Bytes,
    files: &mut F,
) -> Result<Tokens, CppFault>
    ensures comes { ComesTo F.did files.old files.new result (begun main_run name.now bytes no_state) }
    ensures counts { Counts result (F.faults files.old) (F.faults files.new) }
{
    let mut unit = Unit::new(alloc);
    let source = match begin(alloc, &mut unit, name, bytes) {
        Ok(source) => source,
        Err(fault) => return Err(fault),
    };
    let end = match go_through(alloc, files, &mut unit, MAX_DEPTH, &source) {
        Ok(end) => end,
        Err(fault) => return Err(fault),
    };
    match finish(unit, end, source.number) {
        Ok(tokens) => Ok(tokens),
        Err(fault) => Err(fault),
    }
}

// The tokens of a unit, and the end of its named file.
fn finish(unit: Unit, end: Option<Token>, number: u32) -> Result<Tokens, CppFault>
    requires ready { IsReady unit }
    ensures list { IfOk result (λ t. t.list.items ≡ unit.out ++ map (in_file number) (option_to_list end)) }
    ensures sources { IfOk result (λ t. t.sources.items ≡ unit.sources) }
    ensures marks { IfOk result (λ t. t.marks.items ≡ unit.marks) }
    ensures memory { IfErr result (λ e. e ≡ CppFault.Memory) }
{
    let mut list = unit.out.list;
    if let Some(mut end) = end {
        end.file = number;
        if list.push(end).is_err() {
            return Err(CppFault::Memory);
        }
    }
    Ok(Tokens {
        list,
        sources: unit.sources.list,
        marks: unit.marks.list,
    })
}

// Reads the named file, and then goes through the unit.
fn read_unit<F: Files>(alloc: Global, name: &Name, files: &mut F) -> Result<Tokens, CppFault>
    ensures unit { Preprocesses F.did files.old files.new name.now result }
    ensures counts { Counts result (F.faults files.old) (F.faults files.new) }
{
    let Ok(word) = name.copied(alloc) else {
        return Err(CppFault::Memory);
    };
    match files.read(alloc, name) {
        Got::Found(bytes) => unit_of(alloc, name, bytes, files),
        Got::Absent => Err(CppFault::Absent(word)),
        Got::Failed => Err(CppFault::Store(word)),
        Got::NoMemory => Err(CppFault::Memory),
    }
}

/// The tokens of a unit of C: those of the named file, after directives and the expansion of macros,
/// with the tags of `#pragma incomplete` in `marks`. A token that came out of a macro has the file and
/// line of the outermost macro's name; its other places are those of its spelling.
pub fn preprocess<F: Files>(alloc: Global, name: &Name, files: &mut F) -> Result<Tokens, CppFault>
    // The calls on the store are those of the unit, in its order and with the answers that they got, and
    // the answer is that to which they lead.
    ensures unit { Preprocesses F.did files.old files.new name.now result }

    // The store is named exactly where a call on it failed.
    ensures counts { Counts result (F.faults files.old) (F.faults files.new) }

    // Where the store tells its files, they stay, and the answer is that of the unit over them.
    ensures held { F.held files.new ≡ F.held files.old }
    ensures told { Tells (F.held files.old) name.now result }
{
    read_unit(alloc, name, files)
}
