// A unit: what its files have given so far.
ghost use Rattle.std.specs.Prelude.{◌≡◌, ◌++◌, ◌∷◌, [], map, if◌then◌else◌, false, is_some, Some, None, IfOk, OnOk};
ghost use Rattle.p9_cpp.specs.Macros.{macro_of};
ghost use Rattle.p9_cpp.specs.Expansion.{expansion, limited};
ghost use Rattle.p9_cpp.specs.Units.{State, Run, in_file, no_state, by_text, defining, place_from, with_source};
ghost use Rattle.p9_cpp.specs.Calls.{state_of, IsReady, GoesOn, IsFaultIn};

use crate::fault::CppFault;
use crate::macros::Macro;
use crate::pile::Pile;
use crate::reader::{Fault, expand};
use crate::row::Row;
use crate::source::Source;
use crate::uses::Table;
use indexmap::IndexMap;
use p9_base::{Bytes, Name, NoMemory};
use p9_lex::Token;
use std::alloc::Global;
use std::mem;

const MAX_TOKENS: usize = 0x4_0000;

/// The macros, each with a flag that says that its name is hidden; the names of the files, each once;
/// the tags that are marked; the tokens; and how many may still be counted.
#[derive(Drop)]
pub struct Unit {
    pub table: Table,
    pub hidden: Row<bool>,
    pub sources: Row<Name>,
    pub marks: Row<Name>,
    pub out: Row<Token>,
    pub room: usize,
}

// The fault of a list of text in a file.
fn fault_in(alloc: Global, file: &Name, fault: Fault) -> CppFault
    ensures { IsFaultIn fault file.now result }
{
    let Ok(file) = file.copied(alloc) else {
        return CppFault::Memory;
    };
    match fault {
        Fault::MacroArgs { name, line } => CppFault::MacroArgs { name, file, line },
        Fault::TooManyTokens { line } => CppFault::TooManyTokens {
            limit: 0x4_0000,
            file,
            line,
        },
        Fault::Memory => CppFault::Memory,
    }
}

// A flag for a name that is new in the table.
fn add_flag(flags: &mut Row<bool>, is_new: bool) -> Result<(), NoMemory>
    ensures { OnOk result (flags.new ≡ (if is_new then flags.old ++ false ∷ [] else flags.old)) }
{
    if is_new { flags.push(false) } else { Ok(()) }
}

// Gives tokens the number of their file.
fn set_file(tokens: &mut [Token], number: u32)
    ensures { tokens.new ≡ map (in_file number) tokens.old }
{
    for t in tokens.iter_mut() {
        t.file = number;
    }
}

impl Unit {
    pub fn new(alloc: Global) -> Unit
        ensures value { state_of result ≡ no_state }
        ensures ready { IsReady result }
    {
        Unit {
            table: IndexMap::new(alloc),
            hidden: Row::new(alloc),
            sources: Row::new(alloc),
            marks: Row::new(alloc),
            out: Row::new(alloc),
            room: MAX_TOKENS,
        }
    }

    /// Sets what a name is: a macro, or none.
    pub fn define(&mut self, name: Name, definition: Option<Macro>) -> Result<(), NoMemory>
        requires ready { IsReady self.old }
        ensures value { OnOk result (state_of self.new ≡ defining name definition (state_of self.old)) }
        ensures ready { OnOk result (IsReady self.new) }
    {
        let is_new = self.table.insert(name, definition)?.is_none();
        add_flag(&mut self.hidden, is_new)?;
        Ok(())
    }

    /// Whether the name is a macro's.
    pub fn is_defined(&self, name: &Name) -> bool
        ensures { result ≡ is_some (macro_of self.now.table.entries name.now) }
    {
        match self.table.get(name) {
            Some(definition) => definition.is_some(),
            None => false,
        }
    }

    /// Marks a tag as incomplete.
    pub fn mark(&mut self, name: Name) -> Result<(), NoMemory>
        requires ready { IsReady self.old }
        ensures value { OnOk result (state_of self.new ≡ record (state_of self.old) { marks = self.old.marks ++ name ∷ [] }) }
        ensures ready { OnOk result (IsReady self.new) }
    {
        self.marks.push(name)
    }

    /// Adds tokens, with the number of their file.
    pub fn add(&mut self, tokens: Row<Token>, number: u32) -> Result<(), NoMemory>
        requires ready { IsReady self.old }
        ensures value { OnOk result (state_of self.new ≡ record (state_of self.old) { out = self.old.out ++ map (in_file number) tokens }) }
        ensures ready { OnOk result (IsReady self.new) }
    {
        let mut tokens = tokens;
        set_file(tokens.list.as_mut_slice(), number);
        self.out.append(tokens)
    }

    /// Expands a list of text.
    pub fn text(
        &mut self,
        alloc: Global,
        source: &Source,
        tokens: Row<Token>,
    ) -> Result<(), CppFault>
        requires ready { IsReady self.old }
        ensures goes { (rest : State → Run) → GoesOn result (by_text (limited self.old.room (expansion self.old.table.entries [] false tokens)) source.now (state_of self.old) rest) (rest (state_of self.new)) }
        ensures ready { OnOk result (IsReady self.new) }
    {
        let hidden = mem::replace(&mut self.hidden, Row::new(alloc));
        match expand(alloc, &self.table, hidden, Pile::of_row(tokens), self.room) {
            Ok(expanded) => {
                self.hidden = expanded.hidden;
                self.room = expanded.room;
                self.add(expanded.tokens, source.number)?;
                Ok(())
            }
            Err(fault) => Err(fault_in(alloc, &source.name, fault)),
        }
    }

    /// Begins a file of this name and these bytes.
    pub fn begin(&mut self, alloc: Global, name: &Name, bytes: Bytes) -> Result<Source, NoMemory>
        requires ready { IsReady self.old }
        ensures source { IfOk result (λ source. source ≡ record { name = name.now; number = place_from 0 name.now self.old.sources; bytes = bytes }) }
        ensures value { OnOk result (state_of self.new ≡ record (state_of self.old) { sources = with_source name.now self.old.sources }) }
        ensures ready { OnOk result (IsReady self.new) }
    {
        let place = place_in(self.sources.as_slice(), name);
        let Ok(number) = u32::try_from(place) else {
            return Err(NoMemory);
        };
        if place == self.sources.len() {
            self.sources.push(name.copied(alloc)?)?;
        }
        Ok(Source {
            name: name.copied(alloc)?,
            number,
            bytes,
        })
    }
}

// The place of a name, or that behind the end.
fn place_in(names: &[Name], name: &Name) -> usize
    ensures value { result ≡ place_from 0 name.now names.now }
{
    let mut at = 0;
    let mut rest = names;
    while let [first, after @ ..] = rest {
        if *name == *first {
            return at;
        }
        at += 1;
        rest = after;
    }
    at
}
