// The walk over the files of a unit.
ghost use Rattle.std.specs.Prelude.{◌≡◌, ◌<◌, ◌-◌, false, not, if◌then◌else◌, List, IfOk, IfErr, OnOk};
ghost use Rattle.p9_lex.specs.Tokens.{lexed};
ghost use Rattle.p9_lex.specs.declared.token.Dialect.TheVariants.{C};
ghost use Rattle.p9_cpp.specs.declared.fault.CppFault.{CppFault};
ghost use Rattle.p9_cpp.specs.declared.groups.Group.{Group};
ghost use Rattle.p9_cpp.specs.declared.source.Source.{Source};
ghost use Rattle.p9_cpp.specs.Groups.{is_live};
ghost use Rattle.p9_cpp.specs.Units.{State, Run, ends, Including, condition_group, by_directive, by_head, by_item, begun, source_run, including, end_in, lex_fault, last_line};
ghost use Rattle.p9_cpp.specs.Calls.{state_of, IsReady, IsBad, IsAnswered, IsOpened, AreItems, IsUnlexed, Passes, Opens, Comes, Counts};

use crate::directive::{Directive, Head, directive_of, head_of};
use crate::fault::CppFault;
use crate::groups::{Group, close, is_live, turn};
use crate::headers::header;
use crate::items::{Item, Items, items_of};
use crate::pile::Pile;
use crate::row::Row;
use crate::source::Source;
use crate::unit::Unit;
use p9_base::{Bytes, Files, Got, Name, NoMemory};
use p9_lex::{Dialect, LexFault, Token, lex};
use std::alloc::Global;

const MAX_DEPTH: u32 = 16;

/// A file that is to be included by a line.
#[derive(Drop)]
pub struct Inclusion {
    pub angled: bool,
    pub name: Name,
    pub line: u32,
}

/// What follows an item: the next, or an included file before it.
#[derive(Drop)]
pub enum Next {
    Item,
    Include(Inclusion),
}

fn bad_directive(alloc: Global, source: &Source, line: u32) -> CppFault
    ensures { IsBad result source.now line }
{
    match source.name.copied(alloc) {
        Ok(file) => CppFault::BadDirective { file, line },
        Err(NoMemory) => CppFault::Memory,
    }
}

// The group that a condition opens.
fn condition_group(wanted: bool, is_defined: bool) -> Group
    ensures { result ≡ Group.Open (if is_defined then wanted else not wanted) false }
{
    Group::Open {
        live: if is_defined { wanted } else { !wanted },
        turned: false,
    }
}

// At an `#else` or `#endif`, which has changed the groups or is wrong.
fn changed(
    alloc: Global,
    source: &Source,
    line: u32,
    is_changed: Result<bool, NoMemory>,
) -> Result<Next, CppFault>
    ensures { IsAnswered result is_changed source.now line }
{
    if is_changed? {
        Ok(Next::Item)
    } else {
        Err(bad_directive(alloc, source, line))
    }
}

// A directive that counts.
fn obey(
    alloc: Global,
    unit: &mut Unit,
    groups: &mut Pile<Group>,
    source: &Source,
    line: u32,
    directive: Directive,
) -> Result<Next, CppFault>
    requires ready { IsReady unit.old }
    ensures passes { (include : Including) (rest : List Group → State → Run) → Passes result (by_directive include source.now line directive groups.old (state_of unit.old) rest) include source.now.name rest groups.new (state_of unit.new) }
    ensures ready { OnOk result (IsReady unit.new) }
{
    match directive {
        Directive::Include { angled, name } => {
            return Ok(Next::Include(Inclusion { angled, name, line }));
        }
        Directive::Define { name, definition } => unit.define(name, Some(definition))?,
        Directive::Undef(name) => unit.define(name, None)?,
        Directive::IfDefined { name, wanted } => {
            groups.push(condition_group(wanted, unit.is_defined(&name)))?;
        }
        Directive::Else { alone } => return changed(alloc, source, line, turn(groups, alone)),
        Directive::EndIf { alone } => return changed(alloc, source, line, close(groups, alone)),
        Directive::Mark(name) => unit.mark(name)?,
        Directive::Nothing => {}
        Directive::Bad => return Err(bad_directive(alloc, source, line)),
    }
    Ok(Next::Item)
}

// A directive in a group that is passed over.
fn pass(
    alloc: Global,
    groups: &mut Pile<Group>,
    source: &Source,
    line: u32,
    head: Head,
) -> Result<Next, CppFault>
    ensures { (include : Including) (s : State) (rest : List Group → State → Run) → Passes result (by_head source.now line head groups.old s rest) include source.now.name rest groups.new s }
{
    match head {
        Head::Opens => {
            groups.push(Group::Nested)?;
            Ok(Next::Item)
        }
        Head::Else { alone } => changed(alloc, source, line, turn(groups, alone)),
        Head::EndIf { alone } => changed(alloc, source, line, close(groups, alone)),
        Head::Nothing => Ok(Next::Item),
    }
}

// An item of a file.
fn item(
    alloc: Global,
    unit: &mut Unit,
    groups: &mut Pile<Group>,
    source: &Source,
    item: Item,
) -> Result<Next, CppFault>
    requires ready { IsReady unit.old }
    ensures passes { (include : Including) (rest : List Group → State → Run) → Passes result (by_item include source.now (is_live groups.old) item.directive item.tokens groups.old (state_of unit.old) rest) include source.now.name rest groups.new (state_of unit.new) }
    ensures ready { OnOk result (IsReady unit.new) }
{
    let live = is_live(groups);
    match item.directive {
        None => {
            if live {
                unit.text(alloc, source, item.tokens)?;
            }
            Ok(Next::Item)
        }
        Some(line) => {
            if live {
                let bytes = source.bytes.list.as_slice();
                let directive = directive_of(alloc, bytes, Pile::of_row(item.tokens))?;
                obey(alloc, unit, groups, source, line, directive)
            } else {
                pass(alloc, groups, source, line, head_of(item.tokens.as_slice()))
            }
        }
    }
}

// A file of these bytes.
pub fn begin(alloc: Global, unit: &mut Unit, name: &Name, bytes: Bytes) -> Result<Source, CppFault>
    requires ready { IsReady unit.old }
    ensures begun { (run : Source → State → Run) → IsOpened result run (begun run name.now bytes (state_of unit.old)) (state_of unit.new) }
    ensures ready { OnOk result (IsReady unit.new) }
    ensures memory { IfErr result (λ e. e ≡ CppFault.Memory) }
{
    match unit.begin(alloc, name, bytes) {
        Ok(source) => Ok(source),
        Err(NoMemory) => Err(CppFault::Memory),
    }
}

fn begin_header(
    alloc: Global,
    unit: &mut Unit,
    name: &Name,
    text: &[u8],
) -> Result<Source, CppFault>
    requires ready { IsReady unit.old }
    ensures begun { (run : Source → State → Run) → IsOpened result run (begun run name.now text.now (state_of unit.old)) (state_of unit.new) }
    ensures ready { OnOk result (IsReady unit.new) }
    ensures memory { IfErr result (λ e. e ≡ CppFault.Memory) }
{
    let Ok(list) = text.to_vec(alloc) else {
        return Err(CppFault::Memory);
    };
    begin(alloc, unit, name, Bytes { list })
}

// The file that is included: a built-in header, or one that is read. `depth` is how many files may
// nest inside the one that includes.
fn open<F: Files>(
    alloc: Global,
    files: &mut F,
    unit: &mut Unit,
    source: &Source,
    depth: u32,
    inclusion: Inclusion,
) -> Result<Source, CppFault>
    requires ready { IsReady unit.old }
    ensures opens { Opens F.did files.old files.new result (source_run (depth - 1)) (including depth inclusion.angled inclusion.name source.now.name inclusion.line (state_of unit.old)) (state_of unit.new) }
    ensures ready { OnOk result (IsReady unit.new) }
    ensures deep { OnOk result (0 < depth) }
    ensures counts { Counts result (F.faults files.old) (F.faults files.new) }
{
    let Ok(file) = source.name.copied(alloc) else {
        return Err(CppFault::Memory);
    };
    let line = inclusion.line;
    if depth == 0 {
        let limit = MAX_DEPTH;
        return Err(CppFault::IncludeDepth { limit, file, line });
    }
    let name = inclusion.name;
    if let Some(text) = header(inclusion.angled, &name) {
        return begin_header(alloc, unit, &name, text);
    }
    match files.read(alloc, &name) {
        Got::Found(bytes) => begin(alloc, unit, &name, bytes),
        Got::Absent => Err(CppFault::NoFile { name, file, line }),
        Got::Failed => Err(CppFault::Store(name)),
        Got::NoMemory => Err(CppFault::Memory),
    }
}

fn lex_fault(file: Name, fault: LexFault) -> CppFault
    ensures { result ≡ lex_fault file fault }
{
    match fault {
        LexFault::BadByte { at, line } => CppFault::BadByte { at, file, line },
        LexFault::OpenComment { at, line } => CppFault::OpenComment { at, file, line },
        LexFault::OpenText { at, line } => CppFault::OpenText { at, file, line },
        LexFault::WideNumber { at, line } => CppFault::WideNumber { at, file, line },
        LexFault::Memory => CppFault::Memory,
    }
}

// The items of a file.
fn items_in(alloc: Global, source: &Source) -> Result<Items, CppFault>
    ensures ok { IfOk result (λ items. AreItems items (lexed C source.now.bytes)) }
    ensures refused { IfErr result (λ e. IsUnlexed e source.now.name (lexed C source.now.bytes)) }
{
    match lex(alloc, source.bytes.list.as_slice(), Dialect::C) {
        Ok(tokens) => Ok(items_of(alloc, Row { list: tokens.list })?),
        Err(fault) => Err(lex_fault(source.name.copied(alloc)?, fault)),
    }
}

fn last_line(end: &Option<Token>) -> u32
    ensures { result ≡ last_line end.now }
{
    match end {
        Some(t) => t.line,
        None => 0,
    }
}

// Goes through a file, inside which so many others may nest, and gives the token of its end.
pub fn go_through<F: Files>(
    alloc: Global,
    files: &mut F,
    unit: &mut Unit,
    depth: u32,
    source: &Source,
) -> Result<Option<Token>, CppFault>
    requires ready { IsReady unit.old }
    ensures comes { Comes F.did files.old files.new result (source_run depth source.now (state_of unit.old)) (ends (state_of unit.new)) }
    ensures end { IfOk result (λ end. end ≡ end_in (lexed C source.now.bytes)) }
    ensures ready { OnOk result (IsReady unit.new) }
    ensures counts { Counts result (F.faults files.old) (F.faults files.new) }
{
    let items = match items_in(alloc, source) {
        Ok(items) => items,
        Err(fault) => return Err(fault),
    };
    let last = last_line(&items.end);
    let mut groups = Pile::new(alloc);
    let mut left = items.list;
    while let Some(next) = left.pop() {
        let inclusion = match item(alloc, unit, &mut groups, source, next) {
            Ok(Next::Item) => continue,
            Ok(Next::Include(inclusion)) => inclusion,
            Err(fault) => return Err(fault),
        };
        let inner = match open(alloc, files, unit, source, depth, inclusion) {
            Ok(inner) => inner,
            Err(fault) => return Err(fault),
        };
        match go_through(alloc, files, unit, depth - 1, &inner) {
            Ok(_) => {}
            Err(fault) => return Err(fault),
        }
    }
    if groups.is_empty() {
        Ok(items.end)
    } else {
        Err(bad_directive(alloc, source, last))
    }
}
