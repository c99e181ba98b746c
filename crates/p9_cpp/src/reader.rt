// The expansion of a list of text.
ghost use Rattle.std.specs.Prelude.{◌≡◌, [], ◌∷◌, ◌++◌, true, false, IfOk, IfErr, OnOk};
ghost use Rattle.p9_cpp.specs.declared.frame.Frame.TheVariants as frames;
ghost use Rattle.p9_cpp.specs.Macros.{Table};
ghost use Rattle.p9_cpp.specs.Expansion.{charge, expansion, limited, within};
ghost use Rattle.p9_cpp.specs.Reading.{read, begun, is_inside, flags_of, with_flag, IsApart, IsSound, IsNew, Goes, OnLast, IsCharged, IsRefused};

use crate::body::put_in;
use crate::frame::{Frame, Invocation, Rest};
use crate::hidden::mark;
use crate::pile::Pile;
use crate::row::Row;
use crate::uses::{Known, Table, Use, use_of};
use p9_base::{Name, NoMemory};
use p9_lex::Token;
use std::alloc::Global;
use std::mem;

/// Why a list has no expansion, with the line of the outermost name or token.
#[derive(Drop)]
pub enum Fault {
    MacroArgs { name: Name, line: u32 },
    TooManyTokens { line: u32 },
    Memory,
}

impl From<NoMemory> for Fault {
    ghost use Rattle.std.specs.Prelude.{◌≡◌};
    ghost use Rattle.p9_cpp.specs.declared.reader.Fault.{Fault};

    ghost from_gives = { λ _ e. e ≡ Fault.Memory };

    fn from(_: NoMemory) -> Fault {
        Fault::Memory
    }
}

/// Tokens, how many may be counted behind them, and the flags of hidden names, all cleared.
#[derive(Drop)]
pub struct Expanded {
    pub tokens: Row<Token>,
    pub room: usize,
    pub hidden: Row<bool>,
}

// A list that is read, and those that wait for its end. `room` is how many tokens may still be
// counted, and `hidden` has a flag for each place of the table.
#[derive(Drop)]
struct Reader<'a> {
    stack: Pile<Frame<'a>>,
    left: Pile<Token>,
    out: Row<Token>,
    room: usize,
    hidden: Row<bool>,
}

// Counts tokens.
fn charge(room: &mut usize, tokens: &[Token]) -> Result<(), Fault>
    ensures { IsCharged result room.old tokens.now room.new }
{
    match tokens.get(*room) {
        Some(t) => Err(Fault::TooManyTokens { line: t.line }),
        None => {
            *room -= tokens.len();
            Ok(())
        }
    }
}

impl<'a> Reader<'a> {
    // Lets the list wait, and begins an empty one.
    fn wait(&mut self, alloc: Global) -> Rest
        ensures value { result ≡ record { after = self.old.left; out = self.old.out } }
        ensures empty { self.new ≡ record self.old { left = []; out = [] } }
    {
        Rest {
            after: mem::replace(&mut self.left, Pile::new(alloc)),
            out: mem::replace(&mut self.out, Row::new(alloc)),
        }
    }

    // Begins a body.
    fn enter(&mut self, known: Known<'a>, body: Row<Token>, rest: Rest) -> Result<(), NoMemory>
        ensures { OnOk result (self.new ≡ record self.old { stack = frames.Body known.entry rest ∷ self.old.stack; left = body; hidden = with_flag self.old.hidden known.entry.index true }) }
    {
        self.stack.push(Frame::Body(known, rest))?;
        mark(&mut self.hidden, known.index, true);
        self.left = Pile::of_row(body);
        Ok(())
    }

    // Begins the next list of a use: an argument, or the body once no argument is left.
    fn begin(
        &mut self,
        alloc: Global,
        invocation: Invocation<'a>,
        ready: Row<Row<Token>>,
        left: Pile<Pile<Token>>,
        rest: Rest,
    ) -> Result<(), NoMemory>
        requires empty { self.old.out ≡ [] }
        ensures reads { OnOk result ((table : Table) → read table self.new.stack self.new.left self.new.out ≡ begun table self.old.stack invocation.entry ready left rest) }
        ensures room { OnOk result (self.new.room ≡ self.old.room) }
        ensures sound { (table : Table) → IsApart table → IsSound table self.old.stack self.old.hidden → IsNew table self.old.stack invocation.entry.known → OnOk result (IsSound table self.new.stack self.new.hidden) }
    {
        let mut left = left;
        match left.pop() {
            Some(next) => {
                self.stack.push(Frame::Argument {
                    invocation,
                    ready,
                    left,
                    rest,
                })?;
                self.left = next;
            }
            None => {
                let body = put_in(
                    alloc,
                    invocation.params.as_slice(),
                    ready.as_slice(),
                    invocation.line,
                    invocation.known.definition.body.as_slice(),
                )?;
                self.enter(invocation.known, body, rest)?;
            }
        }
        Ok(())
    }

    // Behind the end of a body: its tokens come into the list that waits for it.
    fn leave(&mut self, alloc: Global, known: Known<'a>, rest: Rest) -> Result<(), Fault>
        ensures counted { IsCharged result self.old.room (charge (is_inside self.old.stack) self.old.out) self.new.room }
        ensures value { OnOk result (self.new ≡ record self.old { left = rest.after; out = rest.out ++ self.old.out; room = self.new.room; hidden = with_flag self.old.hidden known.entry.index false }) }
    {
        if !self.stack.is_empty() {
            charge(&mut self.room, self.out.as_slice())?;
        }
        mark(&mut self.hidden, known.index, false);
        let mut out = rest.out;
        out.append(mem::replace(&mut self.out, Row::new(alloc)))?;
        self.out = out;
        self.left = rest.after;
        Ok(())
    }

    // Behind the end of a list.
    fn end(&mut self, alloc: Global) -> Result<bool, Fault>
        requires ended { self.old.left ≡ [] }
        ensures goes { (table : Table) → Goes result (read table self.old.stack self.old.left self.old.out) self.old.room (read table self.new.stack self.new.left self.new.out) self.new.room self.new.out }
        ensures sound { (table : Table) → IsApart table → IsSound table self.old.stack self.old.hidden → OnOk result (IsSound table self.new.stack self.new.hidden) }
        ensures last { OnLast result (self.new.stack ≡ []) }
    {
        match self.stack.pop() {
            None => Ok(false),
            Some(Frame::Body(known, rest)) => match self.leave(alloc, known, rest) {
                Ok(()) => Ok(true),
                Err(fault) => Err(fault),
            },
            Some(
                Frame::Argument {
                    invocation,
                    ready: before,
                    left,
                    rest,
                },
            ) => {
                let mut ready = before;
                ready.push(mem::replace(&mut self.out, Row::new(alloc)))?;
                self.begin(alloc, invocation, ready, left, rest)?;
                Ok(true)
            }
        }
    }

    // A token that stands.
    fn stand(&mut self, t: Token) -> Result<(), Fault>
        ensures counted { IsCharged result self.old.room (t ∷ []) self.new.room }
        ensures value { OnOk result (self.new ≡ record self.old { out = self.old.out ++ t ∷ []; room = self.new.room }) }
    {
        if self.room == 0 {
            return Err(Fault::TooManyTokens { line: t.line });
        }
        self.room -= 1;
        self.out.push(t)?;
        Ok(())
    }

    // At a token, which is taken from the list.
    fn meet(&mut self, alloc: Global, table: &'a Table, t: Token) -> Result<bool, Fault>
        requires apart { IsApart table.now.entries }
        requires sound { IsSound table.now.entries self.old.stack self.old.hidden }
        ensures goes { Goes result (read table.now.entries self.old.stack (t ∷ self.old.left) self.old.out) self.old.room (read table.now.entries self.new.stack self.new.left self.new.out) self.new.room self.new.out }
        ensures sound { OnOk result (IsSound table.now.entries self.new.stack self.new.hidden) }
        ensures last { OnLast result (self.new.stack ≡ []) }
    {
        let line = t.line;
        match use_of(alloc, table, &self.hidden, &t.kind, &mut self.left)? {
            Use::Stands => match self.stand(t) {
                Ok(()) => Ok(true),
                Err(fault) => Err(fault),
            },
            Use::Plain(known) => {
                let body = put_in(alloc, &[], &[], line, known.definition.body.as_slice())?;
                let rest = self.wait(alloc);
                self.enter(known, body, rest)?;
                Ok(true)
            }
            Use::Call(known, params, args) => {
                let rest = self.wait(alloc);
                let invocation = Invocation {
                    known,
                    line,
                    params,
                };
                self.begin(alloc, invocation, Row::new(alloc), Pile::of_row(args), rest)?;
                Ok(true)
            }
            Use::Wrong(known) => Err(Fault::MacroArgs {
                name: known.name.copied(alloc)?,
                line,
            }),
        }
    }

    fn step(&mut self, alloc: Global, table: &'a Table) -> Result<bool, Fault>
        requires apart { IsApart table.now.entries }
        requires sound { IsSound table.now.entries self.old.stack self.old.hidden }
        ensures goes { Goes result (read table.now.entries self.old.stack self.old.left self.old.out) self.old.room (read table.now.entries self.new.stack self.new.left self.new.out) self.new.room self.new.out }
        ensures sound { OnOk result (IsSound table.now.entries self.new.stack self.new.hidden) }
        ensures last { OnLast result (self.new.stack ≡ []) }
    {
        match self.left.pop() {
            Some(t) => self.meet(alloc, table, t),
            None => self.end(alloc),
        }
    }
}

/// The expansion of a list of text, where so many tokens may still be counted.
pub fn expand(
    alloc: Global,
    table: &Table,
    hidden: Row<bool>,
    text: Pile<Token>,
    room: usize,
) -> Result<Expanded, Fault>
    requires apart { IsApart table.now.entries }
    requires cleared { hidden ≡ flags_of table.now.entries [] }
    ensures ok { IfOk result (λ e. limited room (expansion table.now.entries [] false text) ≡ within e.tokens e.room) }
    ensures cleared { IfOk result (λ e. e.hidden ≡ flags_of table.now.entries []) }
    ensures refused { IfErr result (λ e. IsRefused e (limited room (expansion table.now.entries [] false text))) }
{
    let mut out = Row::new(alloc);
    out.reserve(text.len())?;
    let mut reader = Reader {
        stack: Pile::new(alloc),
        left: text,
        out,
        room,
        hidden,
    };
    while reader.step(alloc, table)? {}
    Ok(Expanded {
        tokens: reader.out,
        room: reader.room,
        hidden: reader.hidden,
    })
}
