// The next token.
ghost use Rattle.std.specs.Prelude.{◌≡◌, ◌∷◌, ◌&&◌, [], nat_le, pred, None, false, IfOk};
ghost use Rattle.p9_grammar.specs.declared.head.Head.TheVariants as head;
ghost use Rattle.p9_grammar.specs.Machine as machine;
ghost use Rattle.p9_tree_build.specs.Machines.{frame_at, frame_of, read_of, stack_of};
ghost use Rattle.p9_tree_reader.specs.Reading.{state_of, Steps, Decides};

use crate::{ReadFault, Reader};
use p9_grammar::{Context, Head, Naming, Terminal};
use p9_lang::SpecWord;
use p9_tree_build::{Body, Frame, Level, Read, Scope, opened};
use p9_tree_moves::{begins_type, is_close_paren, pushed};
use sqlite_items::Items;
use std::alloc::{AllocError, Global};

fn before(at: u32) -> u32
    ensures { result ≡ pred at }
{
    match at.checked_sub(1) {
        Some(place) => place,
        None => 0,
    }
}

fn group_or_cast(begins_type: bool, level: u8) -> Head
    ensures { result ≡ machine.choose (begins_type && nat_le level 14) head.CastType head.Group }
{
    match begins_type {
        true => match level <= 14 {
            true => Head::CastType,
            false => Head::Group,
        },
        false => Head::Group,
    }
}

fn begins_params(alloc: Global, scope: &Scope, token: &Terminal) -> Result<bool, AllocError>
    ensures { IfOk result (λ b. b ≡ machine.or_close_paren (machine.begins_type scope.now.levels token.now) token.now) }
{
    match begins_type(alloc, scope, token)? {
        true => Ok(true),
        false => Ok(is_close_paren(token)),
    }
}

impl Reader {
    /// Settles the node that is read, and each that ends with it.
    fn settle(&mut self, alloc: Global, part: Read, token: &Terminal) -> Result<(), ReadFault>
        ensures { Steps (machine.settle (stack_of self.old.stack) (read_of part) self.old.scope.levels self.old.at token.now) result (state_of self.new) }
    {
        let mut part = part;
        while let Some(frame) = self.stack.pop() {
            match self.settle_one(alloc, frame, part, token)? {
                None => return Ok(()),
                Some(next) => part = next,
            }
        }
        Err(ReadFault::Refused)
    }

    // Behind a parenthesis: a type in a cast, or an expression.
    fn decide_group(
        &mut self,
        alloc: Global,
        level: u8,
        body: Body,
        token: &Terminal,
    ) -> Result<Frame, ReadFault>
        ensures { Decides (machine.decide (frame_at (head.Opened level) body) (stack_of self.old.stack) self.old.scope.levels self.old.at token.now (head.Opened level)) result self.new }
    {
        let begins = begins_type(alloc, &self.scope, token)?;
        Ok(Frame {
            head: group_or_cast(begins, level),
            body,
        })
    }

    // Behind `sizeof` and a parenthesis: a type, or an expression.
    fn decide_sizeof(
        &mut self,
        alloc: Global,
        body: Body,
        token: &Terminal,
    ) -> Result<Frame, ReadFault>
        ensures { Decides (machine.decide (frame_at head.SizeofOpen body) (stack_of self.old.stack) self.old.scope.levels self.old.at token.now head.SizeofOpen) result self.new }
    {
        if begins_type(alloc, &self.scope, token)? {
            return Ok(Frame {
                head: Head::SizeofType,
                body,
            });
        }
        self.stack.push(Frame {
            head: Head::SizeofOf,
            body,
        })?;
        Ok(opened(alloc, Head::Group, before(self.at)))
    }

    // Behind a parenthesis without a declarator: parameters, or a declarator.
    fn decide_declarator(
        &mut self,
        alloc: Global,
        naming: Naming,
        body: Body,
        token: &Terminal,
    ) -> Result<Frame, ReadFault>
        ensures { Decides (machine.decide (frame_at (head.DeclOpened naming) body) (stack_of self.old.stack) self.old.scope.levels self.old.at token.now (head.DeclOpened naming)) result self.new }
    {
        if begins_params(alloc, &self.scope, token)? {
            return self.enter_params(alloc, body);
        }
        Ok(Frame {
            head: Head::DeclGroup(naming),
            body,
        })
    }

    fn enter_params(&mut self, alloc: Global, body: Body) -> Result<Frame, ReadFault>
        ensures { Decides (machine.state (frame_at (head.ParamsStart false) body ∷ stack_of self.old.stack) ([] ∷ self.old.scope.levels) self.old.at None) result self.new }
    {
        self.scope.enter(Level::new(alloc))?;
        Ok(Frame {
            head: Head::ParamsStart(false),
            body,
        })
    }

    // Behind `void` in a parameter list: its end, or a parameter that begins so.
    fn decide_void(
        &mut self,
        alloc: Global,
        inner: bool,
        body: Body,
        token: &Terminal,
    ) -> Result<Frame, ReadFault>
        ensures { Decides (machine.decide (frame_at (head.ParamsVoid inner) body) (stack_of self.old.stack) self.old.scope.levels self.old.at token.now (head.ParamsVoid inner)) result self.new }
    {
        if is_close_paren(token) {
            return Ok(Frame {
                head: Head::ParamsVoid(inner),
                body,
            });
        }
        self.stack.push(Frame {
            head: Head::ParamsStart(inner),
            body,
        })?;
        let words = pushed(Items::new(alloc), SpecWord::Void)?;
        Ok(opened(alloc, Head::Spec(Context::Param, words), before(self.at)))
    }

    // What stands behind an opening parenthesis shows with the next token.
    fn decide(&mut self, alloc: Global, frame: Frame, token: &Terminal) -> Result<Frame, ReadFault>
        ensures { Decides (machine.decide (frame_of frame) (stack_of self.old.stack) self.old.scope.levels self.old.at token.now frame.head) result self.new }
    {
        let Frame { head, body } = frame;
        match head {
            Head::Opened(level) => self.decide_group(alloc, level, body, token),
            Head::SizeofOpen => self.decide_sizeof(alloc, body, token),
            Head::DeclOpened(naming) => self.decide_declarator(alloc, naming, body, token),
            Head::ParamsVoid(inner) => self.decide_void(alloc, inner, body, token),
            other => Ok(Frame { head: other, body }),
        }
    }

    fn fed(&mut self, alloc: Global, frame: Frame, token: &Terminal) -> Result<(), ReadFault>
        ensures { Steps (machine.feed (frame_of frame ∷ stack_of self.old.stack) self.old.scope.levels self.old.at token.now) result (state_of self.new) }
    {
        let Frame { head, body } = frame;
        match self.feed(alloc, head, body, token)? {
            None => Ok(()),
            Some(part) => self.settle(alloc, part, token),
        }
    }

    fn going(&mut self, alloc: Global, token: &Terminal) -> Result<(), ReadFault>
        ensures { Steps (machine.going (stack_of self.old.stack) self.old.scope.levels self.old.at token.now) result (state_of self.new) }
    {
        match self.stack.pop() {
            None => Err(ReadFault::Refused),
            Some(frame) => {
                let frame = self.decide(alloc, frame, token)?;
                self.fed(alloc, frame, token)
            }
        }
    }

    /// Takes the next token.
    #[tactic(auto, using(crate::proofs::Outset::step_out))]
    pub fn step(&mut self, alloc: Global, token: &Terminal) -> Result<(), ReadFault>
        ensures { Steps (machine.step (state_of self.old) token.now) result (state_of self.new) }
    {
        match self.last.take() {
            Some(part) => self.settle(alloc, part, token),
            None => self.going(alloc, token),
        }
    }
}
