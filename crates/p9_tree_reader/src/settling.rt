// A node that is read, before the next token.
ghost use Rattle.std.specs.Prelude.{◌≡◌, ◌∷◌, Some, None, true, if◌then◌else◌};
ghost use Rattle.p9_grammar.specs.Trees.{tree_of, trees_of, push};
ghost use Rattle.p9_grammar.specs.Scopes.{add, nothing};
ghost use Rattle.p9_grammar.specs.Machine as machine;
ghost use Rattle.p9_tree_build.specs.Machines.{told_of, frame_of, read_of, stack_of};
ghost use Rattle.p9_tree_moves.specs.Moves.{after_of, joined_of, is_text, IsOfText};
ghost use Rattle.p9_tree_reader.specs.Reading.{state_of, longer, goes_on, attaches, settles, Steps, Continues, KeepsStack};

use crate::names::{declare_part, enter};
use crate::parts::{begun_with, grown, lengthened, posted};
use crate::{ReadFault, Reader};
use p9_grammar::{Head, Terminal};
use p9_lang::{Ident, Kind};
use p9_tree_build::{Body, Frame, Read};
use p9_tree_moves::{After, Join, Joined, attached, hears, join, wanted};
use std::alloc::Global;

impl Reader {
    // A node goes on that opens its level of names here.
    fn push_entered(&mut self, alloc: Global, frame: Frame) -> Result<(), ReadFault>
        ensures { Steps (machine.to (frame_of frame ∷ stack_of self.old.stack) (machine.enters frame.head self.old.scope.levels) self.old.at None) result (state_of self.new) }
    {
        enter(alloc, &mut self.scope, &frame.head)?;
        self.stack.push(frame)?;
        self.to(None)
    }

    fn push_both(&mut self, alloc: Global, frame: Frame, top: Frame) -> Result<(), ReadFault>
        ensures { Steps (machine.to (frame_of top ∷ frame_of frame ∷ stack_of self.old.stack) (machine.enters top.head self.old.scope.levels) self.old.at None) result (state_of self.new) }
    {
        self.stack.push(frame)?;
        self.push_entered(alloc, top)
    }

    fn joins(
        &mut self,
        alloc: Global,
        frame: Frame,
        part: Read,
        head: Head,
    ) -> Result<(), ReadFault>
        ensures { Steps (machine.joining (frame_of frame) (stack_of self.old.stack) (read_of part) self.old.scope.levels self.old.at None (machine.Joins head)) result (state_of self.new) }
    {
        let top = begun_with(alloc, part, head)?;
        self.push_both(alloc, frame, top)
    }

    fn push_read(&mut self, frame: Frame, last: Read) -> Result<(), ReadFault>
        ensures { Steps (machine.to (frame_of frame ∷ stack_of self.old.stack) self.old.scope.levels self.old.at (Some (read_of last))) result (state_of self.new) }
    {
        self.stack.push(frame)?;
        self.to(Some(last))
    }

    fn posts(
        &mut self,
        alloc: Global,
        frame: Frame,
        part: Read,
        kind: Kind,
    ) -> Result<(), ReadFault>
        ensures { Steps (machine.joining (frame_of frame) (stack_of self.old.stack) (read_of part) self.old.scope.levels self.old.at None (machine.Posts kind)) result (state_of self.new) }
    {
        let last = posted(alloc, part, kind)?;
        self.push_read(frame, last)
    }

    fn lengthens(
        &mut self,
        alloc: Global,
        frame: Frame,
        text: Read,
        bytes: Ident,
    ) -> Result<(), ReadFault>
        requires { is_text (tree_of text.whole.node) ≡ true }
        ensures { Steps (machine.to (frame_of frame ∷ stack_of self.old.stack) self.old.scope.levels self.old.at (Some (record { tree = longer (tree_of text.whole.node) bytes; told = nothing }))) result (state_of self.new) }
    {
        let last = lengthened(alloc, text, bytes)?;
        self.push_read(frame, last)
    }

    fn go_on(
        &mut self,
        alloc: Global,
        after: After,
        body: Body,
        token: &Terminal,
    ) -> Result<Option<Read>, ReadFault>
        ensures step { Continues (goes_on (after_of after) body.from (trees_of body.row.list) (told_of body.told) (stack_of self.old.stack) self.old.scope.levels self.old.at token.now) result (state_of self.new) token.now }
        ensures kept { KeepsStack result self.old.stack self.new.stack }
    {
        match after {
            After::To(head) => self.feed(alloc, head, body, token),
            After::Makes(kind) => self.over(alloc, body, kind),
            After::Unwanted => Err(ReadFault::Refused),
        }
    }

    fn attach_as(
        &mut self,
        alloc: Global,
        after: After,
        body: Body,
        part: Read,
        hears: bool,
        token: &Terminal,
    ) -> Result<Option<Read>, ReadFault>
        ensures step { Continues (goes_on (after_of after) body.from (push (trees_of body.row.list) (tree_of part.whole.node)) (if hears then told_of part.told else told_of body.told) (stack_of self.old.stack) self.old.scope.levels self.old.at token.now) result (state_of self.new) token.now }
        ensures kept { KeepsStack result self.old.stack self.new.stack }
    {
        let body = grown(body, part, hears)?;
        self.go_on(alloc, after, body, token)
    }

    #[tactic(auto, using(crate::proofs::Settles::attach_goes_on))]
    fn attach(
        &mut self,
        alloc: Global,
        frame: Frame,
        part: Read,
        token: &Terminal,
    ) -> Result<Option<Read>, ReadFault>
        ensures step { Continues (attaches (frame_of frame) (stack_of self.old.stack) (read_of part) self.old.scope.levels self.old.at token.now) result (state_of self.new) token.now }
        ensures kept { KeepsStack result self.old.stack self.new.stack }
    {
        let hears = hears(&frame.head);
        let Frame { head, body } = frame;
        let after = attached(head, &part.whole.node)?;
        self.attach_as(alloc, after, body, part, hears, token)
    }

    // A node is no part of an operator that follows.
    fn attach_part(
        &mut self,
        alloc: Global,
        frame: Frame,
        part: Read,
        token: &Terminal,
    ) -> Result<Option<Read>, ReadFault>
        ensures step { Continues (attaches (frame_of frame) (stack_of self.old.stack) (read_of part) (add (machine.role frame.head) (told_of part.told) self.old.scope.levels) self.old.at token.now) result (state_of self.new) token.now }
        ensures kept { KeepsStack result self.old.stack self.new.stack }
    {
        declare_part(alloc, &mut self.scope, &frame.head, &part.told)?;
        self.attach(alloc, frame, part, token)
    }

    #[tactic(auto, using(crate::proofs::Settles::longer_settles))]
    fn settle_as(
        &mut self,
        alloc: Global,
        joined: Joined,
        frame: Frame,
        part: Read,
        token: &Terminal,
    ) -> Result<Option<Read>, ReadFault>
        requires { IsOfText (tree_of part.whole.node) joined }
        ensures step { Continues (settles (joined_of (tree_of part.whole.node) joined) (frame_of frame) (stack_of self.old.stack) (read_of part) self.old.scope.levels self.old.at token.now) result (state_of self.new) token.now }
        ensures kept { KeepsStack result self.old.stack self.new.stack }
    {
        match joined {
            Joined::Marked(Join::Joins(head)) => {
                self.joins(alloc, frame, part, head)?;
                Ok(None)
            }
            Joined::Marked(Join::Posts(kind)) => {
                self.posts(alloc, frame, part, kind)?;
                Ok(None)
            }
            Joined::Marked(Join::Apart) => self.attach_part(alloc, frame, part, token),
            Joined::Longer(bytes) => {
                self.lengthens(alloc, frame, part, bytes)?;
                Ok(None)
            }
        }
    }

    pub(crate) fn settle_one(
        &mut self,
        alloc: Global,
        frame: Frame,
        part: Read,
        token: &Terminal,
    ) -> Result<Option<Read>, ReadFault>
        ensures step { Continues (machine.settle (frame_of frame ∷ stack_of self.old.stack) (read_of part) self.old.scope.levels self.old.at token.now) result (state_of self.new) token.now }
        ensures kept { KeepsStack result self.old.stack self.new.stack }
    {
        let joined = join(alloc, wanted(&frame.head), &part.whole.node, token)?;
        self.settle_as(alloc, joined, frame, part, token)
    }
}
