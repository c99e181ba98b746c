// The steps of the reader.
ghost use Rattle.std.specs.Prelude.{◌≡◌, ◌∷◌, suc, Some, None, Err, IfOk, OnOk, OnErr};
ghost use Rattle.p9_grammar.specs.declared.terminal.Terminal.{Terminal};
ghost use Rattle.p9_grammar.specs.declared.head.Head.{Head};
ghost use Rattle.p9_grammar.specs.Trees.{trees_of};
ghost use Rattle.p9_grammar.specs.Scopes.{leave};
ghost use Rattle.p9_grammar.specs.Machine as machine;
ghost use Rattle.p9_tree_build.specs.Machines.{told_of, frame_at, stack_of};
ghost use Rattle.p9_tree_moves.specs.Moves.{begin_of, move_of};
ghost use Rattle.p9_tree_reader.specs.Reading.{state_of, last_of, opened_by, settled, Steps, Continues, KeepsStack};

use crate::names::{enter, open_level};
use crate::{ReadFault, Reader};
use p9_grammar::{Head, Terminal};
use p9_lang::Kind;
use p9_tree_build::{Body, Frame, Read, closed, opened, single};
use p9_tree_moves::{Begin, Move, act, begin, wanted};
use std::alloc::{AllocError, Global};

fn further(at: u32) -> Result<u32, AllocError>
    ensures { IfOk result (λ n. n ≡ suc at) }
{
    at.checked_add(1).ok_or(AllocError)
}

impl Reader {
    /// Goes on behind the token, with the node that it ends, if it ends one.
    pub(crate) fn to(&mut self, last: Option<Read>) -> Result<(), ReadFault>
        ensures { Steps (machine.to (stack_of self.old.stack) self.old.scope.levels self.old.at (last_of last)) result (state_of self.new) }
    {
        self.at = further(self.at)?;
        self.last = last;
        Ok(())
    }

    fn inside(&mut self, alloc: Global, begin: Begin) -> Result<(), ReadFault>
        ensures { Steps (machine.inside (stack_of self.old.stack) self.old.scope.levels self.old.at (begin_of begin)) result (state_of self.new) }
    {
        match begin {
            Begin::Pushes(head) => {
                enter(alloc, &mut self.scope, &head)?;
                self.stack.push(opened(alloc, head, self.at))?;
                self.to(None)
            }
            Begin::Leaf(kind) => {
                let node = single(alloc, kind, self.at)?;
                self.to(Some(node))
            }
            Begin::Under(_) | Begin::Nowhere => Err(ReadFault::Refused),
        }
    }

    fn opening(&mut self, alloc: Global, token: &Terminal, begins: Begin) -> Result<(), ReadFault>
        ensures { Steps (machine.opening (stack_of self.old.stack) self.old.scope.levels self.old.at token.now (begin_of begins)) result (state_of self.new) }
    {
        match begins {
            Begin::Pushes(head) => self.inside(alloc, Begin::Pushes(head)),
            Begin::Leaf(kind) => self.inside(alloc, Begin::Leaf(kind)),
            Begin::Under(head) => {
                let first = begin(alloc, &self.scope, wanted(&head), token)?;
                self.stack.push(opened(alloc, head, self.at))?;
                self.inside(alloc, first)
            }
            Begin::Nowhere => Err(ReadFault::Refused),
        }
    }

    // A node goes on that has come so far.
    fn push(&mut self, alloc: Global, body: Body, head: Head) -> Result<(), ReadFault>
        ensures stack { OnOk result (stack_of self.new.stack ≡ frame_at head body ∷ stack_of self.old.stack) }
        ensures scope { OnOk result (self.new.scope.levels ≡ machine.opens head (told_of body.told) self.old.scope.levels) }
        ensures at { OnOk result (self.new.at ≡ self.old.at) }
        ensures fault { OnErr result (result ≡ Err ReadFault.Memory) }
    {
        open_level(alloc, &mut self.scope, &head, &body.told)?;
        self.stack.push(Frame { head, body })?;
        Ok(())
    }

    fn shift(&mut self, alloc: Global, body: Body, head: Head) -> Result<(), ReadFault>
        ensures { Steps (machine.to (frame_at head body ∷ stack_of self.old.stack) (machine.opens head (told_of body.told) self.old.scope.levels) self.old.at None) result (state_of self.new) }
    {
        self.push(alloc, body, head)?;
        self.to(None)
    }

    fn ends(&mut self, alloc: Global, body: Body, kind: Kind) -> Result<(), ReadFault>
        ensures { Steps (machine.to (stack_of self.old.stack) (leave kind self.old.scope.levels) self.old.at (Some (machine.made kind body.from (trees_of body.row.list) (told_of body.told) self.old.scope.levels))) result (state_of self.new) }
    {
        let node = closed(alloc, kind, body, &mut self.scope)?;
        self.to(Some(node))
    }

    fn opens(
        &mut self,
        alloc: Global,
        body: Body,
        head: Head,
        token: &Terminal,
    ) -> Result<(), ReadFault>
        ensures { Steps (opened_by head body (stack_of self.old.stack) self.old.scope.levels self.old.at token.now) result (state_of self.new) }
    {
        let class = wanted(&head);
        self.push(alloc, body, head)?;
        let first = begin(alloc, &self.scope, class, token)?;
        self.opening(alloc, token, first)
    }

    /// Ends a node before the token: it is answered, and is still to be settled.
    pub(crate) fn over(
        &mut self,
        alloc: Global,
        body: Body,
        kind: Kind,
    ) -> Result<Option<Read>, ReadFault>
        ensures step { (token : Terminal) → Continues (machine.settle (stack_of self.old.stack) (machine.made kind body.from (trees_of body.row.list) (told_of body.told) self.old.scope.levels) (leave kind self.old.scope.levels) self.old.at token) result (state_of self.new) token }
        ensures kept { KeepsStack result self.old.stack self.new.stack }
    {
        Ok(Some(closed(alloc, kind, body, &mut self.scope)?))
    }

    fn resolve(
        &mut self,
        alloc: Global,
        body: Body,
        token: &Terminal,
        taken: Move,
    ) -> Result<Option<Read>, ReadFault>
        ensures step { (h : Head) → Continues (machine.resolve (frame_at h body) (stack_of self.old.stack) self.old.scope.levels self.old.at token.now (settled (stack_of self.old.stack) self.old.at token.now) (move_of taken)) result (state_of self.new) token.now }
        ensures kept { KeepsStack result self.old.stack self.new.stack }
    {
        match taken {
            Move::Shift(head) => {
                self.shift(alloc, body, head)?;
                Ok(None)
            }
            Move::Ends(kind) => {
                self.ends(alloc, body, kind)?;
                Ok(None)
            }
            Move::Opens(head) => {
                self.opens(alloc, body, head, token)?;
                Ok(None)
            }
            Move::Over(kind) => self.over(alloc, body, kind),
            Move::Refused => Err(ReadFault::Refused),
        }
    }

    /// Does what an open node that has come so far does with a token: a node that is over is answered,
    /// and is still to be settled.
    pub(crate) fn feed(
        &mut self,
        alloc: Global,
        head: Head,
        body: Body,
        token: &Terminal,
    ) -> Result<Option<Read>, ReadFault>
        ensures step { Continues (machine.feed (frame_at head body ∷ stack_of self.old.stack) self.old.scope.levels self.old.at token.now) result (state_of self.new) token.now }
        ensures kept { KeepsStack result self.old.stack self.new.stack }
    {
        let taken = act(alloc, &self.scope, head, token)?;
        self.resolve(alloc, body, token, taken)
    }
}
