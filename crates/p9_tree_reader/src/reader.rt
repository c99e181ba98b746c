// The reader and how it begins.
ghost use Rattle.std.specs.Prelude.{◌≡◌, ◌∷◌, [], IfOk};
ghost use Rattle.p9_grammar.specs.Machine.{file_start};
ghost use Rattle.p9_tree_reader.specs.Reading.{state_of};

use p9_grammar::Head;
use p9_tree_build::{Frame, Level, Pile, Read, Scope, opened};
use std::alloc::{AllocError, Global};

/// Why a token isn't taken.
#[derive(Debug, Drop)]
pub enum ReadFault {
    /// Nothing that was begun goes on with it.
    Refused,
    Memory,
}

impl From<AllocError> for ReadFault {
    ghost use Rattle.std.specs.Prelude.{◌≡◌};
    ghost use Rattle.p9_tree_reader.specs.declared.reader.ReadFault.TheVariants.{Memory};

    ghost from_gives = { λ _ e. e ≡ Memory };

    fn from(_: AllocError) -> ReadFault {
        ReadFault::Memory
    }
}

/// What is read so far: the nodes that are open, the innermost last, the names in scope, how many
/// tokens there were, and the node that has just been read, if one has.
#[derive(Drop)]
pub struct Reader {
    pub stack: Pile<Frame>,
    pub scope: Scope,
    pub at: u32,
    pub last: Option<Read>,
}

impl Reader {
    /// A reader of a whole file, before its first token.
    pub fn of_file(alloc: Global) -> Result<Reader, AllocError>
        ensures { IfOk result (λ r. state_of r ≡ file_start) }
    {
        let mut stack = Pile::new(alloc);
        stack.push(opened(alloc, Head::FileItems, 0))?;
        Ok(Reader {
            stack,
            scope: file_scope(alloc)?,
            at: 0,
            last: None,
        })
    }
}

fn file_scope(alloc: Global) -> Result<Scope, AllocError>
    ensures { IfOk result (λ scope. scope.levels ≡ [] ∷ []) }
{
    let mut scope = Scope {
        levels: Pile::new(alloc),
    };
    scope.enter(Level::new(alloc))?;
    Ok(scope)
}
