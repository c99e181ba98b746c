// What an entry writes.
ghost use Rattle.std.specs.Prelude.{◌≡◌, ◌≢◌, IfSome, IfOk, IfErr, Ok, Err};
ghost use Rattle.p9_lang.specs.Types.{type_of};
ghost use Rattle.p9_tree.specs.Contents as contents;
ghost use Rattle.p9_tree.specs.Modules.{entry_of};
ghost use Rattle.p9_init.specs.Fixing.{told};
ghost use Rattle.p9_init.specs.Contents.{FitsType, told_content, told_write, broken_item};

use crate::fault::InitFault;
use crate::fixed::{Fixed, fixed_of};
use p9_lang::CType;
use p9_operand::narrowed;
use p9_tree::TEntry;
use p9_types::{is_integer, is_pointer};

/// A number, or the address of a symbol, moved.
#[derive(Clone, Copy)]
pub(crate) enum Content {
    Word(u32),
    AddressOf { symbol: u32, offset: u32 },
}

// A number initialises a pointer only where it is 0.
fn word_in(ty: &CType, word: u32) -> Option<Content>
    ensures fits { IfSome result (FitsType (type_of ty.now)) }
    ensures content { told_content result ≡ contents.content_in (type_of ty.now) (contents.Number word) }
{
    if is_integer(ty) {
        Some(Content::Word(narrowed(ty, word)))
    } else if word == 0 {
        Some(Content::Word(0))
    } else {
        None
    }
}

fn content_in(ty: &CType, value: Fixed) -> Option<Content>
    ensures content { told_content result ≡ contents.content_in (type_of ty.now) (told value) }
    ensures fits { IfSome result (FitsType (type_of ty.now)) }
{
    match value {
        Fixed::Number(word) => word_in(ty, word),
        Fixed::At { symbol, offset } => {
            if is_pointer(ty) {
                Some(Content::AddressOf { symbol, offset })
            } else {
                None
            }
        }
        Fixed::NotFixed => None,
    }
}

/// What an entry writes, or why it is refused.
pub(crate) fn content_of(entry: &TEntry) -> Result<Content, InitFault>
    ensures content { IfOk result (λ content. contents.entry_write (entry_of entry.now) ≡ Ok (told_write entry.now content)) }
    ensures fits { IfOk result (FitsType (type_of entry.now.ty)) }
    ensures refused { IfErr result (λ fault. contents.entry_write (entry_of entry.now) ≡ Err (broken_item fault)) }
    ensures no_memory { IfErr result (λ fault. fault ≢ InitFault.Memory) }
{
    if !entry.inside {
        return Err(InitFault::TooManyItems(entry.node));
    }
    match content_in(&entry.ty, fixed_of(&entry.value)) {
        Some(content) => Ok(content),
        None => Err(InitFault::NotConstant(entry.node)),
    }
}
