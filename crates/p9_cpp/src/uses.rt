// Uses of macros.
ghost use Rattle.std.specs.Prelude.{◌≡◌, false, List, ℕ, Some, None, MatchOption, IfSome, IfOk};
ghost use Rattle.p9_cpp.specs.Macros.{is_among, use_of, use_of_call, macro_of, Table};
ghost use Rattle.p9_cpp.specs.Reading.{IsKnown, IsUse, IsFound, flags_of};

use crate::arguments::{fitting, taken};
use crate::brackets::{Bracket, bracket_of};
use crate::hidden::is_marked;
use crate::macros::{Macro, word_at};
use crate::pile::Pile;
use crate::row::Row;
use indexmap::IndexMap;
use p9_base::{Name, NoMemory};
use p9_lex::{Token, TokenKind};
use std::alloc::Global;

/// Each name that was ever defined, with its macro where it is one now.
pub type Table = IndexMap<Name, Option<Macro>>;

/// A macro in the table, and its place there.
#[derive(Clone, Copy, Drop)]
pub struct Known<'a> {
    pub index: usize,
    pub name: &'a Name,
    pub definition: &'a Macro,
}

/// What a token at the head of a list is.
#[derive(Drop)]
pub enum Use<'a> {
    Stands,
    Plain(Known<'a>),
    Call(Known<'a>, &'a Row<Name>, Row<Pile<Token>>),
    Wrong(Known<'a>),
}

fn look_up<'a>(table: &'a Table, name: &Name) -> Option<Known<'a>>
    ensures value { MatchOption result (macro_of table.now.entries name.now ≡ None) (λ known. macro_of table.now.entries name.now ≡ Some known.definition.now) }
    ensures name { IfSome result (λ known. known.name.now ≡ name.now) }
    ensures place { IfSome result (λ known. IsKnown table.now.entries known) }
{
    match table.get_full(name) {
        Some((index, key, Some(definition))) => Some(Known {
            index,
            name: key,
            definition,
        }),
        _ => None,
    }
}

fn use_of_call<'a>(
    alloc: Global,
    known: Known<'a>,
    params: &'a Row<Name>,
    left: &mut Pile<Token>,
) -> Result<Use<'a>, NoMemory>
    ensures used { IsUse (use_of_call known.entry.name.now known.entry.definition.now params.now left.old) left.old result left.new }
    ensures found { (table : Table) (names : List (List ℕ)) → IsKnown table known.entry → is_among names known.entry.name.now ≡ false → IsFound table names result }
{
    let next = match left.pop() {
        Some(next) => next,
        None => return Ok(Use::Stands),
    };
    if let Bracket::Open = bracket_of(&next.kind) {
        let args = match taken(alloc, left)? {
            Some(args) => args,
            None => return Ok(Use::Wrong(known)),
        };
        return match fitting(alloc, params.len(), args) {
            Some(args) => Ok(Use::Call(known, params, args)),
            None => Ok(Use::Wrong(known)),
        };
    }
    left.push(next)?;
    Ok(Use::Stands)
}

/// What a token is before those that are left; takes the arguments of a use.
pub fn use_of<'a>(
    alloc: Global,
    table: &'a Table,
    hidden: &Row<bool>,
    kind: &TokenKind,
    left: &mut Pile<Token>,
) -> Result<Use<'a>, NoMemory>
    ensures used { (names : List (List ℕ)) → hidden.now ≡ flags_of table.now.entries names → IsUse (use_of table.now.entries names kind.now left.old) left.old result left.new }
    ensures found { (names : List (List ℕ)) → hidden.now ≡ flags_of table.now.entries names → IsFound table.now.entries names result }
{
    let name = match word_at(kind) {
        Some(name) => name,
        None => return Ok(Use::Stands),
    };
    let known = match look_up(table, name) {
        Some(known) => known,
        None => return Ok(Use::Stands),
    };
    if is_marked(hidden, known.index) {
        return Ok(Use::Stands);
    }
    match &known.definition.params {
        None => Ok(Use::Plain(known)),
        Some(params) => use_of_call(alloc, known, params, left),
    }
}
