// A file's tokens, cut into lists of text and directives.
ghost use Rattle.std.specs.Prelude.{◌≡◌, ◌≢◌, ◌++◌, IfOk};
ghost use Rattle.p9_cpp.specs.Items.{start_of, line_start, by_start, finished, items_of, end_of, Cut};
ghost use Rattle.p9_cpp.specs.declared.items.Start.{Start};

use crate::pile::Pile;
use crate::row::Row;
use p9_base::NoMemory;
use p9_lex::{Token, TokenKind};
use std::alloc::Global;

/// A list of text, or a directive: the line of its `#`, and the tokens behind that.
#[derive(Drop)]
pub struct Item {
    pub directive: Option<u32>,
    pub tokens: Row<Token>,
}

/// A file's items in order, and the token of its end.
#[derive(Drop)]
pub struct Items {
    pub list: Pile<Item>,
    pub end: Option<Token>,
}

/// What a token does: it ends the file, is the `#` of a directive, is the first on its line, or goes on
/// in its line.
#[derive(Clone, Copy, Debug, PartialEq, Eq, Drop)]
pub enum Start {
    End,
    Directive,
    Line,
    Nothing,
}

fn start_of(t: &Token) -> Start
    ensures { result ≡ start_of t.now }
{
    match &t.kind {
        TokenKind::End => Start::End,
        TokenKind::Mark(number) => {
            if t.first {
                if *number == 45 {
                    Start::Directive
                } else {
                    Start::Line
                }
            } else {
                Start::Nothing
            }
        }
        TokenKind::Word(_) => line_start(t.first),
        TokenKind::Number {
            value: _,
            unsigned: _,
            long: _,
        } => line_start(t.first),
        TokenKind::Char(_) => line_start(t.first),
        TokenKind::Text(_) => line_start(t.first),
        TokenKind::NewLine => line_start(t.first),
    }
}

fn line_start(first: bool) -> Start
    ensures { result ≡ line_start first }
{
    if first { Start::Line } else { Start::Nothing }
}

// Puts a token that doesn't end the file into the item that is read, or begins the next.
fn put(
    alloc: Global,
    items: &mut Row<Item>,
    current: Item,
    start: Start,
    t: Token,
) -> Result<Item, NoMemory>
    requires { start ≢ Start.End }
    ensures { IfOk result (λ next. (c : Cut) → items.old ++ finished current (by_start start t c) ≡ items.new ++ finished next c) }
{
    let mut current = current;
    match start {
        Start::Directive => {
            let line = Some(t.line);
            items.push(current)?;
            Ok(Item {
                directive: line,
                tokens: Row::new(alloc),
            })
        }
        Start::Line => {
            if current.directive.is_some() {
                items.push(current)?;
                let mut tokens = Row::new(alloc);
                tokens.push(t)?;
                return Ok(Item {
                    directive: None,
                    tokens,
                });
            }
            current.tokens.push(t)?;
            Ok(current)
        }
        Start::Nothing | Start::End => {
            current.tokens.push(t)?;
            Ok(current)
        }
    }
}

/// The items of a file.
pub fn items_of(alloc: Global, tokens: Row<Token>) -> Result<Items, NoMemory>
    ensures items { IfOk result (λ items. items.list ≡ items_of tokens) }
    ensures end { IfOk result (λ items. items.end ≡ end_of tokens) }
{
    let mut left = Pile::of_row(tokens);
    let mut list = Row::new(alloc);
    let mut current = Item {
        directive: None,
        tokens: Row::new(alloc),
    };
    while let Some(t) = left.pop() {
        let start = start_of(&t);
        if start == Start::End {
            list.push(current)?;
            return Ok(Items {
                list: Pile::of_row(list),
                end: Some(t),
            });
        }
        current = put(alloc, &mut list, current, start, t)?;
    }
    list.push(current)?;
    Ok(Items {
        list: Pile::of_row(list),
        end: None,
    })
}
