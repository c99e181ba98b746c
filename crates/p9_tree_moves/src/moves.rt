// What a token does to the reader.
use p9_grammar::Head;
use p9_lang::{Ident, Kind};

/// What the innermost open node does with a token: takes it and goes on, takes it and ends, begins a
/// part with it, ends before it, or refuses it.
#[derive(Drop)]
pub enum Move {
    Shift(Head),
    Ends(Kind),
    Opens(Head),
    Over(Kind),
    Refused,
}

/// How a part begins: with a token that opens a node, with one that is a node, or in a node of which
/// it is the first part.
#[derive(Drop)]
pub enum Begin {
    Pushes(Head),
    Leaf(Kind),
    Under(Head),
    Nowhere,
}

/// What a part that is read makes of the node that it is part of: it goes on, or it ends.
#[derive(Drop)]
pub enum After {
    To(Head),
    Makes(Kind),
    Unwanted,
}

/// What a mark makes of the node before it: the first part of one that goes on or of one that is
/// whole; or nothing.
#[derive(Drop)]
pub enum Join {
    Joins(Head),
    Posts(Kind),
    Apart,
}

/// What a token makes of the node before it. A text behind a text makes it longer.
#[derive(Drop)]
pub enum Joined {
    Marked(Join),
    Longer(Ident),
}
