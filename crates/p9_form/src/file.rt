// A file of the form.
use p9_base::{Bytes, Name};
use std::marker::Model;

/// A variable by its name, or a number.
#[derive(Drop)]
pub enum Operand {
    Variable(Name),
    Number(u32),
}

/// A statement of `main`. An assignment has one operand, or a sum of two; `exits` has a text, or the
/// number 0.
#[derive(Drop)]
pub enum Statement {
    Assign {
        place: Name,
        left: Operand,
        right: Option<Operand>,
    },
    Write {
        text: Bytes,
        count: Operand,
    },
    Exits(Option<Bytes>),
}

/// Statements in order.
#[derive(Drop)]
pub struct Statements {
    pub list: Vec<Statement>,
}

impl Model for Statements {
    ghost use Rattle.std.specs.Prelude.{List};
    ghost use Rattle.p9_form.specs.declared.file.Statement.{Statement};

    ghost Value = { List Statement };

    ghost view = { λ s. s.list.items };
}

/// What a declaration says of a variable's first value: it is declared as `extern`, or has none, or
/// has this one.
#[derive(Drop)]
pub enum First {
    Extern,
    Zero,
    Number(u32),
}

/// A declaration of one variable, of type int or long.
#[derive(Drop)]
pub struct Declaration {
    pub name: Name,
    pub is_long: bool,
    pub first: First,
}

/// Declarations in order.
#[derive(Drop)]
pub struct Declarations {
    pub list: Vec<Declaration>,
}

impl Model for Declarations {
    ghost use Rattle.std.specs.Prelude.{List};
    ghost use Rattle.p9_form.specs.declared.file.Declaration.{Declaration};

    ghost Value = { List Declaration };

    ghost view = { λ d. d.list.items };
}

/// A file: declarations, then perhaps `main`, and then perhaps more declarations.
#[derive(Drop)]
pub struct File {
    pub before: Declarations,
    pub main: Option<Statements>,
    pub after: Declarations,
}

/// Files in order.
#[derive(Drop)]
pub struct FileList {
    pub list: Vec<File>,
}

impl Model for FileList {
    ghost use Rattle.std.specs.Prelude.{List};
    ghost use Rattle.p9_form.specs.declared.file.File.{File};

    ghost Value = { List File };

    ghost view = { λ f. f.list.items };
}
