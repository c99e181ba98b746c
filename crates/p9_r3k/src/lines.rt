// Lines of a program before its addresses are known.

use crate::inst::Inst;
use std::marker::Model;

/// Which piece of an address a line takes: the half words of LUI and ORI or of a load or store, or the
/// index of a jump. The upper half is the address without its lower 16 bits, not adjusted for a lower
/// half that is sign-extended: ORI alone completes it to the address, and a load, store or ADDIU does so
/// only where the lower half is below 0x8000.
#[derive(Clone, Copy, PartialEq, Eq, Debug)]
pub enum Part {
    High,
    Low,
    Jump,
}

/// A piece of an address, of `offset` bytes after a symbol of a module.
#[derive(Clone, Copy, PartialEq, Eq, Debug)]
pub struct Value {
    pub part: Part,
    pub module: u32,
    pub symbol: u32,
    pub offset: u32,
}

/// An instruction. `target` is the number of the line that a branch or jump goes to, `value` what is
/// filled into the instruction once addresses are known, and `is_target` says that control may come
/// to the line from elsewhere. A jump without a target goes to the least line at the address that its
/// piece of an address names.
#[derive(Clone, Copy, PartialEq, Eq, Debug)]
pub struct Line {
    pub inst: Inst,
    pub target: Option<u32>,
    pub value: Option<Value>,
    pub is_target: bool,
}

/// The lines of a program, numbered from 0.
#[derive(Drop)]
pub struct Lines {
    pub list: Vec<Line>,
}

impl Model for Lines {
    ghost use Rattle.std.specs.Prelude.{List};
    ghost use Rattle.p9_r3k.specs.declared.lines.Line.{Line};

    ghost Value = { List Line };

    ghost view = { λ l. l.list.items };
}
