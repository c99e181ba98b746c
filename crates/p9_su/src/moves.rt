// The moves of the register game.

/// A leaf is loaded into a register, or the values of a node's two sons become the node's value.
#[derive(Clone, Copy, Debug, PartialEq, Eq, Drop)]
pub enum Move {
    /// Leaves are numbered from 0, from left to right.
    Load { leaf: u32, register: u8 },
    /// The value is left in `into`, and `with` becomes free.
    Combine { into: u8, with: u8 },
}

/// An order of evaluation.
#[derive(Debug, Drop)]
pub struct Plan {
    pub moves: Vec<Move>,
}
