// Regions of automatics, and the registers that are their homes.
use std::marker::Model;

/// Numbers of instructions, in rising order.
#[derive(Drop)]
pub struct Points {
    pub list: Vec<u32>,
}

impl Model for Points {
    ghost use Rattle.std.specs.Prelude.{List, ℕ};

    ghost Value = { List ℕ };

    ghost view = { λ p. p.list.items };
}

/// A region of an automatic: instructions at which it has one value to keep.
#[derive(Drop)]
pub struct Region {
    pub auto: u32,
    pub points: Points,
}

/// The regions of a function, by automatic and then by least point.
#[derive(Drop)]
pub struct Regions {
    pub list: Vec<Region>,
}

impl Model for Regions {
    ghost use Rattle.std.specs.Prelude.{List};
    ghost use Rattle.p9_abs.specs.declared.regions.Region.{Region};

    ghost Value = { List Region };

    ghost view = { λ r. r.list.items };
}

/// For each region the register that holds its automatic, or none.
#[derive(Drop)]
pub struct Homes {
    pub list: Vec<Option<u8>>,
}

impl Model for Homes {
    ghost use Rattle.std.specs.Prelude.{List, Option, ℕ};

    ghost Value = { List (Option ℕ) };

    ghost view = { λ h. h.list.items };
}
