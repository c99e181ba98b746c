use std::marker::Model;

/// A name, which contracts see as the list of its bytes.
#[derive(Debug, Drop)]
pub struct Ident {
    pub list: Vec<u8>,
}

impl Model for Ident {
    ghost use Rattle.std.specs.Prelude.{List, ℕ};
    ghost use Rattle.std.specs.Coded.{coded_list, coded_ℕ};

    ghost Value = { List ℕ };

    ghost coded = { coded_list coded_ℕ };

    ghost view = { λ i. i.list.items };
}
