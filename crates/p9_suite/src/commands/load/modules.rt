// Modules that were read.
use p9_abs::AModule;
use std::marker::Model;

/// Modules in the order of their files.
#[derive(Drop)]
pub(crate) struct Modules {
    pub(crate) list: Vec<AModule>,
}

impl Model for Modules {
    ghost use Rattle.std.specs.Prelude.{List};
    ghost use Rattle.p9_abs.specs.declared.modules.AModule.{AModule};

    ghost Value = { List AModule };

    ghost view = { λ m. m.list.items };
}
