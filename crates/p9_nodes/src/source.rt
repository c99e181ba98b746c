// Modules whose nodes are read.
ghost use Rattle.std.specs.Prelude.{◌≡◌, IsTrue, unwrap_or, slice_get};
ghost use Rattle.p9_lang.specs.Types.{Void, Nothing, type_of, types_of, meant, all_meant};
ghost use Rattle.p9_lang.specs.Conversions.{is_void};
ghost use Rattle.p9_nodes.specs.Unlabelled.{is_nothing};

use p9_lang::{Bind, CType, Module};

/// A module, with what a node has that it knows nothing of.
#[derive(Drop)]
pub struct Source<'a> {
    pub typed: &'a Module,
    void: CType,
    nothing: Bind,
    ghost has_void: { IsTrue (is_void (type_of void)) },
    ghost has_nothing: { IsTrue (is_nothing (meant nothing)) },
}

impl<'a> Source<'a> {
    #[tactic(auto, using(crate::proofs::Numbers::void_is))]
    pub fn new(typed: &'a Module) -> Source<'a>
        ensures { result.typed.now ≡ typed.now }
    {
        Source {
            typed,
            void: CType::Void,
            nothing: Bind::Nothing,
        }
    }

    /// The void type.
    #[tactic(auto, using(crate::proofs::Numbers::is_void_type))]
    pub fn void(&self) -> &CType
        ensures { type_of result.now ≡ Void }
    {
        &self.void
    }

    // The type of the node with this number.
    #[tactic(auto, using(crate::proofs::Numbers::type_found, crate::proofs::Numbers::type_missing))]
    pub(crate) fn type_at(&self, number: u32) -> &CType
        ensures { type_of result.now ≡ unwrap_or (slice_get (types_of self.now.typed.now.types) number) Void }
    {
        match self.typed.types.get(number as usize) {
            Some(ty) => ty,
            None => &self.void,
        }
    }

    // What the node with this number stands for.
    #[tactic(auto, using(crate::proofs::Numbers::meaning_found, crate::proofs::Numbers::meaning_missing))]
    pub(crate) fn meaning_at(&self, number: u32) -> &Bind
        ensures { meant result.now ≡ unwrap_or (slice_get (all_meant self.now.typed.now.binds) number) Nothing }
    {
        match self.typed.binds.get(number as usize) {
            Some(means) => means,
            None => &self.nothing,
        }
    }
}
