// The types and meanings of nodes.
ghost use Rattle.std.specs.Prelude.{◌≡◌, OnOk, slice_get};
ghost use Rattle.std.specs.Option.{option_copied, option_map};
ghost use Rattle.p9_lang.specs.Types.{type_of, meant};
ghost use Rattle.p9_lang.specs.Scopes.{next_node, with_node, with_type, with_meaning};
ghost use Rattle.p9_scopes.specs.State.{known_of};

use crate::known::Known;
use p9_base::NoMemory;
use p9_lang::{Bind, CType};

impl Known {
    /// The number of the next node.
    #[tactic(auto, using(crate::proofs::NodeLists::types_length))]
    pub fn next_node(&self) -> usize
        ensures { result ≡ next_node (known_of self.now) }
    {
        self.types.len()
    }

    /// The next node has this type and this meaning.
    #[tactic(auto, using(crate::proofs::NodeLists::types_end, crate::proofs::NodeLists::means_end))]
    pub fn add_node(&mut self, ty: CType, bind: Bind) -> Result<(), NoMemory>
        ensures { OnOk result (known_of self.new ≡ with_node (type_of ty) (meant bind) (known_of self.old)) }
    {
        self.types.push(ty)?;
        self.binds.push(bind)?;
        Ok(())
    }

    /// A node, if it is there, has another type.
    #[tactic(auto, using(crate::proofs::NodeLists::types_set, crate::proofs::NodeLists::types_set_past))]
    pub fn set_type(&mut self, node: usize, ty: CType)
        ensures { known_of self.new ≡ with_type node (type_of ty) (known_of self.old) }
    {
        if node < self.types.len() {
            self.types.set(node, ty);
        }
    }

    /// A node, if it is there, has another meaning.
    #[tactic(auto, using(crate::proofs::NodeLists::means_set, crate::proofs::NodeLists::means_set_past))]
    pub fn set_meaning(&mut self, node: usize, bind: Bind)
        ensures { known_of self.new ≡ with_meaning node (meant bind) (known_of self.old) }
    {
        if node < self.binds.len() {
            self.binds.set(node, bind);
        }
    }

    /// What a node means.
    #[tactic(auto, using(crate::proofs::NodeLists::means_at))]
    pub fn meaning(&self, node: usize) -> Option<&Bind>
        ensures { option_map meant (option_copied result) ≡ slice_get (known_of self.now).means node }
    {
        self.binds.get(node)
    }
}
