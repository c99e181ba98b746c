// Nodes with what the limits ask of them.
ghost use Rattle.std.specs.Prelude.{◌≡◌, ◌+◌, IfOk};
ghost use Rattle.p9_grammar.specs.Trees.{tree_of, trees_of, node, none, push, height, height_in, nodes, nodes_in};
ghost use Rattle.p9_lang.specs.declared.tree.Node.{Node};

use p9_lang::{Kind, Node};
use sqlite_items::Items;
use std::alloc::{AllocError, Global};

/// A node, how high it is and how many nodes it has.
#[derive(Drop)]
pub struct Whole {
    pub node: Node,
    pub high: u32,
    pub size: u32,
    ghost height_is: { high ≡ height (tree_of node) },
    ghost size_is: { size ≡ nodes (tree_of node) },
}

/// Nodes in order, the height of the highest and how many nodes they have together.
#[derive(Drop)]
pub struct Row {
    pub list: Items<Node>,
    pub high: u32,
    pub size: u32,
    ghost height_is: { high ≡ height_in (trees_of list) },
    ghost size_is: { size ≡ nodes_in (trees_of list) },
}

// Memory ends before so many nodes are there.
fn sum(a: u32, b: u32) -> Result<u32, AllocError>
    ensures { IfOk result (λ c. c ≡ a + b) }
{
    a.checked_add(b).ok_or(AllocError)
}

impl Row {
    pub fn new(alloc: Global) -> Row
        ensures { trees_of result.list ≡ none }
    {
        Row {
            list: Items::new(alloc),
            high: 0,
            size: 0,
        }
    }

    /// The nodes with one more at the end.
    #[tactic(auto, using(crate::proofs::Rows::pushed_list, crate::proofs::Rows::pushed_height, crate::proofs::Rows::pushed_nodes))]
    pub fn pushed(self, part: Whole) -> Result<Row, AllocError>
        ensures { IfOk result (λ row. trees_of row.list ≡ push (trees_of self.list) (tree_of part.node)) }
    {
        let high = self.high.max(part.high);
        let size = sum(self.size, part.size)?;
        let mut list = self.list;
        list.push(part.node)?;
        Ok(Row { list, high, size })
    }

    /// The node of this kind with these parts.
    #[tactic(auto, using(crate::proofs::Rows::made_tree, crate::proofs::Rows::made_height, crate::proofs::Rows::made_nodes))]
    pub fn whole(self, kind: Kind, token: u32) -> Result<Whole, AllocError>
        ensures { IfOk result (λ made. tree_of made.node ≡ node kind token (trees_of self.list)) }
    {
        let high = sum(self.high, 1)?;
        let size = sum(self.size, 1)?;
        let node = Node {
            kind,
            token,
            parts: self.list,
        };
        Ok(Whole { node, high, size })
    }
}
