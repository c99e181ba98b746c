//! Declarators: the types that their steps make, the rules on what they declare, and what is known of
//! a file once they are whole.
#![tactic(auto)]

mod bodies;
mod closing;
mod enumerators;
mod fault;
mod head;
mod lengths;
mod members;
mod objects;
mod parameters;
mod rules;
mod shaping;
mod steps;
mod storage;

pub use bodies::open_body;
pub use closing::{close_type, last_node};
pub use enumerators::{constant_rules, enumerated};
pub use fault::{TypingFault, also_broken, unless_broken};
pub use head::{Head, head_of};
pub use lengths::with_given_length;
pub use members::declare_member;
pub use objects::declare_object;
pub use parameters::declare_parameter;
pub use rules::sized_rules;
pub use shaping::{LengthBy, adjusted};
pub use steps::{NameNode, Shape, Step, make_no_type, name_of, own_list};
pub use storage::{Declaring, Storage, storage_of};
