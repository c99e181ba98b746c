//! Types of C: how many bytes their objects have, how these are aligned, where members stand, and how
//! a value of one type becomes one of another.
#![tactic(auto)]

mod capped;
mod converting;
mod descending;
mod elements;
mod fault;
mod finding;
mod head;
mod known;
mod laying;
mod layouts;
mod level;
mod offsets;
mod placing;
mod reaching;
mod same;
mod sought;
mod substructure;

pub use converting::{Conv, convert};
pub use elements::{Elements, array_elements};
pub use fault::TypeFault;
pub use finding::{Found, find_member};
pub use head::{is_integer, is_object, is_pointer, is_void, number_of, signature_of, target_of};
pub use laying::layout;
pub use layouts::Layout;
pub use reaching::tag_at;
pub use same::same_type;
