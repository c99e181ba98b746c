//! What is known while a file is typed: the names and tags in scope, the structures and unions, and
//! the types and meanings of the nodes that are judged so far.
#![tactic(auto)]

mod counting;
mod declared;
mod finish;
mod known;
mod level;
mod names;
mod newest;
mod nodes;
mod pile;
mod scopes;
mod system;
mod tag;
mod tag_level;
mod tag_table;
mod tagging;

pub use declared::Declared;
pub use finish::Finished;
pub use known::Known;
pub use level::NameLevel;
pub use names::Names;
pub use tag::{Keyword, TagName};
pub use tag_level::TagLevel;
pub use tagging::Tagging;
