//! What the joiner calls joining, by names, kinds, signatures and sizes, is what the meaning of C
//! calls joining, by names, roles and types. And a run of such files is never too deep.
#![tactic(auto)]

mod laws;

pub use laws::{files_have_modules, files_join_as_sources, form_comes, form_is_never_deep};
