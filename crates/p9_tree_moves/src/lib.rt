//! What a token does to the innermost open node, as the grammar's machine has it: the tables of the
//! reader of C's trees.
#![tactic(auto)]

mod acting;
mod attaching;
mod begins;
mod declarators;
mod heads;
mod joining;
mod marks;
mod moves;
mod wants;
mod words;

pub use acting::act;
pub use attaching::attached;
pub use begins::{begin, begins_type};
pub use joining::{Infix, join};
pub use marks::is_close_paren;
pub use moves::{After, Begin, Join, Joined, Move};
pub use wants::{binds, declares, hears, wanted};
pub use words::pushed;
