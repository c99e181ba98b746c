// Laws of the definitions in `specs/`. Each function does nothing; its contract is the law.
ghost use Rattle.p9_formed.specs.Laws.{WellFormedFilesAreMade, WellFormedFilesAreOrderly, WellFormedFilesHoldFunctions};

/// In a well-formed file numbers, characters and names have no parts, and an `op=` has one of its ten operators.
#[tactic(auto, using(crate::proofs::Made::well_formed_files_are_made))]
pub fn well_formed_files_are_made()
    ensures { WellFormedFilesAreMade }
{}

/// In a well-formed file a function's block stands last, directly behind its declarator, and declarations stand
/// in blocks and in statements only.
#[tactic(auto, using(crate::proofs::Orderly::well_formed_files_are_orderly))]
pub fn well_formed_files_are_orderly()
    ensures { WellFormedFilesAreOrderly }
{}

/// In a well-formed file functions are items: none stands within another item.
#[tactic(auto, using(crate::proofs::Functions::well_formed_files_hold_functions))]
pub fn well_formed_files_hold_functions()
    ensures { WellFormedFilesHoldFunctions }
{}
