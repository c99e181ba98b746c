// Laws of the definitions in `specs/`. Each function does nothing; its contract is the law.
ghost use Rattle.p9_known.specs.Statics.{TypedStaticsAreFound};
ghost use Rattle.p9_known.specs.Laws.{ItemsNameIntegers, KnownRowsAreFound};

/// In a row that is known all names and texts that stand for objects and functions have symbols.
#[tactic(auto, using(crate::proofs::Found::known_rows_are_found))]
pub fn known_rows_are_found()
    ensures { KnownRowsAreFound }
{}

/// Each text, and each static of a block that a name stands for, has a symbol.
#[tactic(auto, using(crate::proofs::Statics::typed_statics_are_found))]
pub fn typed_statics_are_found()
    ensures { TypedStaticsAreFound }
{}

/// In a file whose functions are items, a name that stands for an enumeration constant has an integer type.
#[tactic(auto, using(crate::proofs::Integers::items_name_integers))]
pub fn items_name_integers()
    ensures { ItemsNameIntegers }
{}
