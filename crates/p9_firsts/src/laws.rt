// Laws of the definitions in `specs/`. Each function does nothing; its contract is the law.
ghost use Rattle.p9_firsts.specs.Typedefs.{TypedefsHaveLengths};
ghost use Rattle.p9_firsts.specs.Laws.{BodiesHaveMembers, ContentsAreSound, FirstsAreSound, KnownNamesAreFound, ObjectsAreComplete, TextsAreTyped, WritesAreSound};

/// What an initialiser writes first into an object of a complete type lies inside it: a number for an integer
/// or a null pointer, an address with a symbol for a pointer, or the bytes of a text.
#[tactic(auto, using(crate::proofs::Entries::first_writes_are_sound))]
pub fn writes_are_sound()
    ensures { WritesAreSound }
{}

/// So are the first contents of all objects of a module.
#[tactic(auto, using(crate::proofs::Symbols::contents_are_sound))]
pub fn contents_are_sound()
    ensures { ContentsAreSound }
{}

/// A structure of a file that is typed has at least one member where it has a body, so that each complete type
/// has at least one byte.
#[tactic(auto, using(crate::proofs::Full::bodies_have_members))]
pub fn bodies_have_members()
    ensures { BodiesHaveMembers }
{}

/// A text of a file that is typed has the type of its bytes in the end: an array of as many and one more.
#[tactic(auto, using(crate::proofs::Texts::texts_are_typed))]
pub fn texts_are_typed()
    ensures { TextsAreTyped }
{}

/// While a file is typed, no name in scope stands for the type of an array without a length.
#[tactic(auto, using(crate::proofs::Closed::typedefs_have_lengths))]
pub fn typedefs_have_lengths()
    ensures { TypedefsHaveLengths }
{}

/// In the end, each object that is declared with an initialiser has a complete type.
#[tactic(auto, using(crate::proofs::Objects::objects_are_complete))]
pub fn objects_are_complete()
    ensures { ObjectsAreComplete }
{}

/// A name that the law of typed trees knows has a symbol.
#[tactic(auto, using(crate::proofs::Known::known_names_are_found))]
pub fn known_names_are_found()
    ensures { KnownNamesAreFound }
{}

/// The first contents of a typed module are as the law of typed trees asks, where its objects have the types
/// that their names have first, its texts have bytes and its names have symbols.
#[tactic(auto, using(crate::proofs::Files::firsts_are_sound))]
pub fn firsts_are_sound()
    ensures { FirstsAreSound }
{}
