// What the answers of the objects' reader mean. Each function does nothing; its contract is the law.
ghost use Rattle.p9_object.specs.Laws.{ReadsWhatIsSpelled, ReadsOnlySpellings, BreaksAtFirst, TellsVersions};
ghost use Rattle.p9_object.specs.Examples.{SmallObjects};

/// The bytes of a module's object are read as that module, and no other bytes are read as a module.
pub fn objects_have_one_spelling()
    ensures read { ReadsWhatIsSpelled }
    ensures only { ReadsOnlySpellings }
{}

/// Bytes that are no object are refused at the first byte of the first field with which no object
/// goes on, at their number where they end inside an object, and at an object's length where bytes
/// follow it; or for their version, whose four bytes stand behind the magic.
pub fn faults_tell_the_first_break()
    ensures place { BreaksAtFirst }
    ensures version { TellsVersions }
{}

/// Two small objects: their bytes, and what is read of them cut at each byte, with a byte more, and with
/// another magic or version.
#[tactic(auto, using(crate::proofs::Examples::small_objects))]
pub fn small_objects()
    ensures { SmallObjects }
{}
