// Laws of the definitions, each the contract of a function with an empty body.
ghost use Rattle.p9_cpp.specs.Derivation.{Exact, OneResult};

/// The expansion, as a total function, is what its derivations give, with what they count.
pub fn expansion_is_exact()
    ensures { Exact }
{}

/// A list has at most one expansion.
pub fn expansion_is_one()
    ensures { OneResult }
{}
