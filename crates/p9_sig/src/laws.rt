// Laws of the definitions in `specs/`. Each function does nothing; its contract is the law.
ghost use Rattle.p9_sig.specs.Examples.{Texts};
ghost use Rattle.p9_sig.specs.Laws.{TextsTellTypes, TypesHaveTexts};

/// Over valid structures each type has a text, however long.
pub fn types_have_texts()
    ensures { TypesHaveTexts }
{}

/// Types have one text exactly where they agree to every depth.
pub fn texts_tell_types()
    ensures { TextsTellTypes }
{}

/// The texts of small types, computed: structures that name each other in either order, marked
/// ones, ones without a body or a tag, unions, functions and arrays.
#[tactic(auto, using(crate::proofs::Examples::texts))]
pub fn text_examples()
    ensures { Texts }
{}
