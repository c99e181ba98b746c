// Laws of the definitions in `specs/`. Each function does nothing; its contract is the law.
ghost use Rattle.p9_lang.specs.LayoutExamples.{Agreements, Layouts, WordOperations};
ghost use Rattle.p9_lang.specs.Laws.{AgreementIsDecided, LayoutIsThatOfMembers, LayoutsStay, MembersArePlaced};
ghost use Rattle.p9_lang.specs.RefusedFiles.{Refusals};
ghost use Rattle.p9_lang.specs.TypedFiles.{TypedFiles};
ghost use Rattle.p9_lang.specs.TypingLaws.{EachNodeIsTyped, SizesStay, StructuresEnd};

/// Sizes and alignments of structures, unions and arrays; members by their names, and through
/// unnamed substructures.
#[tactic(auto, using(crate::proofs::Examples::layouts))]
pub fn layout_examples()
    ensures { Layouts }
{}

/// Division, shifts, comparisons and narrowing of words.
#[tactic(auto, using(crate::proofs::Examples::word_operations))]
pub fn word_examples()
    ensures { WordOperations }
{}

/// A list's structure agrees with that of another module, and doesn't where a member is renamed.
#[tactic(auto, using(crate::proofs::Examples::agreements))]
pub fn agreement_examples()
    ensures { Agreements }
{}

/// Small files that break a rule each, with the node and the rule that are told.
#[tactic(auto, using(crate::proofs::Examples::refusals))]
pub fn refusals()
    ensures { Refusals }
{}

/// Small files that are typed: what nodes stand for, symbols in their order, and what initialisers
/// write first.
#[tactic(auto, using(crate::proofs::Examples::typed_files))]
pub fn typed_files()
    ensures { TypedFiles }
{}

/// Where no structure contains itself, the extent of each is that of its members.
#[tactic(auto, using(crate::proofs::Layouts::layout_is_that_of_members))]
pub fn layout_is_that_of_members()
    ensures { LayoutIsThatOfMembers }
{}

/// A complete type keeps its size and alignment when more structures and bodies come.
#[tactic(auto, using(crate::proofs::Layouts::layouts_stay))]
pub fn layouts_stay()
    ensures { LayoutsStay }
{}

/// Types that agree to the depth at which `agrees` looks agree to every depth.
#[tactic(auto, using(crate::proofs::Agreeing::agreement_is_decided))]
pub fn agreement_is_decided()
    ensures { AgreementIsDecided }
{}

/// A file that is typed has one type and one meaning for each of its nodes.
pub fn each_node_is_typed()
    ensures { EachNodeIsTyped }
{}

/// A type that is complete where a node is typed has the same size behind the node.
#[tactic(auto, using(crate::proofs::Counting::sizes_stay))]
pub fn sizes_stay()
    ensures { SizesStay }
{}

/// Members stand inside their structure, at multiples of their alignments; those of a structure one
/// behind the other, those of a union at its start.
pub fn members_are_placed()
    ensures { MembersArePlaced }
{}

/// No structure of a file that is typed contains itself.
#[tactic(auto, using(crate::proofs::Counting::structures_end))]
pub fn structures_end()
    ensures { StructuresEnd }
{}
