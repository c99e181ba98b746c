// The labels of a switch so far.
ghost use Rattle.std.specs.Prelude.{◌≡◌, [], ◌∷◌, ◌==◌, ◌||◌, ℕ, false, IfOk, OnOk};
ghost use Rattle.std.specs.List.{list_any};
ghost use Rattle.p9_lang.specs.Declaring.{is_case, is_default};
ghost use Rattle.p9_parts.specs.Told.{part_of};
ghost use Rattle.p9_parts.specs.Cases.{is_given};

use crate::part::Part;
use indexmap::IndexSet;
use p9_base::NoMemory;
use std::alloc::Global;

/// The words of case labels, and whether there is a default label.
#[derive(Drop)]
pub(crate) struct Labels {
    cases: IndexSet<u32>,
    pub(crate) has_default: bool,
}

fn insert(cases: &mut IndexSet<u32>, word: u32) -> Result<(), NoMemory>
    ensures { OnOk result ((asked : ℕ) → is_given cases.new.keys asked ≡ (is_given cases.old.keys asked || (asked == word))) }
{
    cases.insert(word)?;
    Ok(())
}

fn contains(cases: &IndexSet<u32>, word: u32) -> bool
    ensures { result ≡ is_given cases.now.keys word }
{
    cases.contains(&word)
}

impl Labels {
    pub(crate) fn new(alloc: Global) -> Labels
        ensures cases { (word : ℕ) → is_given result.cases.keys word ≡ false }
        ensures default { result.has_default ≡ false }
    {
        Labels {
            cases: IndexSet::new(alloc),
            has_default: false,
        }
    }

    pub(crate) fn has_case(&self, word: u32) -> bool
        ensures { result ≡ is_given self.now.cases.keys word }
    {
        contains(&self.cases, word)
    }

    /// With one part more.
    pub(crate) fn with(self, part: &Part) -> Result<Labels, NoMemory>
        ensures cases { IfOk result (λ labels. (word : ℕ) → is_given labels.cases.keys word
            ≡ (is_given self.cases.keys word || list_any (is_case word) (part_of part.now ∷ []))) }
        ensures default { IfOk result (λ labels. labels.has_default
            ≡ (self.has_default || list_any is_default (part_of part.now ∷ []))) }
    {
        let Labels {
            mut cases,
            has_default,
        } = self;
        match part {
            Part::CaseLabel(word) => {
                insert(&mut cases, *word)?;
                Ok(Labels { cases, has_default })
            }
            Part::DefaultLabel => Ok(Labels {
                cases,
                has_default: true,
            }),
            Part::Value(_)
            | Part::Declarator(_)
            | Part::Object { .. }
            | Part::Members(_)
            | Part::Enumerator { .. }
            | Part::Parameter(_)
            | Part::NamedType(_)
            | Part::Braced(_)
            | Part::Filled(_)
            | Part::Statement => Ok(Labels { cases, has_default }),
        }
    }
}
