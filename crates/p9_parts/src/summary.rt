// What is asked of the parts of a node, kept up so that no part is looked at twice.
ghost use Rattle.std.specs.Prelude.{◌≡◌, [], ◌∷◌, ◌++◌, List, length, IfOk};
ghost use Rattle.p9_lang.specs.Parts as specs;
ghost use Rattle.p9_parts.specs.Told.{part_of};
ghost use Rattle.p9_parts.specs.Summed.{object_with, IsSummary};

use crate::counts::Counts;
use crate::labels::Labels;
use crate::names::PartNames;
use crate::part::Part;
use p9_base::NoMemory;
use std::alloc::Global;

/// What is asked of a list of parts, with the index of the last object among them.
#[derive(Drop)]
pub(crate) struct Summary {
    pub(crate) object: Option<usize>,
    pub(crate) names: PartNames,
    pub(crate) counts: Counts,
    pub(crate) labels: Labels,
}

// The index of the last object, where the last part has this index.
fn object_with(before: Option<usize>, at: usize, part: &Part) -> Option<usize>
    ensures { result ≡ object_with before at (part_of part.now) }
{
    match part {
        Part::Object { .. } => Some(at),
        Part::Value(_)
        | Part::Declarator(_)
        | Part::Members(_)
        | Part::Enumerator { .. }
        | Part::Parameter(_)
        | Part::NamedType(_)
        | Part::Braced(_)
        | Part::Filled(_)
        | Part::CaseLabel(_)
        | Part::DefaultLabel
        | Part::Statement => before,
    }
}

impl Summary {
    /// Of no parts.
    pub(crate) fn new(alloc: Global) -> Summary
        ensures { IsSummary result [] }
    {
        Summary {
            object: None,
            names: PartNames::new(alloc),
            counts: Counts::new(),
            labels: Labels::new(alloc),
        }
    }

    /// Of these parts and one more, which stands behind so many.
    pub(crate) fn with(self, alloc: Global, at: usize, part: &Part) -> Result<Summary, NoMemory>
        ensures { IfOk result (λ summary. (list : List specs.Part) → at ≡ length list
            → IsSummary self list → IsSummary summary (list ++ part_of part.now ∷ [])) }
    {
        let Summary {
            object,
            names,
            counts,
            labels,
        } = self;
        let object = object_with(object, at, part);
        let names = names.with(alloc, part)?;
        let counts = counts.with(part)?;
        let labels = labels.with(part)?;
        Ok(Summary {
            object,
            names,
            counts,
            labels,
        })
    }
}
