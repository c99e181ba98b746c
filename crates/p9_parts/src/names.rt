// The names that stand in a node so far.
ghost use Rattle.std.specs.Prelude.{◌≡◌, [], ◌∷◌, ◌++◌, map, IfOk};
ghost use Rattle.p9_lang.specs.Types.{members_of};
ghost use Rattle.p9_lang.specs.Declarators as declarators;
ghost use Rattle.p9_lang.specs.Parts.{name_in, member_names, object_names};
ghost use Rattle.p9_declare.specs.Told.{steps_of};
ghost use Rattle.p9_parts.specs.Told.{part_of};

use crate::part::Part;
use p9_base::NoMemory;
use p9_declare::{Step, name_of};
use p9_lang::{Ident, Member};
use p9_scopes::Names;
use std::alloc::Global;

/// The names of members in braces, and those of objects.
#[derive(Drop)]
pub(crate) struct PartNames {
    pub(crate) members: Names,
    pub(crate) objects: Names,
}

// The name that a declarator declares, which may be none.
fn copied_name(alloc: Global, steps: &[Step]) -> Result<Ident, NoMemory>
    ensures { IfOk result (λ name. name ≡ name_in (declarators.name_of (steps_of steps.now))) }
{
    match name_of(steps) {
        Some(found) => {
            let name = found.name.copied(alloc)?;
            Ok(name)
        }
        None => Ok(Ident {
            list: Vec::new(alloc),
        }),
    }
}

fn with_members(alloc: Global, names: Names, members: &[Member]) -> Result<Names, NoMemory>
    ensures { IfOk result (λ more. more ≡ names ++ map (λ m. m.name) (members_of members.now)) }
{
    let mut so_far = names;
    let mut rest = members;
    'members: while let [member, after @ ..] = rest {
        so_far = so_far.with(alloc, member.name.copied(alloc)?)?;
        rest = after;
    }
    Ok(so_far)
}

impl PartNames {
    pub(crate) fn new(alloc: Global) -> PartNames
        ensures members { result.members ≡ [] }
        ensures objects { result.objects ≡ [] }
    {
        PartNames {
            members: Names::new(alloc),
            objects: Names::new(alloc),
        }
    }

    /// With the names that one part more brings.
    pub(crate) fn with(self, alloc: Global, part: &Part) -> Result<PartNames, NoMemory>
        ensures members { IfOk result (λ names. names.members ≡ self.members ++ member_names (part_of part.now ∷ [])) }
        ensures objects { IfOk result (λ names. names.objects ≡ self.objects ++ object_names (part_of part.now ∷ [])) }
    {
        let PartNames { members, objects } = self;
        match part {
            Part::Members(more) => {
                let members = with_members(alloc, members, more.as_slice())?;
                Ok(PartNames { members, objects })
            }
            Part::Object { steps, .. } => {
                let name = copied_name(alloc, steps.as_slice())?;
                let objects = objects.with(alloc, name)?;
                Ok(PartNames { members, objects })
            }
            Part::Value(_)
            | Part::Declarator(_)
            | Part::Enumerator { .. }
            | Part::Parameter(_)
            | Part::NamedType(_)
            | Part::Braced(_)
            | Part::Filled(_)
            | Part::CaseLabel(_)
            | Part::DefaultLabel
            | Part::Statement => Ok(PartNames { members, objects }),
        }
    }
}
