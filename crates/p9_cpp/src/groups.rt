// Groups of lines between `#ifdef` or `#ifndef` and `#endif`.
ghost use Rattle.std.specs.Prelude.{◌≡◌, IfOk};
ghost use Rattle.p9_cpp.specs.Groups.{is_live, turned, closed, IsChanged};

use crate::pile::Pile;
use p9_base::NoMemory;

/// A group that is open. In one that is passed over, those inside are nested, and nothing is asked of
/// their conditions.
#[derive(Clone, Copy, Debug, PartialEq, Eq, Drop)]
pub enum Group {
    Open { live: bool, turned: bool },
    Nested,
}

/// Whether lines count inside the groups, of which the innermost decides.
pub fn is_live(groups: &Pile<Group>) -> bool
    ensures { result ≡ is_live groups.now }
{
    match groups.first() {
        None => true,
        Some(Group::Open { live, turned: _ }) => *live,
        Some(Group::Nested) => false,
    }
}

/// At an `#else`; `false` where it has no place, or is wrong.
pub fn turn(groups: &mut Pile<Group>, alone: bool) -> Result<bool, NoMemory>
    ensures { IsChanged result (turned alone groups.old) groups.new }
{
    match groups.pop() {
        None => Ok(false),
        Some(Group::Open { live, turned }) => {
            if turned {
                return Ok(false);
            }
            if !alone {
                return Ok(false);
            }
            groups.push(Group::Open {
                live: !live,
                turned: true,
            })?;
            Ok(true)
        }
        Some(Group::Nested) => {
            groups.push(Group::Nested)?;
            Ok(true)
        }
    }
}

/// At an `#endif`; `false` where it has no place, or is wrong.
pub fn close(groups: &mut Pile<Group>, alone: bool) -> Result<bool, NoMemory>
    ensures { IsChanged result (closed alone groups.old) groups.new }
{
    match groups.pop() {
        None => Ok(false),
        Some(Group::Open { live: _, turned: _ }) => Ok(alone),
        Some(Group::Nested) => Ok(true),
    }
}
