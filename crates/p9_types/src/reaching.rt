// The extents of the structures that an object of a type contains, from the innermost outwards.
ghost use Rattle.std.specs.Prelude.{◌≡◌, ◌∷◌, ◌++◌, [], ℕ, OnOk, IfOk, IsTrue, Some, None, MatchOption, slice_get};
ghost use Rattle.p9_lang.specs.Types.{type_of, members_of, tag_of, tags_of};
ghost use Rattle.p9_lang.specs.TagRules.{NoneContainsItself};
ghost use Rattle.p9_lang.specs.Layout.{body_extent, layout};
ghost use Rattle.p9_types.specs.Capping.{Alike};
ghost use Rattle.p9_types.specs.Reaching.{inner_of, inner_of_members, inner_tags};
ghost use Rattle.p9_types.specs.Told.{IsSound, is_known, told_option, known_extent};
ghost use Rattle.p9_types.specs.declared.reaching.Task.TheVariants.{Finish};
ghost use Rattle.p9_types.specs.Tasks.{AreAll, Awaits, Advances, visits};

use crate::capped::Capped;
use crate::elements::tag_in;
use crate::known::KnownTags;
use p9_base::NoMemory;
use p9_lang::{CType, Member, Tag};
use std::alloc::Global;

/// To look at a structure, or to take its extent once those of the structures in it are known.
#[derive(Clone, Copy)]
pub(crate) enum Task {
    Visit(u32),
    Finish(u32),
}

/// The structure or union with this number.
pub fn tag_at(tags: &[Tag], number: u32) -> Option<&Tag>
    ensures { MatchOption result (slice_get (tags_of tags.now) number ≡ None) (λ tag.
        slice_get (tags_of tags.now) number ≡ Some (tag_of tag.now)) }
{
    tags.get(number as usize)
}

fn push_visit(tasks: &mut Vec<Task>, ty: &CType) -> Result<(), NoMemory>
    ensures { OnOk result (tasks.new.items ≡ tasks.old.items ++ visits (inner_of (type_of ty.now))) }
{
    if let Some(number) = tag_in(ty) {
        tasks.push(Task::Visit(number))?;
    }
    Ok(())
}

fn push_visits(tasks: &mut Vec<Task>, members: &[Member]) -> Result<(), NoMemory>
    ensures { OnOk result (tasks.new.items
        ≡ tasks.old.items ++ visits (inner_of_members (members_of members.now))) }
{
    let mut rest = members;
    'members: while let [member, after @ ..] = rest {
        push_visit(tasks, &member.ty)?;
        rest = after;
    }
    Ok(())
}

fn enter(tasks: &mut Vec<Task>, number: u32, tags: &[Tag]) -> Result<(), NoMemory>
    ensures { OnOk result (tasks.new.items
        ≡ tasks.old.items ++ (Finish number ∷ visits (inner_tags (slice_get (tags_of tags.now) number)))) }
{
    tasks.push(Task::Finish(number))?;
    if let Some(tag) = tag_at(tags, number) {
        if let Some(members) = &tag.members {
            push_visits(tasks, members.as_slice())?;
        }
    }
    Ok(())
}

fn extent_at(known: &KnownTags, number: u32, tags: &[Tag]) -> Option<Capped>
    ensures { Alike (told_option result)
        (body_extent (known_extent known.now.map.entries) (slice_get (tags_of tags.now) number)) }
{
    match tag_at(tags, number) {
        Some(tag) => known.extent_of_body(tag),
        None => None,
    }
}

fn finish(known: &mut KnownTags, number: u32, tags: &[Tag]) -> Result<(), NoMemory>
    requires ends { NoneContainsItself (tags_of tags.now) }
    requires sound { IsSound (tags_of tags.now) known.old.map.entries }
    requires inner { AreAll (λ i. IsTrue (is_known known.old.map.entries i))
        (inner_tags (slice_get (tags_of tags.now) number)) }
    ensures sound { OnOk result (IsSound (tags_of tags.now) known.new.map.entries) }
    ensures known { OnOk result (IsTrue (is_known known.new.map.entries number)) }
    ensures keeps { OnOk result ((i : ℕ) → IsTrue (is_known known.old.map.entries i)
        → IsTrue (is_known known.new.map.entries i)) }
{
    let extent = extent_at(known, number, tags);
    known.learn(number, extent)?;
    Ok(())
}

fn take_task(
    known: &mut KnownTags,
    tasks: &mut Vec<Task>,
    task: Task,
    tags: &[Tag],
) -> Result<(), NoMemory>
    requires ends { NoneContainsItself (tags_of tags.now) }
    requires sound { IsSound (tags_of tags.now) known.old.map.entries }
    requires awaits { Awaits (tags_of tags.now) known.old.map.entries (tasks.old.items ++ task ∷ []) }
    ensures { OnOk result (Advances (tags_of tags.now) known.old.map.entries (tasks.old.items ++ task ∷ [])
        known.new.map.entries tasks.new.items) }
{
    match task {
        Task::Visit(number) => {
            if known.is_known(number) {
                return Ok(());
            }
            enter(tasks, number, tags)?;
            Ok(())
        }
        Task::Finish(number) => {
            finish(known, number, tags)?;
            Ok(())
        }
    }
}

/// Learns the extents of the structures that an object of the type is or contains.
fn learn_within(
    alloc: Global,
    known: &mut KnownTags,
    ty: &CType,
    tags: &[Tag],
) -> Result<(), NoMemory>
    requires ends { NoneContainsItself (tags_of tags.now) }
    requires sound { IsSound (tags_of tags.now) known.old.map.entries }
    ensures sound { OnOk result (IsSound (tags_of tags.now) known.new.map.entries) }
    ensures known { OnOk result (AreAll (λ i. IsTrue (is_known known.new.map.entries i))
        (inner_of (type_of ty.now))) }
{
    let mut tasks = Vec::new(alloc);
    push_visit(&mut tasks, ty)?;
    'inwards: while let Some(task) = tasks.pop() {
        take_task(known, &mut tasks, task, tags)?;
    }
    Ok(())
}

/// The extent of a type, if it is complete. What it needs of structures is learnt.
pub(crate) fn extent_within(
    alloc: Global,
    known: &mut KnownTags,
    ty: &CType,
    tags: &[Tag],
) -> Result<Option<Capped>, NoMemory>
    requires ends { NoneContainsItself (tags_of tags.now) }
    requires sound { IsSound (tags_of tags.now) known.old.map.entries }
    ensures sound { OnOk result (IsSound (tags_of tags.now) known.new.map.entries) }
    ensures extent { IfOk result (λ e.
        Alike (told_option e) (layout (tags_of tags.now) (type_of ty.now))) }
{
    learn_within(alloc, known, ty, tags)?;
    Ok(known.extent_of(ty))
}
