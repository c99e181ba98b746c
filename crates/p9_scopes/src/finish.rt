// What typing leaves.
ghost use Rattle.std.specs.Prelude.{◌≡◌};
ghost use Rattle.p9_lang.specs.Types.{types_of, all_meant, tags_of};
ghost use Rattle.p9_lang.specs.Scopes.{innermost};
ghost use Rattle.p9_scopes.specs.Seen.{level_of, levels_of, tag_level_of, tag_levels_of};
ghost use Rattle.p9_scopes.specs.State.{known_of};

use crate::known::Known;
use crate::level::NameLevel;
use crate::pile::Pile;
use crate::tag_level::TagLevel;
use p9_lang::{Bind, CType, Tags};
use sqlite_items::Items;
use std::alloc::Global;

/// What is known when typing has ended: the types and meanings of the nodes, the names and tags of
/// the innermost level, and the structures and unions.
#[derive(Drop)]
pub struct Finished {
    pub types: Items<CType>,
    pub binds: Items<Bind>,
    pub names: NameLevel,
    pub tag_names: TagLevel,
    pub tags: Tags,
}

impl Known {
    /// What is left when typing has ended.
    pub fn finish(self, alloc: Global) -> Finished
        ensures types { types_of result.types ≡ (known_of self).types }
        ensures means { all_meant result.binds ≡ (known_of self).means }
        ensures names { level_of result.names ≡ innermost (known_of self).names }
        ensures tag_names { tag_level_of result.tag_names ≡ innermost (known_of self).tag_names }
        ensures tags { tags_of result.tags.list ≡ (known_of self).tags }
    {
        let Known {
            types,
            binds,
            mut names,
            mut tag_names,
            tags,
            statics: _,
            autos: _,
            bodies: _,
        } = self;
        Finished {
            types,
            binds,
            names: last_names(alloc, &mut names),
            tag_names: last_tags(alloc, &mut tag_names),
            tags: tags.into_tags(),
        }
    }
}

fn last_names(alloc: Global, names: &mut Pile<NameLevel>) -> NameLevel
    ensures { level_of result ≡ innermost (levels_of names.old) }
{
    match names.pop() {
        Some(level) => level,
        None => NameLevel::new(alloc),
    }
}

fn last_tags(alloc: Global, tag_names: &mut Pile<TagLevel>) -> TagLevel
    ensures { tag_level_of result ≡ innermost (tag_levels_of tag_names.old) }
{
    match tag_names.pop() {
        Some(level) => level,
        None => TagLevel::new(alloc),
    }
}
