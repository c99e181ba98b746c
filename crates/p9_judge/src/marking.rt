// Structures and unions that are marked as incomplete.
ghost use Rattle.std.specs.Prelude.{◌≡◌, ◌&&◌, ◌∷◌, [], not, reverse, IfOk, OnOk};
ghost use Rattle.p9_lang.specs.Files.{mark_tag, mark_tags};
ghost use Rattle.p9_lang.specs.Names.{is_among};
ghost use Rattle.p9_lang.specs.Scopes.{is_enumeration};
ghost use Rattle.p9_lang.specs.Types.{tags_of};
ghost use Rattle.p9_scopes.specs.Seen.{keyword_of, tag_name_of, tag_level_of};

use p9_base::NoMemory;
use p9_lang::{Tag, Tags};
use p9_scopes::{Keyword, Names, TagName};
use sqlite_items::Items;
use std::alloc::Global;

fn is_enumeration(keyword: Keyword) -> bool
    ensures { result ≡ is_enumeration (keyword_of keyword) }
{
    match keyword {
        Keyword::Struct | Keyword::Union => false,
        Keyword::Enum => true,
    }
}

fn is_marked(alloc: Global, marks: &Names, tag: &TagName) -> Result<bool, NoMemory>
    ensures { IfOk result (λ marked. marked
        ≡ (is_among marks.now tag.now.name && not (is_enumeration (keyword_of tag.now.keyword)))) }
{
    let has = marks.has(alloc, &tag.name)?;
    if has {
        return Ok(!is_enumeration(tag.keyword));
    }
    Ok(false)
}

#[tactic(auto, using(crate::proofs::Marks::marked_there, crate::proofs::Marks::marked_nowhere))]
fn mark(tags: &mut Vec<Tag>, at: usize)
    ensures { tags_of tags.new.items ≡ mark_tag at (tags_of tags.old.items) }
{
    if at < tags.len() {
        tags[at].marked = true;
    }
}

fn list_of(alloc: Global, tags: Tags) -> Result<Vec<Tag>, NoMemory>
    ensures { IfOk result (λ list. list.items ≡ tags.list) }
{
    let Tags { list: mut left } = tags;
    let mut list = Vec::new(alloc);
    'tags: while let Some(tag) = left.pop() {
        list.push(tag)?;
    }
    list.reverse();
    Ok(list)
}

// The structure or union of a tag is marked, if the tag has one of these names.
fn mark_named(
    alloc: Global,
    marks: &Names,
    named: &TagName,
    tags: &mut Vec<Tag>,
) -> Result<(), NoMemory>
    ensures { OnOk result (tags_of tags.new.items
        ≡ mark_tags marks.now (tag_name_of named.now ∷ []) (tags_of tags.old.items)) }
{
    if is_marked(alloc, marks, named)? {
        mark(tags, named.number as usize);
    }
    Ok(())
}

/// The structures and unions, of which those are marked that have one of these names at this level.
pub(crate) fn mark_tags(
    alloc: Global,
    marks: &Names,
    level: &[TagName],
    tags: Tags,
) -> Result<Tags, NoMemory>
    ensures { IfOk result (λ marked. tags_of marked.list
        ≡ mark_tags marks.now (tag_level_of (reverse level.now)) (tags_of tags.list)) }
{
    let mut list = list_of(alloc, tags)?;
    let mut rest = level;
    'tags: while let [named, after @ ..] = rest {
        mark_named(alloc, marks, named, &mut list)?;
        rest = after;
    }
    Ok(Tags {
        list: Items::from_vec(list),
    })
}
