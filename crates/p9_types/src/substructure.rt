// Unnamed substructures by their numbers.
ghost use Rattle.std.specs.Prelude.{◌≡◌, ◌≢◌, IfOk};
ghost use Rattle.std.specs.List.{flat_map};
ghost use Rattle.p9_lang.specs.Types.{tags_of};
ghost use Rattle.p9_lang.specs.TagRules.{NoneContainsItself};
ghost use Rattle.p9_lang.specs.Members.{find_substructure};
ghost use Rattle.p9_types.specs.Offsets.{kept_offset, kept_if};
ghost use Rattle.p9_types.specs.Levels.{tally};
ghost use Rattle.p9_types.specs.Standings.{copies_of, spread};
ghost use Rattle.p9_types.specs.Sightings.{told_sought, sought_map};

use crate::descending::descend;
use crate::known::KnownTags;
use crate::level::{MetTags, Standing};
use crate::offsets::kept_offset;
use crate::sought::Sought;
use p9_base::NoMemory;
use p9_lang::{Tag, Tags};
use std::alloc::Global;

fn standing_here(standing: Standing, tag: u32) -> Sought<Option<u32>>
    ensures { told_sought result ≡ tally (flat_map (kept_if tag) (copies_of standing)) }
{
    if standing.tag == tag {
        Sought::One(kept_offset(standing.offset)).repeated(standing.several)
    } else {
        Sought::Nowhere
    }
}

// Where a structure or union stands at a level, if within the limit.
fn standing_at(level: &[Standing], tag: u32) -> Sought<Option<u32>>
    ensures { told_sought result ≡ tally (flat_map (kept_if tag) (spread level.now)) }
{
    let mut found = Sought::Nowhere;
    let mut rest = level;
    'standings: while let [standing, after @ ..] = rest {
        found = found.and(standing_here(*standing, tag));
        rest = after;
    }
    found
}

// The substructure, level by level.
fn find_below(
    alloc: Global,
    tags: &[Tag],
    outer: u32,
    inner: u32,
) -> Result<Sought<Option<u32>>, NoMemory>
    requires ends { NoneContainsItself (tags_of tags.now) }
    requires apart { outer ≢ inner }
    ensures { IfOk result (λ found. told_sought found
        ≡ sought_map kept_offset (find_substructure (tags_of tags.now) outer inner)) }
{
    let mut known = KnownTags::new(alloc);
    let mut met = MetTags::new(alloc);
    let mut level = Vec::new(alloc);
    level.push(Standing {
        tag: outer,
        offset: 0,
        several: false,
    })?;
    let mut depth = tags.len();
    'levels: while depth > 0 {
        if level.is_empty() {
            return Ok(Sought::Nowhere);
        }
        level = descend(alloc, &mut known, &mut met, level.as_slice(), tags)?;
        let found = standing_at(level.as_slice(), inner);
        match found {
            Sought::Nowhere => {}
            Sought::One(_) | Sought::Several => return Ok(found),
        }
        depth -= 1;
    }
    Ok(Sought::Nowhere)
}

/// Where a structure or union stands within another one as an unnamed substructure, at the least level
/// that has it.
pub(crate) fn find_substructure(
    alloc: Global,
    tags: &Tags,
    outer: u32,
    inner: u32,
) -> Result<Sought<Option<u32>>, NoMemory>
    requires ends { NoneContainsItself (tags_of tags.now.list) }
    requires apart { outer ≢ inner }
    ensures { IfOk result (λ found. told_sought found
        ≡ sought_map kept_offset (find_substructure (tags_of tags.now.list) outer inner)) }
{
    let found = find_below(alloc, tags.list.as_slice(), outer, inner)?;
    Ok(found)
}
