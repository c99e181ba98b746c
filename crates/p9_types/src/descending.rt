// The levels of unnamed structures and unions within a structure or union.
ghost use Rattle.std.specs.Prelude.{◌≡◌, ◌+◌, ◌||◌, ℕ, [], ◌∷◌, OnOk, IfOk, MatchOption};
ghost use Rattle.std.specs.List.{flat_map};
ghost use Rattle.p9_lang.specs.Names.{is_nameless};
ghost use Rattle.p9_lang.specs.Types.{tags_of};
ghost use Rattle.p9_lang.specs.TagRules.{NoneContainsItself};
ghost use Rattle.p9_lang.specs.Members.{unnamed_part};
ghost use Rattle.p9_types.specs.Told.{IsSound};
ghost use Rattle.p9_types.specs.Offsets.{cut_unnamed, cut_inner};
ghost use Rattle.p9_types.specs.Levels.{Adds, entering, unmet};
ghost use Rattle.p9_types.specs.Standings.{placing_of, all_placed, part_of, spread, spread_entries, stands_in, met_by};

use crate::head::number_of;
use crate::known::KnownTags;
use crate::level::{MetTags, NextLevel, Standing};
use crate::offsets::moved;
use crate::placing::{Placing, placed_members};
use p9_base::NoMemory;
use p9_lang::{Ident, Tag};
use std::alloc::Global;

#[tactic(auto, using(crate::proofs::Unnamed::nameless_by_length))]
fn is_nameless(name: &Ident) -> bool
    ensures { result ≡ is_nameless name.now }
{
    name.list.is_empty()
}

// The unnamed structure or union that a member is.
fn unnamed_tag(placing: Placing) -> Option<u32>
    ensures { MatchOption result
        ((o : ℕ) → unnamed_part o (placing_of placing.entry) ≡ [])
        (λ tag. (o : ℕ) → unnamed_part o (placing_of placing.entry)
        ≡ record { offset = o + placing.entry.offset; tag = tag } ∷ []) }
{
    if is_nameless(&placing.member.name) {
        number_of(&placing.member.ty)
    } else {
        None
    }
}

fn add_member(
    next: &mut NextLevel,
    met: &MetTags,
    placing: Placing,
    standing: Standing,
) -> Result<(), NoMemory>
    ensures { OnOk result (Adds (spread_entries next.old.places.entries)
        (entering standing.several (met_by met.now) (cut_unnamed standing.offset (placing_of placing.entry)))
        (spread_entries next.new.places.entries)) }
{
    match unnamed_tag(placing) {
        None => Ok(()),
        Some(tag) => {
            if met.has(tag) {
                return Ok(());
            }
            next.add(Standing {
                tag,
                offset: moved(standing.offset, placing.offset),
                several: standing.several,
            })?;
            Ok(())
        }
    }
}

fn add_members(
    next: &mut NextLevel,
    met: &MetTags,
    placings: &[Placing],
    standing: Standing,
) -> Result<(), NoMemory>
    ensures { OnOk result (Adds (spread_entries next.old.places.entries)
        (entering standing.several (met_by met.now) (flat_map (cut_unnamed standing.offset) (all_placed placings.now)))
        (spread_entries next.new.places.entries)) }
{
    let mut rest = placings;
    'placings: while let [placing, after @ ..] = rest {
        add_member(next, met, *placing, standing)?;
        rest = after;
    }
    Ok(())
}

// Adds the unnamed structures and unions that stand directly in one.
fn enter(
    alloc: Global,
    next: &mut NextLevel,
    known: &mut KnownTags,
    met: &MetTags,
    standing: Standing,
    tags: &[Tag],
) -> Result<(), NoMemory>
    requires ends { NoneContainsItself (tags_of tags.now) }
    requires sound { IsSound (tags_of tags.now) known.old.map.entries }
    ensures sound { OnOk result (IsSound (tags_of tags.now) known.new.map.entries) }
    ensures adds { OnOk result (Adds (spread_entries next.old.places.entries)
        (entering standing.several (met_by met.now) (cut_inner (tags_of tags.now) (part_of standing)))
        (spread_entries next.new.places.entries)) }
{
    let placings = placed_members(alloc, known, standing.tag, tags)?;
    add_members(next, met, placings.as_slice(), standing)?;
    Ok(())
}

/// The next level, without what this one or an earlier one has.
pub(crate) fn descend(
    alloc: Global,
    known: &mut KnownTags,
    met: &mut MetTags,
    level: &[Standing],
    tags: &[Tag],
) -> Result<Vec<Standing>, NoMemory>
    requires ends { NoneContainsItself (tags_of tags.now) }
    requires sound { IsSound (tags_of tags.now) known.old.map.entries }
    ensures sound { OnOk result (IsSound (tags_of tags.now) known.new.map.entries) }
    ensures met { OnOk result ((i : ℕ) → met_by met.new i ≡ (stands_in i level.now || met_by met.old i)) }
    ensures level { IfOk result (λ next. Adds []
        (unmet (met_by met.new) (flat_map (cut_inner (tags_of tags.now)) (spread level.now)))
        (spread next.items)) }
{
    met.meet_all(level)?;
    let mut next = NextLevel::new(alloc);
    let mut rest = level;
    'standings: while let [standing, after @ ..] = rest {
        enter(alloc, &mut next, known, met, *standing, tags)?;
        rest = after;
    }
    let standings = next.into_standings(alloc)?;
    Ok(standings)
}
