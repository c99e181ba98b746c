// Tags that specs name.
ghost use Rattle.std.specs.Prelude.{◌≡◌, ◌&&◌, ◌++◌, reverse, not, length, IfOk, OnOk, if◌then◌else◌};
ghost use Rattle.std.specs.Option.{option_copied};
ghost use Rattle.p9_lang.specs.Names.{is_nameless};
ghost use Rattle.p9_lang.specs.Rules.{Redeclared, breaks_if};
ghost use Rattle.p9_lang.specs.Scopes.{innermost, tag_in_level, tag_in_levels, same_keywords, new_tag, new_structure, known_tag, tag_from, tagged_as, newest};
ghost use Rattle.p9_scopes.specs.Seen.{keyword_of, tag_name_of, tag_in, tag_levels_of};
ghost use Rattle.p9_scopes.specs.State.{known_of};

use crate::known::Known;
use crate::tag::{Keyword, TagName};
use crate::tag_level::TagLevel;
use p9_base::NoMemory;
use p9_lang::Ident;
use std::alloc::Global;

/// What a spec's tag stands for: its number, and whether the tag has another body or keyword already.
#[derive(Clone, Copy, Drop)]
pub struct Tagging {
    pub number: u32,
    pub is_redeclared: bool,
}

fn same_keywords(a: Keyword, b: Keyword) -> bool
    ensures { result ≡ same_keywords (keyword_of a) (keyword_of b) }
{
    match (a, b) {
        (Keyword::Struct, Keyword::Struct)
        | (Keyword::Union, Keyword::Union)
        | (Keyword::Enum, Keyword::Enum) => true,
        (Keyword::Struct, Keyword::Union | Keyword::Enum)
        | (Keyword::Union, Keyword::Struct | Keyword::Enum)
        | (Keyword::Enum, Keyword::Struct | Keyword::Union) => false,
    }
}

// Whether a tag in scope is the one that a spec names.
fn is_meant(tag: &TagName, keyword: Keyword, has_body: bool) -> bool
    ensures { result ≡ (same_keywords (keyword_of tag.now.keyword) (keyword_of keyword) && not (has_body && tag.now.has_body)) }
{
    if has_body && tag.has_body {
        return false;
    }
    same_keywords(tag.keyword, keyword)
}

fn copied(alloc: Global, tag: &TagName) -> Result<TagName, NoMemory>
    ensures { IfOk result (λ copy. copy ≡ tag.now) }
{
    Ok(TagName {
        name: tag.name.copied(alloc)?,
        keyword: tag.keyword,
        number: tag.number,
        has_body: tag.has_body,
    })
}

#[tactic(auto, using(crate::proofs::Searching::tag_innermost, crate::proofs::Searching::tag_around))]
fn find_in<'a>(levels: &'a [TagLevel], name: &Ident) -> Option<&'a TagName>
    ensures { tag_in (option_copied result) ≡ tag_in_levels name.now (tag_levels_of (reverse levels.now)) }
{
    let mut rest = levels;
    'levels: while let Some((level, before)) = rest.split_last() {
        if let Some(tag) = level.newest(name) {
            return Some(tag);
        }
        rest = before;
    }
    None
}

fn find_last<'a>(levels: &'a [TagLevel], name: &Ident) -> Option<&'a TagName>
    ensures { tag_in (option_copied result) ≡ tag_in_level name.now (innermost (tag_levels_of (reverse levels.now))) }
{
    match levels.split_last() {
        Some((level, _)) => level.newest(name),
        None => None,
    }
}

impl Known {
    fn find_tag(&self, name: &Ident, has_body: bool) -> Option<&TagName>
        ensures { tag_in (option_copied result) ≡ (if has_body
            then tag_in_level name.now (innermost (known_of self.now).tag_names)
            else tag_in_levels name.now (known_of self.now).tag_names) }
    {
        if has_body {
            find_last(self.tag_names.as_slice(), name)
        } else {
            find_in(self.tag_names.as_slice(), name)
        }
    }

    fn declare_tag(&mut self, alloc: Global, tag: TagName) -> Result<(), NoMemory>
        ensures { OnOk result (known_of self.new
            ≡ record (known_of self.old) { tag_names = newest (tag_name_of tag) (known_of self.old).tag_names }) }
    {
        let level = match self.tag_names.pop() {
            Some(level) => level,
            None => TagLevel::new(alloc),
        };
        self.tag_names.push(level.declared(alloc, tag)?)?;
        Ok(())
    }

    #[tactic(auto, using(crate::proofs::Tables::tags_length))]
    fn next_tag(&self) -> Result<u32, NoMemory>
        ensures { IfOk result (λ n. n ≡ length (known_of self.now).tags) }
    {
        match u32::try_from(self.tags.tags().list.len()) {
            Ok(number) => Ok(number),
            Err(_) => Err(NoMemory),
        }
    }

    #[tactic(auto, using(crate::proofs::Tables::tags_end, crate::proofs::Tables::nothing_more))]
    fn add_structure(
        &mut self,
        alloc: Global,
        keyword: Keyword,
        name: &Ident,
    ) -> Result<(), NoMemory>
        ensures { OnOk result (known_of self.new
            ≡ record (known_of self.old) { tags = (known_of self.old).tags ++ new_structure (keyword_of keyword) name.now }) }
    {
        match keyword {
            Keyword::Struct => self.tags.add(false, name.copied(alloc)?),
            Keyword::Union => self.tags.add(true, name.copied(alloc)?),
            Keyword::Enum => Ok(()),
        }
    }

    // A tag of its own, in the innermost scope.
    fn add_tag(
        &mut self,
        alloc: Global,
        keyword: Keyword,
        name: &Ident,
        has_body: bool,
        is_redeclared: bool,
    ) -> Result<Tagging, NoMemory>
        ensures { IfOk result (λ t. new_tag (breaks_if is_redeclared (Redeclared name.now)) (keyword_of keyword) name.now has_body (known_of self.old)
            ≡ record { number = t.number; rules = breaks_if t.is_redeclared (Redeclared name.now); known = known_of self.new }) }
    {
        let number = self.next_tag()?;
        self.add_structure(alloc, keyword, name)?;
        self.declare_tag(
            alloc,
            TagName {
                name: name.copied(alloc)?,
                keyword,
                number,
                has_body,
            },
        )?;
        Ok(Tagging {
            number,
            is_redeclared,
        })
    }

    // A tag that is in scope.
    fn tag_again(&mut self, alloc: Global, tag: TagName, has_body: bool) -> Result<u32, NoMemory>
        ensures number { IfOk result (λ n. n ≡ tag.number) }
        ensures known { OnOk result (known_of self.new ≡ (known_tag (tag_name_of tag) has_body (known_of self.old)).known) }
    {
        let number = tag.number;
        if has_body {
            self.declare_tag(
                alloc,
                TagName {
                    name: tag.name,
                    keyword: tag.keyword,
                    number: tag.number,
                    has_body: true,
                },
            )?;
        }
        Ok(number)
    }

    /// The tag that a spec names, with braces or without.
    pub fn tagged_as(
        &mut self,
        alloc: Global,
        keyword: Keyword,
        name: &Ident,
        has_body: bool,
    ) -> Result<Tagging, NoMemory>
        ensures { IfOk result (λ t. tagged_as (keyword_of keyword) name.now has_body (known_of self.old)
            ≡ record { number = t.number; rules = breaks_if t.is_redeclared (Redeclared name.now); known = known_of self.new }) }
    {
        if is_nameless(name) {
            return self.add_tag(alloc, keyword, name, has_body, false);
        }
        let found = match self.find_tag(name, has_body) {
            Some(tag) => Some(copied(alloc, tag)?),
            None => None,
        };
        self.tag_from(alloc, found, keyword, name, has_body)
    }

    fn tag_from(
        &mut self,
        alloc: Global,
        found: Option<TagName>,
        keyword: Keyword,
        name: &Ident,
        has_body: bool,
    ) -> Result<Tagging, NoMemory>
        ensures { IfOk result (λ t. tag_from (tag_in found) (keyword_of keyword) name.now has_body (known_of self.old)
            ≡ record { number = t.number; rules = breaks_if t.is_redeclared (Redeclared name.now); known = known_of self.new }) }
    {
        match found {
            Some(tag) => {
                if is_meant(&tag, keyword, has_body) {
                    let number = self.tag_again(alloc, tag, has_body)?;
                    return Ok(Tagging {
                        number,
                        is_redeclared: false,
                    });
                }
                self.add_tag(alloc, keyword, name, has_body, true)
            }
            None => self.add_tag(alloc, keyword, name, has_body, false),
        }
    }
}

#[tactic(auto, using(crate::proofs::NodeLists::nameless_by_length))]
fn is_nameless(name: &Ident) -> bool
    ensures { result ≡ is_nameless name.now }
{
    name.list.is_empty()
}
