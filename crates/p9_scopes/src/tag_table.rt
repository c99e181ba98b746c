// The structures and unions that are known.
ghost use Rattle.std.specs.Prelude.{◌≡◌, [], ◌∷◌, ◌++◌, true, false, None, IfOk, OnOk, OnErr, slice_get};
ghost use Rattle.p9_lang.specs.Types.{type_of, members_of, tags_of};
ghost use Rattle.p9_lang.specs.Scopes.{with_body};
ghost use Rattle.p9_lang.specs.TagRules.{NoneContainsItself};
ghost use Rattle.p9_lang.proofs.Bodies.{HasSize, HaveSizes};

use p9_base::NoMemory;
use p9_lang::{CType, Ident, Member, Tag, Tags};
use p9_types::{TypeFault, layout};
use sqlite_items::Items;
use std::alloc::Global;
use std::marker::Model;

/// Structures and unions, which contracts see as a list. Each that has a body has a size.
#[derive(Drop)]
pub(crate) struct TagTable {
    tags: Tags,
}

impl Model for TagTable {
    ghost use Rattle.std.specs.Prelude.{List};
    ghost use Rattle.p9_lang.specs.declared.types.Tag.{Tag};
    ghost use Rattle.p9_scopes.specs.Sound.{IsSound};
    ghost use Rattle.p9_lang.specs.contracts.types.CType as ctype;
    ghost use Rattle.std.specs.Coded.{codes};

    ghost Value = { List Tag };

    ghost coded = { Prim.hlevel (codes, ctype.the_row.coded) };

    ghost view = { λ t. t.tags.list };

    ghost invariant = { λ t. IsSound t.tags.list };
}

// Whether a type has a size.
fn has_size(alloc: Global, tags: &Tags, ty: &CType) -> Result<bool, NoMemory>
    requires { NoneContainsItself (tags_of tags.now.list) }
    ensures { IfOk result (λ has. has ≡ true → HasSize (tags_of tags.now.list) (type_of ty.now)) }
{
    match layout(alloc, ty, tags) {
        Ok(_) => Ok(true),
        Err(TypeFault::BadConstant) => Ok(true),
        Err(TypeFault::Incomplete) => Ok(false),
        Err(TypeFault::Memory) => Err(NoMemory),
    }
}

fn all_have_sizes(alloc: Global, tags: &Tags, members: &[Member]) -> Result<bool, NoMemory>
    requires { NoneContainsItself (tags_of tags.now.list) }
    ensures { IfOk result (λ has. has ≡ true → HaveSizes (tags_of tags.now.list) (members_of members.now)) }
{
    let mut rest = members;
    'members: while let [member, after @ ..] = rest {
        if !has_size(alloc, tags, &member.ty)? {
            return Ok(false);
        }
        rest = after;
    }
    Ok(true)
}

#[tactic(auto, using(crate::proofs::Tables::with_new_body, crate::proofs::Tables::with_old_body, crate::proofs::Tables::with_no_tag))]
fn put_body(
    alloc: Global,
    tags: &mut Tags,
    number: u32,
    members: Items<Member>,
) -> Result<(), NoMemory>
    ensures ok { OnOk result (tags_of tags.new.list
        ≡ with_body number (members_of members) (slice_get (tags_of tags.old.list) number) (tags_of tags.old.list)) }
    ensures err { OnErr result (tags.new.list ≡ tags.old.list) }
{
    let at = number as usize;
    match tags.list.get(at) {
        Some(tag) => {
            if tag.members.is_some() {
                return Ok(());
            }
            let with_body = Tag {
                is_union: tag.is_union,
                name: tag.name.copied(alloc)?,
                members: Some(members),
                marked: tag.marked,
            };
            tags.list.set(at, with_body);
            Ok(())
        }
        None => Ok(()),
    }
}

impl TagTable {
    #[tactic(auto, using(crate::proofs::Tables::first_sound))]
    pub(crate) fn new(alloc: Global) -> TagTable
        ensures { result ≡ [] }
    {
        TagTable {
            tags: Tags {
                list: Items::new(alloc),
            },
        }
    }

    #[tactic(auto, using(crate::proofs::Tables::sound_ends))]
    pub(crate) fn tags(&self) -> &Tags
        ensures tags { result.now.list ≡ self.now }
        ensures ends { NoneContainsItself (tags_of self.now) }
    {
        &self.tags
    }

    /// One more, without a body.
    #[tactic(auto, using(crate::proofs::Tables::more_sound))]
    pub(crate) fn add(&mut self, is_union: bool, name: Ident) -> Result<(), NoMemory>
        ensures { OnOk result (self.new ≡ self.old ++ record { is_union = is_union; name = name; members = None; marked = false } ∷ []) }
    {
        self.tags.list.push(Tag {
            is_union,
            name,
            members: None,
            marked: false,
        })?;
        Ok(())
    }

    /// One gets a body, unless it has one. The members' types must have sizes, which they have in each
    /// file whose members are judged: else this is told as want of memory.
    pub(crate) fn complete(
        &mut self,
        alloc: Global,
        number: u32,
        members: Items<Member>,
    ) -> Result<(), NoMemory>
        ensures { OnOk result (tags_of self.new
            ≡ with_body number (members_of members) (slice_get (tags_of self.old) number) (tags_of self.old)) }
    {
        if !all_have_sizes(alloc, &self.tags, members.as_slice())? {
            return Err(NoMemory);
        }
        put_body(alloc, &mut self.tags, number, members)?;
        Ok(())
    }

    pub(crate) fn into_tags(self) -> Tags
        ensures { result.list ≡ self }
    {
        self.tags
    }
}
