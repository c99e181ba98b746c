// Extents of types, by those that are known of structures and unions.
ghost use Rattle.std.specs.Prelude.{◌≡◌, [], ℕ, Some, OnOk, if◌then◌else◌, nat_eq, false};
ghost use Rattle.std.specs.Map.{lookup};
ghost use Rattle.p9_lang.specs.Types.{type_of, members_of, tag_of};
ghost use Rattle.p9_lang.specs.Layout.{extent, filled, nothing_yet, body_extent};
ghost use Rattle.p9_lang.specs.Conversions.{is_array};
ghost use Rattle.p9_types.specs.Capping.{Alike};
ghost use Rattle.p9_types.specs.Told.{told_option, is_known, known_extent};

use crate::capped::Capped;
use crate::elements::innermost_elements;
use p9_base::NoMemory;
use p9_lang::{CType, Member, Tag};
use std::alloc::Global;
use std::collections::HashMap;

/// Structures and unions by their numbers, with their extents where they have any.
#[derive(Drop)]
pub(crate) struct KnownTags {
    map: HashMap<u32, Option<Capped>>,
}

impl KnownTags {
    pub(crate) fn new(alloc: Global) -> KnownTags
        ensures { result.map.entries ≡ [] }
    {
        KnownTags {
            map: HashMap::new(alloc),
        }
    }

    pub(crate) fn is_known(&self, number: u32) -> bool
        ensures { result ≡ is_known self.now.map.entries number }
    {
        self.map.contains_key(&number)
    }

    pub(crate) fn learn(&mut self, number: u32, extent: Option<Capped>) -> Result<(), NoMemory>
        ensures { OnOk result ((q : ℕ) → lookup (nat_eq q) self.new.map.entries
            ≡ (if nat_eq number q then Some extent else lookup (nat_eq q) self.old.map.entries)) }
    {
        self.map.insert(number, extent)?;
        Ok(())
    }

    fn extent_of_tag(&self, number: u32) -> Option<Capped>
        ensures { told_option result ≡ known_extent self.now.map.entries number }
    {
        match self.map.get(&number) {
            Some(extent) => *extent,
            None => None,
        }
    }

    #[tactic(auto, using(crate::proofs::Shapes::shapes))]
    fn extent_of_element(&self, ty: &CType) -> Option<Capped>
        requires { is_array (type_of ty.now) ≡ false }
        ensures { told_option result ≡ extent (known_extent self.now.map.entries) (type_of ty.now) }
    {
        match ty {
            CType::Void | CType::Array(..) | CType::Function(..) => None,
            CType::Char | CType::UChar => Some(Capped::scalar(1)),
            CType::Short | CType::UShort => Some(Capped::scalar(2)),
            CType::Int | CType::UInt | CType::Long | CType::ULong | CType::Pointer(_) => {
                Some(Capped::scalar(4))
            }
            CType::Tagged(number) => self.extent_of_tag(*number),
        }
    }

    /// The extent of a type, if it is complete.
    pub(crate) fn extent_of(&self, ty: &CType) -> Option<Capped>
        ensures { Alike (told_option result)
            (extent (known_extent self.now.map.entries) (type_of ty.now)) }
    {
        let elements = innermost_elements(ty);
        match self.extent_of_element(elements.ty) {
            Some(element) => element.repeated(elements.count),
            None => None,
        }
    }

    fn extent_of_members(&self, is_union: bool, members: &[Member]) -> Option<Capped>
        ensures { Alike (told_option result)
            (filled (known_extent self.now.map.entries) is_union nothing_yet (members_of members.now)) }
    {
        let mut so_far = Capped::nothing();
        let mut rest = members;
        'members: while let [member, after @ ..] = rest {
            match self.extent_of(&member.ty) {
                Some(extent) => so_far = so_far.with_member(is_union, extent),
                None => return None,
            }
            rest = after;
        }
        Some(so_far)
    }

    /// The extent of a structure or union, if it has a body of complete members.
    pub(crate) fn extent_of_body(&self, tag: &Tag) -> Option<Capped>
        ensures { Alike (told_option result)
            (body_extent (known_extent self.now.map.entries) (Some (tag_of tag.now))) }
    {
        let members = match &tag.members {
            Some(members) => members.as_slice(),
            None => return None,
        };
        match self.extent_of_members(tag.is_union, members) {
            Some(so_far) => Some(so_far.closed()),
            None => None,
        }
    }
}
