// Numbers of statics and automatics, and what else is asked of what is known.
ghost use Rattle.std.specs.Prelude.{◌≡◌, ◌+◌, IfOk, OnOk};
ghost use Rattle.p9_lang.specs.Names.{is_among};
ghost use Rattle.p9_lang.specs.Types.{members_of, tags_of};
ghost use Rattle.p9_lang.specs.Scopes.{complete_tag, known_first};
ghost use Rattle.p9_lang.specs.TagRules.{NoneContainsItself};
ghost use Rattle.p9_scopes.specs.State.{known_of};

use crate::known::Known;
use crate::names::Names;
use crate::pile::Pile;
use crate::system::system_level;
use crate::tag_level::TagLevel;
use crate::tag_table::TagTable;
use p9_base::NoMemory;
use p9_lang::{Ident, Member, Tags};
use sqlite_items::Items;
use std::alloc::Global;

fn one_more(n: u32) -> Result<u32, NoMemory>
    ensures { IfOk result (λ more. more ≡ n + 1) }
{
    match n.checked_add(1) {
        Some(more) => Ok(more),
        None => Err(NoMemory),
    }
}

impl Known {
    /// What is known before a file's first item, where these are the functions that have bodies.
    pub fn new(alloc: Global, bodies: Names) -> Result<Known, NoMemory>
        ensures { IfOk result (λ known. known_of known ≡ known_first bodies) }
    {
        let mut names = Pile::new(alloc);
        names.push(system_level(alloc)?)?;
        let mut tag_names = Pile::new(alloc);
        tag_names.push(TagLevel::new(alloc))?;
        Ok(Known {
            types: Items::new(alloc),
            binds: Items::new(alloc),
            names,
            tag_names,
            tags: TagTable::new(alloc),
            statics: 0,
            autos: 0,
            bodies,
        })
    }

    /// The number of one text or block static more.
    pub fn take_static(&mut self) -> Result<u32, NoMemory>
        ensures number { IfOk result (λ n. n ≡ (known_of self.old).statics) }
        ensures known { OnOk result (known_of self.new
            ≡ record (known_of self.old) { statics = (known_of self.old).statics + 1 }) }
    {
        let number = self.statics;
        self.statics = one_more(number)?;
        Ok(number)
    }

    /// The number of one automatic more.
    pub fn take_auto(&mut self) -> Result<u32, NoMemory>
        ensures number { IfOk result (λ n. n ≡ (known_of self.old).autos) }
        ensures known { OnOk result (known_of self.new
            ≡ record (known_of self.old) { autos = (known_of self.old).autos + 1 }) }
    {
        let number = self.autos;
        self.autos = one_more(number)?;
        Ok(number)
    }

    /// The number that the next automatic would have.
    pub fn next_auto(&self) -> u32
        ensures { result ≡ (known_of self.now).autos }
    {
        self.autos
    }

    /// So many automatics there are from here on.
    pub fn set_autos(&mut self, count: u32)
        ensures { known_of self.new ≡ record (known_of self.old) { autos = count } }
    {
        self.autos = count;
    }

    /// Whether a function has a body in the file.
    pub fn has_body(&self, alloc: Global, name: &Ident) -> Result<bool, NoMemory>
        ensures { IfOk result (λ has. has ≡ is_among (known_of self.now).bodies name.now) }
    {
        let has = self.bodies.has(alloc, name)?;
        Ok(has)
    }

    /// The structures and unions.
    pub fn tags(&self) -> &Tags
        ensures tags { tags_of result.now.list ≡ (known_of self.now).tags }
        ensures ends { NoneContainsItself (tags_of result.now.list) }
    {
        self.tags.tags()
    }

    /// A structure or union is complete. Each member has a size in what is judged: else this is told
    /// as want of memory.
    pub fn complete_tag(
        &mut self,
        alloc: Global,
        number: u32,
        members: Items<Member>,
    ) -> Result<(), NoMemory>
        ensures { OnOk result (known_of self.new ≡ complete_tag number (members_of members) (known_of self.old)) }
    {
        self.tags.complete(alloc, number, members)
    }
}
