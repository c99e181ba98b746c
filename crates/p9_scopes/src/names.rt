// Names that are asked for.
ghost use Rattle.std.specs.Prelude.{◌≡◌, [], ◌∷◌, ◌++◌, ◌||◌, List, ℕ, IfOk, OnOk};
ghost use Rattle.p9_lang.specs.Names.{is_among, same_name};

use indexmap::IndexSet;
use p9_base::{Name, NoMemory};
use p9_lang::Ident;
use sqlite_items::Items;
use std::alloc::Global;
use std::marker::Model;

/// Names in the order in which they came, some of them maybe more than once.
#[derive(Drop)]
pub struct Names {
    list: Items<Ident>,
    set: IndexSet<Name>,
}

impl Model for Names {
    ghost use Rattle.std.specs.Prelude.{List, ℕ};
    ghost use Rattle.p9_scopes.specs.Newest.{HasSame};

    ghost Value = { List (List ℕ) };

    ghost view = { λ n. n.list };

    ghost invariant = { λ n. HasSame n.set.keys n.list };
}

fn contains(set: &IndexSet<Name>, name: Name) -> bool
    ensures { result ≡ is_among set.now.keys name }
{
    set.contains(&name)
}

fn insert(set: &mut IndexSet<Name>, name: Name) -> Result<(), NoMemory>
    ensures { OnOk result ((q : List ℕ) → is_among set.new.keys q ≡ (is_among set.old.keys q || same_name q name)) }
{
    set.insert(name)?;
    Ok(())
}

fn key(alloc: Global, name: &Ident) -> Result<Name, NoMemory>
    ensures { IfOk result (λ key. key ≡ name.now) }
{
    Ok(Name {
        list: Vec::from_slice(alloc, name.list.as_slice())?,
    })
}

impl Names {
    pub fn new(alloc: Global) -> Names
        ensures { result ≡ [] }
    {
        Names {
            list: Items::new(alloc),
            set: IndexSet::new(alloc),
        }
    }

    /// Whether the name is one of these.
    pub fn has(&self, alloc: Global, name: &Ident) -> Result<bool, NoMemory>
        ensures { IfOk result (λ has. has ≡ is_among self.now name.now) }
    {
        Ok(contains(&self.set, key(alloc, name)?))
    }

    /// These, and one more.
    #[tactic(auto, using(crate::proofs::Sets::has_same_more))]
    pub fn with(self, alloc: Global, name: Ident) -> Result<Names, NoMemory>
        ensures { IfOk result (λ names. names ≡ self ++ name ∷ []) }
    {
        let Names { mut list, mut set } = self;
        insert(&mut set, key(alloc, &name)?)?;
        list.push(name)?;
        Ok(Names { list, set })
    }

    pub fn as_slice(&self) -> &[Ident]
        ensures { self.now ≡ result.now }
    {
        self.list.as_slice()
    }

    pub fn into_items(self) -> Items<Ident>
        ensures { result ≡ self }
    {
        let Names { list, set: _ } = self;
        list
    }
}
