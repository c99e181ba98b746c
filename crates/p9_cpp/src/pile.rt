// Lists that are read from their beginning.
ghost use Rattle.std.specs.Prelude.{◌≡◌, [], ◌∷◌, OnOk, MatchOption, length};
ghost use Rattle.p9_cpp.specs.Lists.{is_empty, IsFirst};

use crate::row::Row;
use p9_base::NoMemory;
use std::alloc::Global;
use std::marker::Model;

/// A `Vec` that contracts see as the list of its elements, the last one first.
#[derive(Drop)]
pub struct Pile<T> {
    items: Vec<T>,
}

impl<T> Model for Pile<T> {
    ghost use Rattle.std.specs.Prelude.{List, reverse};
    ghost use Rattle.std.specs.Coded.{coded_list};

    ghost Value = { List T };

    ghost coded = { coded_list T.code };

    ghost view = { λ p. reverse p.items.items };
}

impl<T> Pile<T> {
    pub fn new(alloc: Global) -> Pile<T>
        ensures { result ≡ [] }
    {
        Pile {
            items: Vec::new(alloc),
        }
    }

    /// A row, to be read from its first element on.
    pub fn of_row(row: Row<T>) -> Pile<T>
        ensures { result ≡ row }
    {
        let mut items = row.list;
        items.reverse();
        Pile { items }
    }

    /// What is left, as a row.
    pub fn into_row(self) -> Row<T>
        ensures { result ≡ self }
    {
        let mut list = self.items;
        list.reverse();
        Row { list }
    }

    pub fn pop(&mut self) -> Option<T>
        ensures { MatchOption result ((self.old ≡ []) × (self.new ≡ [])) (λ x. self.old ≡ x ∷ self.new) }
    {
        self.items.pop()
    }

    /// The element that `pop` would give.
    pub fn first(&self) -> Option<&T>
        ensures { MatchOption result (self.now ≡ []) (λ x. IsFirst self.now x.now) }
    {
        self.items.as_slice().last()
    }

    pub fn len(&self) -> usize
        ensures { result ≡ length self.now }
    {
        self.items.len()
    }

    pub fn is_empty(&self) -> bool
        ensures { result ≡ is_empty self.now }
    {
        self.items.is_empty()
    }
}

impl<T: Drop> Pile<T> {
    pub fn push(&mut self, x: T) -> Result<(), NoMemory>
        ensures { OnOk result (self.new ≡ x ∷ self.old) }
    {
        self.items.push(x)?;
        Ok(())
    }
}
