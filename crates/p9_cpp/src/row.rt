// Lists that grow at their end.
ghost use Rattle.std.specs.Prelude.{◌≡◌, [], ◌∷◌, ◌++◌, OnOk, length};
ghost use Rattle.p9_cpp.specs.Lists.{is_empty};

use p9_base::NoMemory;
use std::alloc::Global;
use std::marker::Model;

/// A `Vec` that contracts see as the list of its elements.
#[derive(Drop)]
pub struct Row<T> {
    pub list: Vec<T>,
}

impl<T> Model for Row<T> {
    ghost use Rattle.std.specs.Prelude.{List};
    ghost use Rattle.std.specs.Coded.{coded_list};

    ghost Value = { List T };

    ghost coded = { coded_list T.code };

    ghost view = { λ r. r.list.items };
}

impl<T> Row<T> {
    pub fn new(alloc: Global) -> Row<T>
        ensures { result ≡ [] }
    {
        Row {
            list: Vec::new(alloc),
        }
    }

    pub fn as_slice(&self) -> &[T]
        ensures { result.now ≡ self.now }
    {
        self.list.as_slice()
    }

    pub fn len(&self) -> usize
        ensures { result ≡ length self.now }
    {
        self.list.len()
    }

    pub fn is_empty(&self) -> bool
        ensures { result ≡ is_empty self.now }
    {
        self.list.is_empty()
    }
}

impl<T: Drop> Row<T> {
    pub fn push(&mut self, x: T) -> Result<(), NoMemory>
        ensures { OnOk result (self.new ≡ self.old ++ x ∷ []) }
    {
        self.list.push(x)?;
        Ok(())
    }

    /// Makes room for so many more elements.
    pub fn reserve(&mut self, more: usize) -> Result<(), NoMemory>
        ensures { OnOk result (self.new ≡ self.old) }
    {
        self.list.reserve(more)?;
        Ok(())
    }

    /// Moves the elements of another to the end; an empty row takes the other's place in memory.
    pub fn append(&mut self, more: Row<T>) -> Result<(), NoMemory>
        ensures { OnOk result (self.new ≡ self.old ++ more) }
    {
        let mut more = more.list;
        if self.list.is_empty() {
            self.list = more;
            return Ok(());
        }
        self.list.append(&mut more)?;
        Ok(())
    }
}
