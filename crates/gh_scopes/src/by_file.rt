// What is known of each file, by its number.
ghost use Rattle.std.specs.Prelude.{◌≡◌, ◌++◌, [], ◌∷◌, slice_set, OnOk, IfOk};

use gh_base::{ListOf, NoMemory};
use std::alloc::Global;
use std::marker::Model;

/// One item for each file. Contracts see the list of the items.
#[derive(Drop)]
pub struct ByFile<T> {
    items: Vec<T>,
}

impl<T> Model for ByFile<T> {
    ghost use Rattle.std.specs.Prelude.{List};

    ghost Value = { List T };

    ghost view = { λ it. it.items.items };
}

impl<T> ByFile<T> {
    /// No items.
    pub fn new(alloc: Global) -> ByFile<T>
        ensures { result ≡ [] }
    {
        ByFile {
            items: Vec::new(alloc),
        }
    }

    /// The items in their order.
    pub fn as_slice(&self) -> &[T]
        ensures { result.now ≡ self.now }
    {
        self.items.as_slice()
    }
}

impl<T: Drop> ByFile<T> {
    /// One more.
    pub fn push(&mut self, item: T) -> Result<(), NoMemory>
        ensures { OnOk result (self.new ≡ self.old ++ item ∷ []) }
    {
        self.items.push(item)?;
        Ok(())
    }

    /// Another item for a file; nothing where there is no such file.
    pub fn set(&mut self, file: usize, item: T)
        ensures { self.new ≡ slice_set self.old file item }
    {
        if file < self.items.len() {
            self.items[file] = item;
        }
    }

    /// The items in their order.
    pub fn into_list(self, alloc: Global) -> Result<ListOf<T>, NoMemory>
        ensures { IfOk result (λ list. list ≡ self) }
    {
        let ByFile { items } = self;
        list_of(alloc, items)
    }
}

fn list_of<T: Drop>(alloc: Global, items: Vec<T>) -> Result<ListOf<T>, NoMemory>
    ensures { IfOk result (λ list. list ≡ items.items) }
{
    let mut list = ListOf::new(alloc);
    for item in items {
        list.push(item)?;
    }
    Ok(list)
}
