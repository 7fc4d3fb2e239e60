ghost use Rattle.std.specs.Prelude.{◌≡◌, ◌↔◌, [], IsTrue, IfOk};

use std::alloc::Global;
use std::marker::Model;
use type_kinds::{List, Memory, Shared};

/// A list with several owners: a copy of it is one more owner. Contracts see the list.
#[derive(Drop)]
pub struct SharedList<T> {
    items: Option<Shared<List<T>>>,
}

impl<T> Model for SharedList<T> {
    ghost use Rattle.std.specs.Prelude.{List};
    ghost use Rattle.std.specs.Coded.{coded_list};
    ghost use Rattle.type_kinds_sets.specs.SharedLists.{items_of};

    ghost Value = { List T };

    ghost coded = { coded_list T.code };

    ghost view = { λ list. items_of list.items };
}

impl<T> SharedList<T> {
    /// No item. Takes no memory.
    pub fn empty() -> SharedList<T>
        ensures { result ≡ [] }
    {
        SharedList { items: None }
    }

    /// All items, first to last. Takes no memory.
    pub fn as_slice(&self) -> &[T]
        ensures { result.now ≡ self.now }
    {
        match &self.items {
            None => &[],
            Some(items) => items.get().as_slice(),
        }
    }

    /// Whether there is no item. Takes no memory.
    pub fn is_empty(&self) -> bool
        ensures { IsTrue result ↔ (self.now ≡ []) }
    {
        match &self.items {
            None => true,
            Some(items) => items.get().is_empty(),
        }
    }

    /// One more owner of the list. `Memory` where the count of owners can rise no further.
    pub fn share(&self) -> Result<SharedList<T>, Memory>
        ensures { IfOk result (λ list. list ≡ self.now) }
    {
        match &self.items {
            None => Ok(SharedList { items: None }),
            Some(items) => Ok(SharedList {
                items: Some(items.share()?),
            }),
        }
    }
}

impl<T: Drop> SharedList<T> {
    /// A list with one owner. An empty one takes no memory. If allocation fails the items are dropped.
    pub fn new(alloc: Global, items: List<T>) -> Result<SharedList<T>, Memory>
        ensures { IfOk result (λ list. list ≡ items) }
    {
        if items.is_empty() {
            return Ok(SharedList::empty());
        }
        Ok(SharedList {
            items: Some(Shared::new(alloc, items)?),
        })
    }
}
