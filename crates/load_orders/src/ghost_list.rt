//! Lists that only contracts see, in values that go to other threads.

ghost use Rattle.std.specs.Prelude.{◌≡◌, ◌++◌, ◌∷◌, [], List};

use std::collections::LinkedList;
use std::marker::Model;
use timetable::GhostValue;

/// What was noted, in order. Only contracts see it: it takes no bytes and owns nothing, so it may go to any thread.
#[derive(Drop)]
pub struct GhostList<T> {
    items: GhostValue<LinkedList<T>>,
}

impl<T> Model for GhostList<T> {
    ghost Value = { List T };

    ghost view = { λ notes. notes.items.value };
}

impl<T> GhostList<T> {
    /// Nothing yet.
    pub fn none() -> GhostList<T>
        ensures { result ≡ [] }
    {
        GhostList {
            items: GhostValue::at(&(), &()),
        }
    }

    /// Adds the item at the end. The item is only borrowed.
    pub fn note(&mut self, item: &T)
        ensures { self.new ≡ self.old ++ item.now ∷ [] }
    {
        self.items = GhostValue::at(&self.items, item);
    }

    /// Adds all that `others` has, at the end.
    pub fn append(&mut self, others: GhostList<T>)
        ensures { self.new ≡ self.old ++ others }
    {
        self.items = GhostValue::at(&self.items, &others.items);
    }
}
