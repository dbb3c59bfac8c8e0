//! The names of files whose reads failed.

ghost use Rattle.std.specs.Prelude.{◌≡◌, ◌++◌, ◌∷◌, [], ℕ, List};

use std::collections::LinkedList;
use std::marker::Model;
use timetable::GhostValue;

/// The names of the files whose reads failed, in order. Only contracts see them: they take no memory.
#[derive(Drop)]
pub struct FailedNames {
    names: GhostValue<LinkedList<LinkedList<u8>>>,
}

impl Model for FailedNames {
    ghost Value = { List (List ℕ) };

    ghost view = { λ failed. failed.names.value };
}

impl FailedNames {
    /// Returns an empty list.
    pub fn none() -> FailedNames
        ensures { result ≡ [] }
    {
        FailedNames {
            names: GhostValue::at(&(), &()),
        }
    }

    /// Adds the name of a file whose read failed.
    pub fn note(&mut self, name: &str)
        ensures { self.new ≡ self.old ++ name.now ∷ [] }
    {
        self.names = GhostValue::at(&self.names, &name);
    }
}
