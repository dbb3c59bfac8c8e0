//! The results of reading files.

ghost use Rattle.std.specs.Prelude.{◌≡◌, ◌++◌, ◌∷◌, [], List};
ghost use Rattle.feed_files.specs.Files.{given};

use std::collections::LinkedList;
use std::marker::Model;
use timetable::GhostValue;

/// The results of reading files, in order: the name of each file, and its bytes, or none if there is no such file.
/// Only contracts see them: they take no memory.
#[derive(Drop)]
pub struct FileReads {
    reads: GhostValue<LinkedList<(LinkedList<u8>, Option<LinkedList<u8>>)>>,
}

impl Model for FileReads {
    ghost use Rattle.std.specs.Prelude.{List};
    ghost use Rattle.feed_files.specs.Files.{FileRead};

    ghost Value = { List FileRead };

    ghost view = { λ files. files.reads.value };
}

impl FileReads {
    /// Returns an empty list.
    pub fn none() -> FileReads
        ensures { result ≡ [] }
    {
        FileReads {
            reads: GhostValue::at(&(), &()),
        }
    }

    /// Adds the result of reading the file with a name.
    pub fn note(&mut self, name: &str, file: &Option<Vec<u8>>)
        ensures { self.new ≡ self.old ++ given name.now file.now ∷ [] }
    {
        self.reads = GhostValue::at(&self.reads, &(name, file));
    }
}
