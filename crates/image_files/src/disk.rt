//! Opens the files of images.

ghost use Rattle.std.specs.Prelude.{ℕ, List, Option, IfErr, IfOk};

use crate::watching::WatchedRead;
use std::fs::{File, OpenFile};
use std::io;
use std::rt::Files;

/// A disk with images.
pub trait ImageDisk {
    type Image: OpenFile + WatchedRead + Drop;

    // Whether a file opened at this path may hold these bytes. `None` stands for bytes that aren't known.
    ghost may_hold: { Self → List ℕ → Option (List ℕ) → Type 0 } = { λ _ _ _. Unit {0} };

    // That what is at this path may not be opened, or not be read once it is.
    ghost may_fail: { Self → List ℕ → Type 0 } = { λ _ _. Unit {0} };

    /// Opens the file at a path, at its first byte.
    fn image_file(&self, path: &str) -> io::Result<Self::Image>
        ensures bytes { IfOk result (λ file. may_hold self.now path.now (Self.Image.remaining file)) }
        ensures read { IfOk result (λ file. Self.Image.may_fail file → may_fail self.now path.now) }
        ensures failed { IfErr result (λ _. may_fail self.now path.now) };
}

impl<H: Files> ImageDisk for H {
    type Image = H::File;

    // nothing is known about the files of a machine
    ghost may_hold = { λ _ _ _. Unit {0} };

    ghost may_fail = { λ _ _. Unit {0} };

    fn image_file(&self, path: &str) -> io::Result<H::File> {
        File::open(self, path)
    }
}
