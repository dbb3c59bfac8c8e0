//! Makes files, and brings them to their places.

ghost use Rattle.std.specs.Prelude.{◌≡◌, IfErr, IfOk, OnErr, OnOk, false, true};
ghost use Rattle.image_files.specs.Out.{OutFiles, any_files};
ghost use Rattle.image_files.specs.Watching.{HasFault};
ghost use Rattle.image_files.specs.declared.watching.WatchedWriter.{WatchedWriter as OutFile};

use crate::watching::WatchedWriter;
use std::fs::File;
use std::io::Write;
use std::os::unix::fs::MetadataExt;
use std::rt::Files;
use std::{fs, io};

/// A disk on which files are written.
pub trait OutDisk: Files {
    // What it says of these files.
    ghost files: { Self → OutFiles } = { λ _. any_files };

    /// Whether there is something at a path that isn't a plain file: a device, a pipe, a link.
    fn is_special(&self, path: &str) -> bool
        ensures special { result ≡ true → (files self.now).special path.now }
        ensures plain { result ≡ false → (files self.now).plain path.now };

    /// Makes a file at a path where there is nothing.
    fn new_file(&self, path: &str) -> io::Result<WatchedWriter<Self::File>>
        ensures begun { IfOk result (λ file. (files self.now).may_begin path.now
            (⟦<WatchedWriter<Self::File> as Write>⟧.contents file)) }
        ensures written { IfOk result (λ _. (file : OutFile Self.File) → HasFault file.fault
            → (files self.now).may_not_make path.now) }
        ensures failed { IfErr result (λ _. (files self.now).may_not_make path.now) };

    /// Opens what is at a path, or at the end of the link there. A plain file is emptied.
    fn opened(&self, path: &str) -> io::Result<WatchedWriter<Self::File>>
        ensures begun { IfOk result (λ file. (files self.now).may_begin path.now
            (⟦<WatchedWriter<Self::File> as Write>⟧.contents file)) }
        ensures written { IfOk result (λ _. (file : OutFile Self.File) → HasFault file.fault
            → (files self.now).may_not_open path.now) }
        ensures failed { IfErr result (λ _. (files self.now).may_not_open path.now) };

    /// Whether there is one and the same plain file at two paths, which links may lead to.
    fn is_one(&self, path: &str, other: &str) -> bool
        ensures one { result ≡ true → (files self.now).may_be_one path.now other.now }
        ensures apart { result ≡ false → (files self.now).may_be_apart path.now other.now };

    /// Moves a file from the path at which it was made or opened to another. It stays if that is the same.
    fn brought(&self, file: &WatchedWriter<Self::File>, from: &str, to: &str) -> io::Result<()>
        ensures stands { OnOk result ((files self.now).may_stand from.now to.now
            (⟦<WatchedWriter<Self::File> as Write>⟧.contents file.now)) }
        ensures failed { OnErr result ((files self.now).may_not_move to.now) };
}

impl<H: Files> OutDisk for H {
    // nothing is known about the files of a machine
    ghost files = { λ _. any_files };

    fn is_special(&self, path: &str) -> bool {
        match fs::symlink_metadata(self, path) {
            Ok(metadata) => !metadata.is_file(),
            Err(_) => false,
        }
    }

    fn new_file(&self, path: &str) -> io::Result<WatchedWriter<H::File>> {
        let file = File::create_new(self, path)?;
        Ok(WatchedWriter::of(file))
    }

    fn opened(&self, path: &str) -> io::Result<WatchedWriter<H::File>> {
        let file = File::create(self, path)?;
        Ok(WatchedWriter::of(file))
    }

    fn is_one(&self, path: &str, other: &str) -> bool {
        match (fs::metadata(self, path), fs::metadata(self, other)) {
            (Ok(one), Ok(two)) => {
                one.is_file() && one.ino() != 0 && one.ino() == two.ino() && one.dev() == two.dev()
            }
            _ => false,
        }
    }

    fn brought(&self, _file: &WatchedWriter<H::File>, from: &str, to: &str) -> io::Result<()> {
        if from == to {
            return Ok(());
        }
        fs::rename(self, from, to)
    }
}
