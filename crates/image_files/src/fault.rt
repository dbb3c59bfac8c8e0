//! Why a file or a reader gave no words.

use std::alloc::AllocError;
use std::io;

/// Why there are no words.
#[derive(Drop)]
pub enum ImageFileFault {
    /// The number of bytes isn't a multiple of four.
    OddLength,
    /// The bytes couldn't be read.
    Unreadable,
    OutOfMemory,
}

impl From<AllocError> for ImageFileFault {
    ghost use Rattle.std.specs.Prelude.{◌≡◌};
    ghost use Rattle.image_files.specs.declared.fault.ImageFileFault.TheVariants.{OutOfMemory};

    ghost from_gives = { λ _ fault. fault ≡ OutOfMemory };

    fn from(_error: AllocError) -> ImageFileFault {
        ImageFileFault::OutOfMemory
    }
}

impl From<io::Error> for ImageFileFault {
    ghost use Rattle.std.specs.Prelude.{◌≡◌, ◌≢◌, ◌↔◌};
    ghost use Rattle.std_io.specs.IoError.{error_kind};
    ghost use Rattle.std_io.specs.declared.io.kind.ErrorKind.TheVariants.{OutOfMemory as NoMemory};
    ghost use Rattle.image_files.specs.declared.fault.ImageFileFault.TheVariants.{OddLength, OutOfMemory};

    // Memory ran out exactly if the error says so; else the bytes couldn't be read.
    ghost from_gives = { λ error fault. (fault ≢ OddLength) × ((fault ≡ OutOfMemory) ↔ (error_kind error ≡ NoMemory)) };

    fn from(error: io::Error) -> ImageFileFault {
        if error.kind() == io::ErrorKind::OutOfMemory {
            return ImageFileFault::OutOfMemory;
        }
        ImageFileFault::Unreadable
    }
}
