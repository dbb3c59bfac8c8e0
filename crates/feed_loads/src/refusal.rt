//! Why an ordered feed isn't loaded.

ghost use Rattle.std.specs.Prelude.{◌≡◌};
ghost use Rattle.feed_loads.specs.Loading.{load_refusal_number};

use feed_loader::LoadFault;
use shelves::PublishFault;
use std::error::Error;
use std::fmt;

/// Why an ordered feed isn't loaded.
#[derive(Clone, Copy, Debug, PartialEq, Eq)]
pub enum LoadRefusal {
    /// There is no image of the feed.
    Load(LoadFault),
    /// The image isn't published. `OutOfMemory` may also mean that there was no memory to share the image, and no
    /// publish was tried.
    Publish(PublishFault),
}

impl LoadRefusal {
    /// The number under which the refusal is reported: that of the fault within.
    pub fn number(self) -> u8
        ensures { result ≡ load_refusal_number self }
    {
        match self {
            LoadRefusal::Load(fault) => fault.number(),
            LoadRefusal::Publish(fault) => fault.number(),
        }
    }
}

/// The number, the name and, if the fault has them, the file and the record, as in `8 IdTwice stops.txt 3`. Where no
/// shelf is free, the counts of all shelves follow the name, as in `94 ShelvesFull 1 1 1 1 1 1 1 0`.
impl fmt::Display for LoadRefusal {
    ghost use Rattle.std.specs.Prelude.{Some};
    ghost use Rattle.feed_loads.specs.Lines.{refusal_text};

    ghost output = { λ refusal. Some (refusal_text refusal) };

    fn fmt<W: fmt::Write>(&self, f: &mut fmt::Formatter<W>) -> fmt::Result {
        match self {
            LoadRefusal::Load(fault) => {
                let fault = FeedFault(*fault);
                write!(f, "{fault}")
            }
            LoadRefusal::Publish(fault) => {
                let fault = ShelfFault(*fault);
                write!(f, "{fault}")
            }
        }
    }
}

impl Error for LoadRefusal {}

// Why there is no image of a feed, as it is printed.
#[derive(Clone, Copy, Drop)]
struct FeedFault(LoadFault);

impl fmt::Display for FeedFault {
    ghost use Rattle.std.specs.Prelude.{Some};
    ghost use Rattle.feed_loads.specs.Lines.{fault_text};

    ghost output = { λ shown. Some (fault_text shown.0) };

    fn fmt<W: fmt::Write>(&self, f: &mut fmt::Formatter<W>) -> fmt::Result {
        let number = self.0.number();
        let name = self.0.name();
        match self.0 {
            LoadFault::Table(fault) => {
                let file = fault.file.file_name();
                let row = fault.row;
                write!(f, "{number} {name} {file} {row}")
            }
            LoadFault::FileFailed(table) => {
                let file = table.file_name();
                write!(f, "{number} {name} {file}")
            }
            LoadFault::Day(_) => write!(f, "{number} {name}"),
            LoadFault::Range(_) => write!(f, "{number} {name}"),
            LoadFault::Footpaths(_) => write!(f, "{number} {name}"),
            LoadFault::Image(_) => write!(f, "{number} {name}"),
        }
    }
}

// Why an image isn't published, as it is printed.
#[derive(Clone, Copy, Drop)]
struct ShelfFault(PublishFault);

impl fmt::Display for ShelfFault {
    ghost use Rattle.std.specs.Prelude.{Some};
    ghost use Rattle.feed_loads.specs.Lines.{publish_text};

    ghost output = { λ shown. Some (publish_text shown.0) };

    fn fmt<W: fmt::Write>(&self, f: &mut fmt::Formatter<W>) -> fmt::Result {
        let number = self.0.number();
        let name = self.0.name();
        match self.0 {
            PublishFault::ShelvesFull { counts } => {
                let counts = ShelfCounts(counts);
                write!(f, "{number} {name}{counts}")
            }
            PublishFault::VersionsSpent => write!(f, "{number} {name}"),
            PublishFault::OutOfMemory => write!(f, "{number} {name}"),
        }
    }
}

// The counts of all shelves, as they are printed.
#[derive(Clone, Copy, Drop)]
struct ShelfCounts([u8; 8]);

impl fmt::Display for ShelfCounts {
    ghost use Rattle.std.specs.Prelude.{Some};
    ghost use Rattle.feed_loads.specs.Lines.{counts_text};

    ghost output = { λ counts. Some (counts_text counts.0) };

    fn fmt<W: fmt::Write>(&self, f: &mut fmt::Formatter<W>) -> fmt::Result {
        for count in self.0.iter() {
            write!(f, " {count}")?;
        }
        Ok(())
    }
}
