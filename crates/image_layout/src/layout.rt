//! What every image begins with.

ghost use Rattle.std.specs.Prelude.{◌≡◌};
ghost use Rattle.image_layout.specs.Offsets.{is_layout};

/// The first word of an image: the bytes `CSAP`.
pub const MAGIC: u32 = 0x5041_5343;

/// The second word in the first layout, which has no repeats. It is still read, but no longer written.
pub const FIRST_LAYOUT: u32 = 1;

/// The second word in the layout that is written.
pub const LAYOUT: u32 = 2;

/// The number of words before the connections.
pub const HEADER_WORDS: usize = 9;

/// Whether images of this layout are read.
pub fn is_layout(number: u32) -> bool
    ensures { result ≡ is_layout number }
{
    number == FIRST_LAYOUT || number == LAYOUT
}
