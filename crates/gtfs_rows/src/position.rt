//! Where a record begins in its file.

ghost use Rattle.std.specs.Prelude.{◌≡◌, ◌≤◌, ℕ, List, length};
ghost use Rattle.gtfs_rows.specs.Positions.{ends_line as line_end, line_at, line_ends};

use std::marker::Model;

/// Where a record begins in its file.
#[derive(Clone, Copy, Debug, PartialEq, Eq)]
pub struct Position {
    /// The record's number: 0 is the header, 1 the first record after it.
    pub record: u64,
    /// The number of the line in which it begins; the first is 1. A line ends with LF, CR LF or CR, within quotes too.
    pub line: u64,
    /// How many bytes of the file come before it.
    pub byte: u64,
}

// Returns whether a byte ends a line: LF does, and CR unless LF follows.
fn ends_line(byte: u8, behind: &[u8]) -> bool
    ensures { result ≡ line_end byte behind.now }
{
    match behind {
        [next, ..] if byte == b'\r' => *next != b'\n',
        _ => byte == b'\n' || byte == b'\r',
    }
}

// Returns how many lines end in the first so many bytes of a text.
fn lines_in(count: usize, text: &[u8]) -> u64
    ensures lines { result ≡ line_ends text.now count }
    ensures within { result ≤ length text.now }
{
    let mut lines = 0;
    let mut rest = text;
    for passed in 0..count {
        let [first, behind @ ..] = rest else {
            return lines;
        };
        if ends_line(*first, behind) {
            lines += 1;
        }
        rest = behind;
    }
    lines
}

// The lines of a file, counted as far as they were asked for.
#[derive(Drop)]
pub(crate) struct LineCount<'a> {
    pub(crate) bytes: &'a [u8],
    // a byte of the file, and the number of its line
    byte: usize,
    line: u64,
}

impl<'a> Model for LineCount<'a> {
    ghost Value = { List ℕ };

    ghost view = { λ c. c.bytes.now };

    ghost invariant = { λ c. c.line ≡ line_at c.bytes.now c.byte };
}

impl<'a> LineCount<'a> {
    #[tactic(auto, using(crate::proofs::PositionLemmas::no_lines))]
    pub(crate) fn new(bytes: &'a [u8]) -> LineCount<'a>
        ensures { result ≡ bytes.entry.now }
    {
        LineCount {
            bytes,
            byte: 0,
            line: 1,
        }
    }

    // Returns the number of the line in which a byte stands, counted on from the byte that was noted if it comes later.
    #[tactic(auto, using(crate::proofs::PositionLemmas::lines_further))]
    pub(crate) fn line_of(&self, byte: usize) -> u64
        ensures { result ≡ line_at self.now byte }
    {
        if self.byte > byte || self.byte > self.bytes.len() {
            return lines_in(byte, self.bytes) + 1;
        }
        match self
            .line
            .checked_add(lines_in(byte - self.byte, &self.bytes[self.byte..]))
        {
            Some(line) => line,
            None => lines_in(byte, self.bytes) + 1,
        }
    }

    // Notes the line in which a byte stands, so that lines before it aren't counted again.
    pub(crate) fn note(&mut self, byte: usize, line: u64)
        requires { line ≡ line_at self.old byte }
        ensures { self.new ≡ self.old }
    {
        self.byte = byte;
        self.line = line;
    }
}
