//! What was read for a line.

use reasoning::Trace;

/// Indices that were read for a line, in the order of reading. Contracts alone see them. They can't be dropped: only
/// [`Counted::write_line`](crate::Counted::write_line) takes them, and notes them with the line.
pub struct LineReads {
    indices: Trace<usize>,
}

impl LineReads {
    ghost use Rattle.std.specs.Prelude.{◌≡◌, ◌++◌, ◌∷◌, []};
    ghost use Rattle.lines.specs.LineReads.{reads_of};

    /// Nothing was read.
    pub fn new() -> LineReads
        ensures { reads_of result ≡ [] }
    {
        LineReads {
            indices: Trace::new(),
        }
    }

    /// One index more was read.
    #[inline(always)]
    pub fn note(&mut self, index: usize)
        ensures { reads_of self.new ≡ reads_of self.old ++ index ∷ [] }
    {
        self.indices.note(&index);
    }

    // They are noted with a line.
    pub(crate) fn let_go(self) {
        let LineReads { indices: _ } = self;
    }
}
