//! Reports of progress while a table of travel times is written.

use command_endings::StartInstant;
use matrix_rows::TableReports;
use std::alloc::Global;
use std::io::Write;
use std::time::Clock;

/// Reports how many targets are done after each run of them, and about how many seconds are left: on a terminal in one
/// line that is rewritten. A line that can't be written, or for which there is no memory, is left out.
#[derive(Drop)]
pub struct TableProgress<'c, C, W> {
    alloc: Global,
    clock: &'c C,
    /// Where to report, if anywhere.
    errors: Option<&'c mut W>,
    is_terminal: bool,
    begun: StartInstant,
    /// How many targets there are.
    targets: u64,
    /// How many are done.
    done: u64,
}

impl<'c, C: Clock, W: Write> TableProgress<'c, C, W> {
    /// The progress before anything is done.
    pub fn new(
        alloc: Global,
        clock: &'c C,
        errors: Option<&'c mut W>,
        is_terminal: bool,
        targets: usize,
    ) -> TableProgress<'c, C, W> {
        TableProgress {
            alloc,
            clock,
            errors,
            is_terminal,
            begun: StartInstant::now(clock),
            targets: targets as u64,
            done: 0,
        }
    }

    /// About how many seconds are left, if each target takes as long as those that are done.
    fn left(&self) -> u64 {
        let Some(lasted) = self.begun.elapsed(self.clock) else {
            return 0;
        };
        let left = self.targets.saturating_sub(self.done);
        lasted.as_secs().saturating_mul(left) / self.done.max(1)
    }

    /// Clears the line of a terminal.
    pub fn close(&mut self) {
        if let Some(errors) = &mut self.errors
            && self.is_terminal
        {
            let _ = errors.write_all(b"\r\x1b[K");
        }
    }
}

impl<'c, C: Clock, W: Write> TableReports for TableProgress<'c, C, W> {
    fn note_targets(&mut self, targets: usize) {
        self.done = self.done.saturating_add(targets as u64);
        let (done, all, left) = (self.done, self.targets, self.left());
        let Some(errors) = &mut self.errors else {
            return;
        };
        let (begins, ends) = if self.is_terminal {
            ("\r\x1b[K", "")
        } else {
            ("", "\n")
        };
        let _ = write!(
            errors,
            "{begins}csa: targets {done} of {all}, seconds left {left}{ends}"
        );
    }
}
