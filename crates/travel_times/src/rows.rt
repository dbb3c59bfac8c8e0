//! Rows as `csv` writes them.

use csv::Writer;
use std::alloc::{AllocError, Global};

/// Rows, one after the other.
#[derive(Drop)]
pub struct Rows {
    writer: Writer<Vec<u8>>,
}

impl Rows {
    ghost use Rattle.std.specs.Prelude.{◌≡◌, [], IfOk, OnOk, map};
    ghost use Rattle.csv.specs.Writing.{default_writer, row_text};
    ghost use Rattle.travel_times.specs.Rows.{Adds, AreWhole, text_of};

    /// No rows.
    pub fn new(alloc: Global) -> Rows
        ensures whole { AreWhole result }
        ensures text { text_of result ≡ [] }
    {
        Rows {
            writer: Writer::from_writer(Vec::new(alloc)),
        }
    }

    /// Adds a row of these fields, of which each row has equally many. The only error is that memory runs out; after it
    /// a row may be begun.
    pub fn put(&mut self, fields: &[&[u8]]) -> Result<(), AllocError>
        requires { AreWhole self.old }
        ensures { OnOk result (Adds self.old self.new
            (row_text default_writer (map (λ field. field.now) fields.now))) }
    {
        match self.writer.write_fields(fields) {
            Ok(()) => Ok(()),
            Err(_) => Err(AllocError),
        }
    }

    /// The text of all rows.
    pub fn into_text(self) -> Result<Vec<u8>, AllocError>
        ensures { IfOk result (λ text. text.items ≡ text_of self) }
    {
        match self.writer.into_inner() {
            Ok(text) => Ok(text),
            Err(_) => Err(AllocError),
        }
    }
}
