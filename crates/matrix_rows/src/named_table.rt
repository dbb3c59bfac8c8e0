//! A table with the names of its sources.

ghost use Rattle.image_files.specs.Naming.{printed};
ghost use Rattle.matrix_rows.specs.Tables.{AreNamed};

use crate::table::TravelTable;

/// A table, and what each of its sets of sources is called.
#[derive(Clone, Copy)]
pub(crate) struct NamedTable<'a> {
    pub plain: TravelTable<'a>,
    pub names: &'a [String],
    ghost named: { AreNamed (printed plain.names plain.image.now).names plain.sources.now names.now },
}
