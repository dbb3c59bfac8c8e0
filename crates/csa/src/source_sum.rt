//! What the program was made of.

/// The sum of all sources but this file, as `release/sources --program` prints it. `release/stamp` writes it, and
/// `.ci/run` compares it with the sources.
pub const SOURCES: &str = "f97cb0768d856f7c2c0cb03fded5c5bbea656f1e7aa8f7e7643d2414d6e4658f";
