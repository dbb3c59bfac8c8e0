//! How facts are written.

/// What each fact is.
#[derive(Clone, Copy)]
pub enum Form {
    /// A line of a word and a value.
    Lines,
    /// A member of an object of JSON, whose key is that word.
    Json,
}
