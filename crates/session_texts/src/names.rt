//! The names of stops on one side of a profile.

ghost use Rattle.std.specs.Prelude.{◌≡◌, ◌≢◌, ◌∷◌, [], ℕ, List, AllPairs, IfOk, MatchOption, MatchResult};
ghost use Rattle.serde_json.specs.View.{items_view, view};
ghost use Rattle.session_texts.specs.Names.{AreNamesAt, AreTexts, NamesSide, Unless, shown};

use serde_json::Value;
use std::alloc::{AllocError, Global};

/// How many stops a side of a profile may have.
pub const MOST_STOPS: usize = 1_000;

/// Why there is no request.
#[derive(Clone, Copy, Debug, PartialEq, Eq, Drop)]
pub enum RequestFault {
    /// The value is none: there is no such `do`, or a key that it needs is missing or has a value that isn't allowed.
    BadRequest,
    OutOfMemory,
}

/// The names of the stops of a side, if the value under the key gives them: a text is one name; an array of texts is as
/// many, if `sets` says that arrays are read.
pub(crate) fn names_at<'a>(
    alloc: Global,
    value: &'a Value,
    key: &str,
    sets: bool,
) -> Result<Vec<&'a str>, RequestFault>
    ensures { MatchResult result
        (λ names. AreNamesAt sets key.now (view value.entry.now) (shown names.items))
        (Unless ((names : List (List ℕ)) → ¬ AreNamesAt sets key.now (view value.entry.now) names)) }
{
    let Some(said) = value.get(key) else {
        return Err(RequestFault::BadRequest);
    };
    match side_of(alloc, said, sets) {
        Ok(Some(names)) => Ok(names),
        Ok(None) => Err(RequestFault::BadRequest),
        Err(AllocError) => Err(RequestFault::OutOfMemory),
    }
}

// The names that a value gives, if they are those of a side.
fn side_of<'a>(
    alloc: Global,
    value: &'a Value,
    sets: bool,
) -> Result<Option<Vec<&'a str>>, AllocError>
    ensures { IfOk result (λ names. MatchOption names
        ((names : List (List ℕ)) → ¬ NamesSide sets (view value.entry.now) names)
        (λ names. NamesSide sets (view value.entry.now) (shown names.items))) }
{
    if let Some(name) = value.as_str() {
        let names = one_name(alloc, name)?;
        return Ok(Some(names));
    }
    if !sets {
        return Ok(None);
    }
    let Some(values) = value.as_array() else {
        return Ok(None);
    };
    let count = values.len();
    if count < 1 {
        return Ok(None);
    }
    if count > MOST_STOPS {
        return Ok(None);
    }
    distinct_texts(alloc, values)
}

fn one_name<'a>(alloc: Global, name: &'a str) -> Result<Vec<&'a str>, AllocError>
    ensures { IfOk result (λ names. shown names.items ≡ name.entry.now ∷ []) }
{
    Ok(vec![in alloc; name]?)
}

// The texts that values are, if all are texts and no two are the same.
fn distinct_texts<'a>(
    alloc: Global,
    values: &'a [Value],
) -> Result<Option<Vec<&'a str>>, AllocError>
    ensures { IfOk result (λ texts. MatchOption texts
        ((texts : List (List ℕ)) → AreTexts (items_view values.entry.now) texts → AllPairs ◌≢◌ texts → ⊥)
        (λ texts. AreTexts (items_view values.entry.now) (shown texts.items) × AllPairs ◌≢◌ (shown texts.items))) }
{
    let mut texts = Vec::with_capacity(alloc, values.len())?;
    for value in values {
        let Some(text) = value.as_str() else {
            return Ok(None);
        };
        if texts.contains(&text) {
            return Ok(None);
        }
        texts.push(text)?;
    }
    Ok(Some(texts))
}
