//! Names of feeds.

ghost use Rattle.std.specs.Prelude.{◌≡◌, ◌<◌, ℕ, length, map, slice_get, string_bytes, Some, MatchBool, MatchOption};
ghost use Rattle.load_orders.specs.Asking.{IsFirstFeed, IsNoName};

/// The first index of the name.
pub(crate) fn index_of(names: &[String], name: &str) -> Option<usize>
    ensures { MatchOption result (IsNoName (map string_bytes names.now) name.now)
        (IsFirstFeed (map string_bytes names.now) name.now) }
{
    for index in 0..names.len() {
        if is_named(names, index, name) {
            return Some(index);
        }
    }
    None
}

fn is_named(names: &[String], index: usize, name: &str) -> bool
    requires { index < length names.now }
    ensures { MatchBool result (slice_get (map string_bytes names.now) index
        ≡ Some name.now) (¬ (slice_get (map string_bytes names.now) index ≡ Some name.now)) }
{
    is_text(&names[index], name)
}

fn is_text(known: &String, name: &str) -> bool
    ensures { MatchBool result (string_bytes known.now ≡ name.now) (¬ (string_bytes known.now ≡ name.now)) }
{
    known.as_str() == name
}
