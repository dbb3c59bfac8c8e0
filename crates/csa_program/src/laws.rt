//! Laws of what a terminal is shown. The functions do nothing: their contracts are the laws.

ghost use Rattle.std.specs.Prelude.{◌≡◌, ◌++◌, ℕ, Bool, List};
ghost use Rattle.csa_program.specs.Showing.{is_held_after, shown_text};

/// Bytes that are written in two parts are shown as they are in one, wherever they are cut, and leave the same byte
/// held back.
pub fn shown_in_parts()
    ensures text { (held : Bool) (first second : List ℕ) → shown_text held (first ++ second)
        ≡ shown_text held first ++ shown_text (is_held_after held first) second }
    ensures held { (held : Bool) (first second : List ℕ) → is_held_after held (first ++ second)
        ≡ is_held_after (is_held_after held first) second }
{}
