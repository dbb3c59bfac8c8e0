//! Laws of what bytes are as images. The functions do nothing: their contracts are the laws.

ghost use Rattle.std.specs.Prelude.{◌≡◌, ℕ, List};
ghost use Rattle.image_layout.specs.Image.{ImageValue};
ghost use Rattle.image_commands.specs.Opening.{IsNoImage, SpellsImage};
ghost use Rattle.image_commands.specs.declared.refusal.CommandRefusal.{CommandRefusal};

/// Bytes that are an image aren't refused, and are no other image. Bytes that are refused have one fault, and so one
/// number.
pub fn accepted_or_refused()
    ensures apart { (image : ImageValue) (refusal : CommandRefusal) (bytes : List ℕ) → SpellsImage image bytes
        → IsNoImage refusal bytes → ⊥ }
    ensures one_image { (first second : ImageValue) (bytes : List ℕ) → SpellsImage first bytes
        → SpellsImage second bytes → first ≡ second }
    ensures one_refusal { (first second : CommandRefusal) (bytes : List ℕ) → IsNoImage first bytes
        → IsNoImage second bytes → first ≡ second }
{}
