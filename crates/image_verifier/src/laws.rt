//! Laws of first faults. The functions do nothing: their contracts are the laws.

ghost use Rattle.std.specs.Prelude.{◌≡◌, ◌↔◌, ℕ, ◌<◌, ◌^◌, List, All, None};
ghost use Rattle.timetable.specs.TimetableValue.{TimetableValue};
ghost use Rattle.timetable.specs.NamesValue.{NamesValue};
ghost use Rattle.image_layout.specs.declared.layout.TheConstants.{FIRST_LAYOUT};
ghost use Rattle.image_layout.specs.Spelling.{image, image_in};
ghost use Rattle.image_layout.specs.Image.{AreFirst, HasImage, IsImage};
ghost use Rattle.image_verifier.specs.FirstFault.{first_fault};

/// Words have no fault exactly if they are the image of some timetable and its names.
pub fn faultless_words()
    ensures { (w : List ℕ) → All (λ x. x < 2 ^ 32) w → (first_fault w ≡ None)
        ↔ ((t : TimetableValue) × (n : NamesValue) × IsImage w t n) }
{}

/// For every legal timetable within the limits and any names that fit it, the words of its image fit
/// 32 bits and have no fault. If all repeats are 0, its words in the first layout have no fault either.
pub fn every_timetable_has_an_image()
    ensures words { (t : TimetableValue) (n : NamesValue) → HasImage t n → All (λ x. x < 2 ^ 32) (image t n) }
    ensures faultless { (t : TimetableValue) (n : NamesValue) → HasImage t n → first_fault (image t n) ≡ None }
    ensures first_layout { (t : TimetableValue) (n : NamesValue) → HasImage t n → AreFirst n
        → first_fault (image_in FIRST_LAYOUT t n) ≡ None }
{}
