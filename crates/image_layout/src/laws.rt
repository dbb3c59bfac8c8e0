//! Laws of images. The functions do nothing: their contracts are the laws.

ghost use Rattle.std.specs.Prelude.{◌≡◌, ℕ, ◌<◌, ◌^◌, List, All};
ghost use Rattle.timetable.specs.TimetableValue.{TimetableValue};
ghost use Rattle.timetable.specs.NamesValue.{NamesValue};
ghost use Rattle.image_layout.specs.Offsets.{IsWhole};
ghost use Rattle.image_layout.specs.Text.{bytes_of};
ghost use Rattle.image_layout.specs.declared.layout.TheConstants.{FIRST_LAYOUT};
ghost use Rattle.image_layout.specs.Fields.{layout_of};
ghost use Rattle.image_layout.specs.Spelling.{image, image_in};
ghost use Rattle.image_layout.specs.Shown.{timetable_of, names_of};
ghost use Rattle.image_layout.specs.Image.{AreFirst, HasImage, ImageValue, IsImage, Spells};
ghost use Rattle.image_layout.specs.Sample.{early_timetable, early_names, early_words, repeated_names, repeated_words};

/// An image has as many words as its header says, and shows the timetable and the names that it is the
/// image of. So these are what the functions that read its fields return.
pub fn image_shows()
    ensures whole { (w : List ℕ) (t : TimetableValue) (n : NamesValue) → IsImage w t n → IsWhole w }
    ensures timetable { (w : List ℕ) (t : TimetableValue) (n : NamesValue) → IsImage w t n → timetable_of w ≡ t }
    ensures names { (w : List ℕ) (t : TimetableValue) (n : NamesValue) → IsImage w t n → names_of w ≡ n }
{}

/// Words are the image of at most one timetable and its names.
pub fn one_timetable()
    ensures { (w : List ℕ) (t u : TimetableValue) (n m : NamesValue) → IsImage w t n → IsImage w u m
        → (t ≡ u) × (n ≡ m) }
{}

/// A timetable and its names have at most one image in each layout.
pub fn one_image()
    ensures { (v w : List ℕ) (t : TimetableValue) (n : NamesValue) → IsImage v t n → IsImage w t n
        → layout_of v ≡ layout_of w → v ≡ w }
{}

/// What contracts see of an image has at most one spelling: the sections of its timetable and names in
/// its layout. So the layout, the timetable and the names of an image determine its words, and its words
/// determine them.
pub fn one_spelling()
    ensures words { (w : List ℕ) (image : ImageValue) → Spells w image
        → w ≡ image_in image.layout image.timetable image.names }
    ensures one { (v w : List ℕ) (image : ImageValue) → Spells v image → Spells w image → v ≡ w }
    ensures value { (w : List ℕ) (first second : ImageValue) → Spells w first → Spells w second → first ≡ second }
{}

/// A legal timetable within the limits and names that fit it have an image in the layout that is
/// written. They have one in the first layout exactly if all repeats are 0.
pub fn which_layouts()
    ensures written { (t : TimetableValue) (n : NamesValue) → HasImage t n → IsImage (image t n) t n }
    ensures first { (t : TimetableValue) (n : NamesValue) → HasImage t n → AreFirst n
        → IsImage (image_in FIRST_LAYOUT t n) t n }
    ensures first_alone { (t : TimetableValue) (n : NamesValue) → IsImage (image_in FIRST_LAYOUT t n) t n → AreFirst n }
{}

/// Bytes spell at most one list of words of 32 bits. So such words that are written as bytes and read again are the
/// same.
pub fn one_word_list()
    ensures { (v w : List ℕ) → All (λ x. x < 2 ^ 32) v → All (λ x. x < 2 ^ 32) w → bytes_of v ≡ bytes_of w → v ≡ w }
{}

/// A small image of the first layout, computed both ways: the words from the timetable and names, and
/// these from the words. Its connections are flagged 1, 2 and 3, its base is before 1970, and one of
/// its names is empty.
pub fn early_image()
    ensures spelled { image_in FIRST_LAYOUT early_timetable early_names ≡ early_words }
    ensures timetable { timetable_of early_words ≡ early_timetable }
    ensures names { names_of early_words ≡ early_names }
{}

/// The same timetable with repeats 5 and 0, in the layout that is written.
pub fn repeated_image()
    ensures spelled { image early_timetable repeated_names ≡ repeated_words }
    ensures timetable { timetable_of repeated_words ≡ early_timetable }
    ensures names { names_of repeated_words ≡ repeated_names }
{}
