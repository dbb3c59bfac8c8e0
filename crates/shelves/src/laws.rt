//! Laws over what seats do at shelves. The functions do nothing: their contracts are the laws.

ghost use Rattle.shelves.specs.SeatHistory.{GrowthsJoin, OneImageEach, PublishedStay};
ghost use Rattle.shelves.specs.SeatLaws.{JoinedVersionsStay, JoinedVersionsStayAtShelves};
ghost use Rattle.shelves.specs.Pinned.{PinnedAreLeftAlone, SeatsAgreeOnImages, SeatsKnowBeginnings};

/// No image is collected while a seat of shelves without a lock has it pinned, at whatever moment
/// between two steps of any seats: its version is on a shelf, its slot out with the seat and out of
/// the loader's reach, and no collection frees the shelf. That a seat shows what it knows is
/// `ShelfSeat::shows_what_it_knows`; that each step keeps the rule is
/// `shelf_steps::laws::each_step_keeps_the_rule`.
pub fn pinned_images_are_left_alone()
    ensures { PinnedAreLeftAlone }
{}

/// In what one seat comes to know, from its first call to its last, a version has one image.
pub fn versions_have_one_image()
    ensures one { OneImageEach }
    ensures stay { PublishedStay }
    ensures join { GrowthsJoin }
{}

/// All seats of shelves without a lock know beginnings of one history. So a version that a worker's seat and the loader
/// both know to be published has the same image for both.
pub fn seats_know_one_history()
    ensures beginnings { SeatsKnowBeginnings }
    ensures agree { SeatsAgreeOnImages }
{}

/// Once a seat has taken in a notice of a version, each of its pins gives that version or a newer one, or is refused:
/// with `Moved`, whose version is newer, or with another fault.
pub fn joined_versions_stay()
    ensures { JoinedVersionsStay }
{}

/// The same of the calls of shelves without a lock, whatever their name. There a pin looks and takes, and what it holds
/// is what its last look found; it is refused only with `Moved`, or if the seat holds a version already.
pub fn joined_versions_stay_at_shelves()
    ensures { JoinedVersionsStayAtShelves }
{}
