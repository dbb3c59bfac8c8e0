//! Laws over what seats do to a table under a lock, and those of `shelves`. The functions do nothing: their contracts
//! are the laws.

ghost use Rattle.epochs.specs.TableLaws.{NewSeatsFit, PinsLeaveOthers, ReleasesLeaveOthers, PublishesLeaveSeats};
ghost use Rattle.epochs.specs.TableLaws.{CollectsLeaveSeats, PinsHoldPublished, CallsKeepPublished};

pub use shelves::laws::{
    joined_versions_stay, joined_versions_stay_at_shelves, pinned_images_are_left_alone,
    seats_know_one_history, versions_have_one_image,
};

/// A new seat fits a new table, and still does after what others do; after its own pins and releases it fits by their
/// contracts. So a seat that is used only at the table with which it was handed out is never lost.
pub fn seats_keep_fitting()
    ensures new { NewSeatsFit }
    ensures pins { PinsLeaveOthers }
    ensures releases { ReleasesLeaveOthers }
    ensures publishes { PublishesLeaveSeats }
    ensures collects { CollectsLeaveSeats }
{}

/// The image that a pin gave a seat is the one published as its version, and remains so whatever is done at the table.
pub fn held_images_stay_published()
    ensures held { PinsHoldPublished }
    ensures keep { CallsKeepPublished }
{}
