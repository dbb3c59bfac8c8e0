//! What the rule of the shelves says, and the steps that keep it, one by one. Functions without
//! arguments do nothing: their contracts are the laws.
ghost use Rattle.shelf_steps.specs.Laws.{WordsAreTheLoaders, WordsCountWorkers, NumbersDiffer, HeldHaveEditions};
ghost use Rattle.shelf_steps.specs.Laws.{SlotsOutAreHeld, SlotsAtHomeAreFilled};
ghost use Rattle.shelf_steps.specs.Laws.{HoldersSlotsAreOut, FreeSlotsAreTheLoaders};
ghost use Rattle.shelf_steps.specs.Laws.{HeldShelvesAreInUse, HeldShelvesStay};
ghost use Rattle.shelf_steps.specs.Laws.{LooksAreSo, OneSeatLoads, OneHistory, NoticesAreNoNewer, OneStateIsShown};
ghost use Rattle.shelf_steps.specs.Events.{LooksAreEvents, TakesAreEvents, DropsAreEvents, OpensAreEvents};
ghost use Rattle.shelf_steps.specs.Events.{PublishesAreEvents, ClosesAreEvents};
ghost use Rattle.shelf_steps.specs.Events.{CollectsAreEvents, SpareTriesAreEvents, NotesAreEvents, JoinsAreEvents};
ghost use Rattle.shelf_steps.specs.Events.{LateTakesTell, LateTakesRise};
ghost use Rattle.shelf_steps.specs.Steps.{StartIsRuled, HandingsAddNothing, LooksAdd, TakesAdd, LeavesAdd, GivingsAdd};
ghost use Rattle.shelf_steps.specs.Steps.{OpensAdd, PublishesAdd, ClosesAdd, CollectsAdd, GatheringsAdd, PuttingsAdd};

pub use crate::blocks::{empty_block, fill_block};
pub use crate::loader_steps::{close, collect, gather, open, publish, put_back};
pub use crate::noting::{join, note};
pub use crate::opening::{new_shelves, new_worker};
pub use crate::pinning::try_once;
pub use crate::worker_steps::{give_back, leave_late, look, take};

/// What holds of a table between any two steps.
pub fn the_rule_says()
    ensures words { WordsAreTheLoaders }
    ensures counts { WordsCountWorkers }
    ensures numbers { NumbersDiffer }
    ensures held { HeldHaveEditions }
    ensures out { SlotsOutAreHeld }
    ensures home { SlotsAtHomeAreFilled }
    ensures free { FreeSlotsAreTheLoaders }
    ensures looks { LooksAreSo }
    ensures loader { OneSeatLoads }
    ensures history { OneHistory }
    ensures notices { NoticesAreNoNewer }
{}

/// The words and what the seats know show exactly one state of the table of versions.
pub fn one_state_is_shown()
    ensures { OneStateIsShown }
{}

/// What a worker holds is left alone: its slot is out, so that no step can take it, and the loader has no slot of that
/// shelf; the shelf's word isn't one at which a collection frees the shelf; and no event has freed the shelf since the
/// holder's last step.
pub fn what_is_held_stays()
    ensures slot { HoldersSlotsAreOut }
    ensures in_use { HeldShelvesAreInUse }
    ensures never_freed { HeldShelvesStay }
{}

/// Each step keeps the rule, whatever the table is at that moment, and adds its own event, and no other, to the one
/// history; the seat that made the step then knows all of that history. At the start the rule holds with an empty
/// history, and handing out a seat adds no event. For notices see [`notices_are_events`].
pub fn each_step_keeps_the_rule()
    ensures start { StartIsRuled }
    ensures seat { HandingsAddNothing }
    ensures look { LooksAdd }
    ensures take { TakesAdd }
    ensures leave { LeavesAdd }
    ensures give_back { GivingsAdd }
    ensures open { OpensAdd }
    ensures publish { PublishesAdd }
    ensures close { ClosesAdd }
    ensures collect { CollectsAdd }
    ensures gather { GatheringsAdd }
    ensures put_back { PuttingsAdd }
{}

/// Each step is one event of the table of versions: the last that the seat then knows, with no event of the seat's own
/// between it and what the seat knew before.
pub fn each_step_is_its_event()
    ensures look { LooksAreEvents }
    ensures take { TakesAreEvents }
    ensures drop { DropsAreEvents }
    ensures open { OpensAreEvents }
    ensures publish { PublishesAreEvents }
    ensures close { ClosesAreEvents }
    ensures collect { CollectsAreEvents }
    ensures spare { SpareTriesAreEvents }
{}

/// A notice that goes out is one event, and so is taking one in, at whatever moment.
pub fn notices_are_events()
    ensures notes { NotesAreEvents }
    ensures joins { JoinsAreEvents }
{}

/// A look followed by a take that comes late proves that the version looked at is no longer
/// current, so that the next look finds a greater one.
pub fn a_late_take_tells()
    ensures tells { LateTakesTell }
    ensures rises { LateTakesRise }
{}
