//! The rule that holds between any two steps, and what each step tells the seat that makes it.

use crate::edition::Edition;
use crate::views::View;
use atomic_table::{Join, Play, Split, TableRule};
use image_verifier::Verified;
use std::alloc::Global;
use std::sync::Arc;

/// The rule of the shelves. At the start the loader's seat knows the first image.
pub struct ShelfRule;

impl TableRule<Option<Edition>, View, Arc<Verified, Global>> for ShelfRule {
    ghost use Rattle.std.specs.Arc.{arc_value};
    ghost use Rattle.shelf_steps.specs.Rule.{KeepsRule, first_loader_view};
    ghost use Rattle.shelf_steps.specs.declared.views.View.{View};

    ghost holds = { λ _. KeepsRule };

    ghost first = { λ image. View.Loading (first_loader_view (arc_value image)) };
}

/// The step by which a worker looks at the current version: the event `Look`.
pub struct Looking;

impl Play<Option<Edition>, View> for Looking {
    ghost use Rattle.shelf_steps.specs.Plays.{Looks};

    ghost then = { λ _. Looks };
}

/// The step by which a worker that has looked is counted at the shelf that it saw: the event `Take`. If the version was
/// still open there, the slot of that worker goes out with it; otherwise the worker is late.
pub struct Taking;

impl Play<Option<Edition>, View> for Taking {
    ghost use Rattle.shelf_steps.specs.Plays.{Takes};

    ghost then = { λ _. Takes };
}

/// The step by which a late worker leaves its shelf: the event `Drop`.
pub struct Leaving;

impl Play<Option<Edition>, View> for Leaving {
    ghost use Rattle.shelf_steps.specs.Plays.{Leaves};

    ghost then = { λ _ m _. Leaves m };
}

/// The step by which a holder leaves its shelf and puts its slot back, with the edition in it: the event `Drop`.
pub struct GivingBack;

impl Play<Option<Edition>, View> for GivingBack {
    ghost use Rattle.shelf_steps.specs.Plays.{GivesBack};

    ghost then = { λ _ m _. GivesBack m };
}

/// The step by which the loader opens a free shelf with the next version and puts its filled slots
/// back: the event `Open`.
pub struct Opening;

impl Play<Option<Edition>, View> for Opening {
    ghost use Rattle.shelf_steps.specs.Plays.{Opens};

    ghost then = { Opens };
}

/// The step by which the loader makes the version that it opened current: the event `Publish`.
pub struct Publishing;

impl Play<Option<Edition>, View> for Publishing {
    ghost use Rattle.shelf_steps.specs.Plays.{Publishes};

    ghost then = { Publishes };
}

/// The step by which the loader closes a shelf whose version is no longer current: the event `Close`.
pub struct Closing;

impl Play<Option<Edition>, View> for Closing {
    ghost use Rattle.shelf_steps.specs.Plays.{Closes};

    ghost then = { Closes };
}

/// The step by which the loader tries a closing shelf: the event `Collect`. If no worker is at the shelf, it is free
/// afterwards, and its slots are out with the loader.
pub struct Collecting;

impl Play<Option<Edition>, View> for Collecting {
    ghost use Rattle.shelf_steps.specs.Plays.{Collects};

    ghost then = { Collects };
}

/// The step by which the loader takes out the empty slots of a free shelf: the event `Collect`, answered with `NotNow`.
pub struct Gathering;

impl Play<Option<Edition>, View> for Gathering {
    ghost use Rattle.shelf_steps.specs.Plays.{Gathers};

    ghost then = { Gathers };
}

/// The step by which the loader puts back the empty slots of a free shelf: the event `Collect`, answered with `NotNow`.
pub struct PuttingBack;

impl Play<Option<Edition>, View> for PuttingBack {
    ghost use Rattle.shelf_steps.specs.Plays.{PutsBack};

    ghost then = { PutsBack };
}

/// The split of the loader's seat that gives the seat of an idle worker, with the next number. It is no event.
pub struct HandingOut;

impl Split<View> for HandingOut {
    ghost use Rattle.shelf_steps.specs.Plays.{keeps_loading, new_worker_view};

    ghost left = { keeps_loading };

    ghost right = { new_worker_view };
}

/// The split of the loader's seat that gives a notice of the current version: the event `Note`.
pub struct Noting;

impl Split<View> for Noting {
    ghost use Rattle.shelf_steps.specs.Plays.{gives_notice, new_notice};

    ghost left = { gives_notice };

    ghost right = { new_notice };
}

/// The join by which a worker's seat takes in a notice, which is then spent: the event `Join`.
pub struct Joining;

impl Join<View> for Joining {
    ghost use Rattle.shelf_steps.specs.Plays.{joins_notice};
    ghost use Rattle.shelf_steps.specs.declared.views.View.{View};

    ghost both = { joins_notice };

    ghost spent = { View.Spent };
}
