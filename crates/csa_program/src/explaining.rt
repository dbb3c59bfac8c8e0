//! What standard error says of a feed that a server loads, or doesn't.

use feed_commands::explain_refused;
use feed_messages::explain;
use shelves::PublishFault;
use std::io::Write;
use std::rt::Files;
use workers::{LoadRefusal, LoadedVersion};

/// Explains why a feed isn't loaded. Unlike `Files`, this trait has no associated types, so it can be used on any
/// thread.
pub trait Explains {
    /// Says why the feed of a folder isn't loaded.
    fn explain_feed<E: Write>(&self, folder: &str, refusal: &LoadRefusal, errors: &mut E);
}

impl<H: Files + AllocGlobal> Explains for H {
    fn explain_feed<E: Write>(&self, folder: &str, refusal: &LoadRefusal, errors: &mut E) {
        match refusal {
            LoadRefusal::Load(fault) => explain_refused(self, folder, fault, errors),
            LoadRefusal::Publish(fault) => explain_unpublished(*fault, errors),
        }
    }
}

/// Says why an image isn't published, and what to do. The counts of all shelves are in the refusal.
fn explain_unpublished<E: Write>(fault: PublishFault, errors: &mut E) {
    let reason = match fault {
        PublishFault::ShelvesFull { .. } => {
            "sessions still hold seven older versions, which is the most: one is free once each session that holds it releases it or ends"
        }
        PublishFault::VersionsSpent => "the numbers of versions are used up: restart the server",
        PublishFault::OutOfMemory => return,
    };
    explain(errors, &["csa: ", reason]);
}

/// Warns of a feed that was loaded although none of its trips runs on the days of the plan: over its version no query
/// has a departure.
pub fn warn_of_idle_feed<'a, E: Write>(errors: &mut E, name: &'a str, loaded: &LoadedVersion) {
    if loaded.report.runs == 0 {
        let reason = ": no trip runs on these days, so no query has a departure";
        explain(errors, &["csa: warning: feed ", name, reason]);
    }
}
