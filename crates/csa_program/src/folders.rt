//! Whether the folders of a server's feeds are there.

use command_requests::NamedFolder;
use feed_messages::{explain, folder_fault};
use std::io::Write;
use std::rt::Files;

/// Warns of each feed of a server whose folder isn't there now. It may be there once the feed is loaded.
pub fn warn_of_folders<H: Files, E: Write>(rt: &H, feeds: &[NamedFolder<'_>], errors: &mut E) {
    for feed in feeds {
        if let Some(reason) = folder_fault(rt, feed.folder) {
            warn_of_folder(errors, feed.name, feed.folder, reason);
        }
    }
}

fn warn_of_folder<'a, E: Write>(errors: &mut E, name: &'a str, folder: &'a str, reason: &'a str) {
    explain(
        errors,
        &["csa: warning: feed ", name, ": ", folder, ": ", reason],
    );
}
