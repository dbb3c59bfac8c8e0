//! Loads a feed: from files to tables, from tables to a feed, from a feed to its image.

ghost use Rattle.std.specs.Prelude.{◌≡◌, ◌≤◌, ◌+◌, IfOk, IfErr, OnOk, length};
ghost use Rattle.image_layout.specs.declared.layout.TheConstants.{LAYOUT};
ghost use Rattle.feed_files.specs.Reading.{Content};
ghost use Rattle.feed_files.specs.Reads.{AllWereRead, Shows, SomeWereRead, all_tables};
ghost use Rattle.connections.specs.declared.days.TheConstants.{MAX_DAYS};
ghost use Rattle.feed_loader.specs.Faults.{failed_by};
ghost use Rattle.feed_loader.specs.Refused.{IsLoadEnd, IsLoadRefusal, IsLoaded, IsWantOfMemory};

use crate::fault::LoadFault;
use crate::made::image_of;
use crate::plan::Plan;
use connections::Report;
use feed_files::{FeedFiles, read_tables};
use gtfs_tables::join;
use image_verifier::Verified;
use std::alloc::Global;

/// Returns the image of a feed's files (GTFS Schedule Reference), in the layout that is written, and the counts. Each
/// file is read and judged before the next is read; then the tables are joined, and the image is made of the feed. The
/// result is that of the bytes that were read in this call, whatever the files hold later.
///
/// # Errors
///
/// The first thing that is wrong, in that order. `FileFailed` comes exactly if the read of that file failed in this
/// call, and then no other read failed. Memory may run out at any time. However it ends, each file is asked for once at
/// most.
pub fn load<F: FeedFiles>(
    alloc: Global,
    files: &mut F,
    plan: &Plan,
) -> Result<(Verified, Report), LoadFault>
    requires some { 1 ≤ plan.now.days }
    requires few { plan.now.days ≤ MAX_DAYS }
    ensures same { F.words.holds files.new ≡ F.words.holds files.old }
    ensures once { F.words.asks files.new ≤ F.words.asks files.old + length all_tables }
    ensures failed { F.words.failed files.new ≡ failed_by (F.words.failed files.old) result }
    ensures layout { IfOk result (λ loaded. loaded.0.layout ≡ LAYOUT) }
    ensures all_read { OnOk result (AllWereRead (F.words.reads files.old) (F.words.reads files.new)) }
    ensures first_read { SomeWereRead (F.words.reads files.old) (F.words.reads files.new) }
    ensures ok { (content : Content) → Shows F.words files.old files.new content
        → IfOk result (λ loaded. IsLoaded content plan.now loaded.0.timetable loaded.0.names loaded.1) }
    ensures err { (content : Content) → Shows F.words files.old files.new content
        → IfErr result (λ fault. ¬ (IsWantOfMemory fault) → IsLoadRefusal content plan.now fault) }
    ensures end { (content : Content) → Shows F.words files.old files.new content
        → IfErr result (IsLoadEnd content plan.now) }
{
    let tables = read_tables(alloc, files)?;
    let feed = join(alloc, tables, plan.strict)?;
    image_of(alloc, &feed, plan)
}
