//! The plan of a load: the service days and the zone that a command line asks for.

ghost use Rattle.std.specs.Prelude.{◌≤◌, IfErr, IfOk};
ghost use Rattle.connections.specs.declared.days.TheConstants.{MAX_DAYS};
ghost use Rattle.feed_plans.specs.Planning.{IsPlanBy};
ghost use Rattle.feed_plans.specs.Zoning.{AreZoneBytes, IsNoPlan, IsPlanAskedBy, IsUnread, IsZoneUnread};

use crate::clock::{WallClock, instant};
use crate::plans::plan_at;
use command_requests::{PlanText, ZoneText};
use feed_loader::{LoadFault, Plan};
use image_files::{ImageDisk, bytes_at};
use std::io::ErrorKind;

/// Why there is no plan.
#[derive(Drop)]
pub enum PlanFailure<'a> {
    /// The text or the file of the zone is wrong.
    Refused(LoadFault),
    /// The zone's file, at this path, can't be read.
    Unreadable(&'a str),
    OutOfMemory,
}

/// The plan of a load that begins now, by one reading of the clock.
pub fn plan_of<'a, H: ImageDisk + AllocGlobal + WallClock>(
    rt: &H,
    asked: &PlanText<'a>,
) -> Result<Plan, PlanFailure<'a>>
    ensures plan { IfOk result (IsPlanAskedBy (H.may_hold rt.now) (H.may_show rt.now) asked.now) }
    ensures some { IfOk result (λ plan. 1 ≤ plan.days) }
    ensures few { IfOk result (λ plan. plan.days ≤ MAX_DAYS) }
    ensures refused { IfErr result (IsNoPlan (H.may_hold rt.now) (H.may_fail rt.now) asked.now) }
{
    match zone_and_plan(rt, asked) {
        Ok((_bytes, plan)) => Ok(plan),
        Err(failure) => Err(failure),
    }
}

/// The bytes of the zone's file, empty if the zone isn't a file, and the plan of a load that begins now, by one
/// reading of the clock.
pub fn zone_and_plan<'a, H: ImageDisk + AllocGlobal + WallClock>(
    rt: &H,
    asked: &PlanText<'a>,
) -> Result<(Vec<u8>, Plan), PlanFailure<'a>>
    ensures zone { IfOk result (λ made. AreZoneBytes (H.may_hold rt.now) asked.now.zone made.0.items) }
    ensures plan { IfOk result (λ made. IsPlanBy (H.may_show rt.now) asked.now made.0.items made.1) }
    ensures some { IfOk result (λ made. 1 ≤ made.1.days) }
    ensures few { IfOk result (λ made. made.1.days ≤ MAX_DAYS) }
    ensures refused { IfErr result (IsNoPlan (H.may_hold rt.now) (H.may_fail rt.now) asked.now) }
{
    let bytes = zone_bytes(rt, &asked.zone)?;
    match plan_at(rt.alloc(), asked, &bytes, instant(rt)) {
        Ok(plan) => Ok((bytes, plan)),
        Err(fault) => Err(PlanFailure::Refused(LoadFault::Day(fault))),
    }
}

// The bytes of the zone's file; empty, without a failure, if the zone isn't a file. Fails with `Unreadable` and the
// file's path if it can't be read, with `OutOfMemory` if there is no memory for its bytes.
fn zone_bytes<'a, H: ImageDisk + AllocGlobal>(
    rt: &H,
    zone: &ZoneText<'a>,
) -> Result<Vec<u8>, PlanFailure<'a>>
    ensures bytes { IfOk result (λ bytes. AreZoneBytes (H.may_hold rt.now) zone.now bytes.items) }
    ensures unread { IfErr result (IsZoneUnread (H.may_fail rt.now) zone.now) }
{
    match zone {
        ZoneText::Fixed(_) => Ok(Vec::new(rt.alloc())),
        ZoneText::Posix(_) => Ok(Vec::new(rt.alloc())),
        ZoneText::File(path) => match bytes_at(rt, path) {
            Ok(bytes) => Ok(bytes),
            Err(error) => Err(unread(error.kind(), path)),
        },
    }
}

// Why the file at a path isn't read, by the kind of the error.
fn unread<'a>(kind: ErrorKind, path: &'a str) -> PlanFailure<'a>
    ensures { IsUnread kind path.now result }
{
    match kind {
        ErrorKind::OutOfMemory => PlanFailure::OutOfMemory,
        _ => PlanFailure::Unreadable(path),
    }
}
