//! Time zones: of a fixed offset, of a POSIX rule, or of a time zone file.

ghost use Rattle.std.specs.Prelude.{◌≡◌, ◌≢◌, ◌↔◌, IsOk, IsSome, IfOk, IfErr, IsErrOf, false};
ghost use Rattle.std.specs.Result.{is_ok};
ghost use Rattle.jiff.specs.Types.{DateTime};
ghost use Rattle.jiff.specs.Words.{IsWithin, ambiguous_at, plain_zone, read_whole};
ghost use Rattle.jiff_core.specs.declared.error.Error.TheVariants.{OutOfMemory as Memory};
ghost use Rattle.jiff_tz.specs.TzifReader.{read_tzif};
ghost use Rattle.service_days.specs.Zones.{IsBadFile, IsFixedZone, IsRuleOf, IsTableOf, offsets_in};

use crate::fault::DayFault;
use jiff::tz::{Offset, TimeZone, Tzif};
use std::alloc::Global;

/// A time zone.
#[derive(Drop)]
pub enum Zone {
    /// A fixed offset or a POSIX rule, for all time.
    Rule(TimeZone<'static>),
    /// The table of a time zone file, owned by the zone.
    Table(Tzif),
}

impl Zone {
    /// Returns the zone whose clocks are always this many seconds ahead of UTC.
    pub fn fixed(seconds: i32) -> Zone
        requires { IsWithin 86_399 seconds }
        ensures { IsFixedZone seconds result }
    {
        match Offset::from_seconds(seconds) {
            Ok(offset) => Zone::Rule(TimeZone::fixed(offset)),
            Err(_) => unreachable!(),
        }
    }

    /// Returns the zone of a POSIX rule such as `CET-1CEST,M3.5.0,M10.5.0/3`; `BadZone` if the text isn't one.
    pub fn posix(text: &str) -> Result<Zone, DayFault>
        ensures succeeds { IsOk result ↔ IsSome (read_whole text.now) }
        ensures value { IfOk result (IsRuleOf text.now) }
        ensures err { IfErr result (λ fault. fault ≡ DayFault.BadZone) }
    {
        match TimeZone::posix(text) {
            Ok(zone) => Ok(Zone::Rule(zone)),
            Err(_) => Err(DayFault::BadZone),
        }
    }

    /// Returns the zone of a time zone file's bytes (TZif, RFC 9636). `BadZone` if they aren't such a file, or if the
    /// file's last rule disagrees with its table; `OutOfMemory` if memory ran out.
    pub fn file_bytes(alloc: Global, bytes: &[u8]) -> Result<Zone, DayFault>
        ensures value { IfOk result (IsTableOf bytes.now) }
        ensures unread { is_ok (read_tzif bytes.now) ≡ false → IsErrOf result DayFault.BadZone }
        ensures bad { IsErrOf result DayFault.BadZone → IsBadFile bytes.now }
        ensures range { ¬ (IsErrOf result DayFault.DayOutOfRange) }
    {
        match Tzif::parse(alloc, None, bytes) {
            Ok(table) => Ok(Zone::Table(table)),
            Err(error) => Err(file_fault(error)),
        }
    }

    // Returns the zone as a time zone of jiff.
    pub(crate) fn time_zone(&self) -> TimeZone<'_>
        ensures { (at : DateTime) → ambiguous_at (plain_zone result) at ≡ offsets_in self.entry.now at }
    {
        match self {
            Zone::Rule(zone) => *zone,
            Zone::Table(table) => TimeZone::tzif(table),
        }
    }
}

// Returns why a time zone file is refused.
fn file_fault(error: jiff::Error) -> DayFault
    ensures bad { result ≡ DayFault.BadZone → error ≢ Memory }
    ensures memory { result ≡ DayFault.OutOfMemory → error ≡ Memory }
    ensures range { result ≢ DayFault.DayOutOfRange }
{
    match error {
        jiff::Error::OutOfMemory => DayFault::OutOfMemory,
        _ => DayFault::BadZone,
    }
}
