//! Whichever growth is refused, the fault is that memory ran out. A refused growth ends the test with `AllocError`.

ghost use Rattle.std.specs.Prelude.{◌≡◌};

use gtfs_tables::{
    FaultKind, Feed, FrequencyRow, IdHash, Location, StopRow, StopTimeRow, StopTimes, Tables,
    TransferKind, TransferRow, TripRow, join, spread,
};
use indexmap::IndexSet;
use std::alloc::{AllocError, Global};

// A row of the only trip, at the only stop.
fn row(sequence: u32, time: Option<u32>) -> StopTimeRow
    ensures { result.arrival ≡ time }
{
    StopTimeRow {
        trip: 0,
        arrival: time,
        departure: None,
        stop: Some(0),
        sequence,
        board: true,
        alight: true,
    }
}

// A set with the blank id alone.
fn blank_id(alloc: Global) -> Result<IndexSet<String, IdHash>, AllocError> {
    let mut ids = IndexSet::with_hasher(alloc, IdHash::of_key(1));
    ids.insert_full(String::new(alloc))?;
    Ok(ids)
}

// The stop times of the only trip, the later one first.
fn stop_times(alloc: Global) -> Result<StopTimes, AllocError> {
    Ok(StopTimes {
        trips: blank_id(alloc)?,
        stops: blank_id(alloc)?,
        rows: Vec::from_slice(alloc, &[row(2, Some(28_860)), row(1, Some(28_800))])?,
    })
}

// A stop, a trip, a transfer and a row of frequencies, each in a list of its own. Their ids are blank, and so take
// little memory.
fn a_stop(alloc: Global) -> Result<Vec<StopRow>, AllocError> {
    let row = StopRow {
        id: String::new(alloc),
        location: Location::Stop,
        parent: String::new(alloc),
    };
    Ok(vec![in alloc; row]?)
}

fn a_trip(alloc: Global) -> Result<Vec<TripRow>, AllocError> {
    let row = TripRow {
        service: String::new(alloc),
        id: String::new(alloc),
    };
    Ok(vec![in alloc; row]?)
}

fn a_transfer(alloc: Global) -> Result<Vec<TransferRow>, AllocError> {
    let row = TransferRow {
        from: String::new(alloc),
        to: String::new(alloc),
        kind: TransferKind::Minimum,
        seconds: None,
    };
    Ok(vec![in alloc; row]?)
}

fn a_frequency(alloc: Global) -> Result<Vec<FrequencyRow>, AllocError> {
    let row = FrequencyRow {
        trip: String::new(alloc),
        start: 28_800,
        end: 32_400,
        headway: 600,
    };
    Ok(vec![in alloc; row]?)
}

fn tables(alloc: Global) -> Result<Tables, AllocError> {
    Ok(Tables {
        agencies: Vec::new(alloc),
        stops: a_stop(alloc)?,
        trips: a_trip(alloc)?,
        stop_times: stop_times(alloc)?,
        calendar: Vec::new(alloc),
        calendar_dates: Vec::new(alloc),
        transfers: a_transfer(alloc)?,
        frequencies: a_frequency(alloc)?,
    })
}

// How many stops, trips, stop times, transfers and frequencies a feed has.
fn counts(feed: &Feed) -> [usize; 5] {
    [
        feed.stops.len(),
        feed.trips.len(),
        feed.stop_times.len(),
        feed.transfers.len(),
        feed.frequencies.len(),
    ]
}

#[test]
fn refused_growth_of_a_feed(rt: HostRuntime) -> Result<(), AllocError> {
    match join(rt.alloc(), tables(rt.alloc())?, true) {
        Ok(feed) => {
            assert!(rt; counts(&feed) == [1, 1, 2, 1, 1]);
            Ok(())
        }
        Err(fault) => {
            assert!(rt; fault.kind == FaultKind::OutOfMemory);
            Err(AllocError)
        }
    }
}

// 08:00:00, two blank rows and 08:10:02 give 08:03:20 and 08:06:41.
#[test]
fn refused_growth_of_spread_times(rt: HostRuntime) -> Result<(), AllocError> {
    let rows = [
        row(1, Some(28_800)),
        row(2, None),
        row(3, None),
        row(4, Some(29_402)),
    ];
    let expected = [
        (28_800, 28_800),
        (29_000, 29_000),
        (29_201, 29_201),
        (29_402, 29_402),
    ];
    assert!(rt; spread(rt.alloc(), &rows)?.as_slice() == expected.as_slice());
    Ok(())
}
