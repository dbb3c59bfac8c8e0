//! The first fault of a query.

use timetable::{Query, QueryFault};

/// A query by its ends, its earliest and latest departure and its latest arrival.
fn query(words: [u32; 5]) -> Query {
    Query {
        source: words[0],
        target: words[1],
        from: words[2],
        until: words[3],
        by: words[4],
    }
}

/// The latest time that a query may have.
const LAST: u32 = 1_999_999_999;

/// Queries, each with its verdict over three stops.
const QUERIES: [([u32; 5], Result<(), QueryFault>); 13] = [
    ([0, 2, 28_800, 32_400, 36_000], Ok(())),
    ([0, 2, 28_800, 28_800, 28_800], Ok(())),
    ([0, 2, LAST, LAST, LAST], Ok(())),
    ([3, 2, 28_800, 32_400, 36_000], Err(QueryFault::UnknownStop)),
    ([0, 3, 28_800, 32_400, 36_000], Err(QueryFault::UnknownStop)),
    ([3, 3, 28_800, 32_400, 36_000], Err(QueryFault::UnknownStop)),
    ([3, 2, 28_800, 0, 36_000], Err(QueryFault::UnknownStop)),
    ([2, 2, 28_800, 32_400, 36_000], Err(QueryFault::SameStop)),
    ([2, 2, 28_800, 0, 36_000], Err(QueryFault::SameStop)),
    ([0, 2, 28_800, 28_799, 36_000], Err(QueryFault::BadWindow)),
    ([0, 2, 28_800, 32_400, 28_799], Err(QueryFault::BadWindow)),
    ([0, 2, 28_800, LAST + 1, 36_000], Err(QueryFault::BadWindow)),
    ([0, 2, 28_800, 32_400, LAST + 1], Err(QueryFault::BadWindow)),
];

#[test]
fn queries_are_checked(rt: HostRuntime) {
    for (words, answer) in QUERIES.iter() {
        assert_eq!(rt; query(*words).check(3), *answer);
    }
}

#[test]
fn faults_have_numbers_and_names(rt: HostRuntime) {
    for (fault, number, name) in [
        (QueryFault::UnknownStop, 31, "UnknownStop"),
        (QueryFault::SameStop, 32, "SameStop"),
        (QueryFault::BadWindow, 33, "BadWindow"),
    ] {
        assert!(rt; fault.number() == number && fault.name() == name, "{name}");
    }
}
