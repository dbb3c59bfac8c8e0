//! Where the records of a file begin, and what their columns hold.

use gtfs_rows::{Position, cell, column, find_record};
use std::alloc::{AllocError, Global};
use std::process::Abort;

// Files, the number of a record of each, and where that begins: its line and its byte. The header has 14 bytes.
const CASES: [(&[u8], u64, u64, u64); 12] = [
    (b"stop_id,level_\nA,1\nB,2\n", 0, 1, 0),
    (b"stop_id,level_\nA,1\nB,2\n", 2, 3, 19),
    (b"stop_id,level_\rA,1\rB,2\r", 2, 3, 19),
    (b"stop_id,level_\r\nA,1\r\nB,2\r\n", 2, 3, 21),
    (b"stop_id,level_\r\n\r\nA,1\n\n\nB,2", 2, 6, 24),
    (b"stop_id,level_\r\r\rA,1\rB,2", 1, 4, 17),
    (b"\xEF\xBB\xBFstop_id,level_\nA,1\n", 0, 1, 3),
    (b"\xEF\xBB\xBF\n\nstop_id,level_\nA,1\n", 0, 3, 5),
    (b"\xEF\xBB\xBFstop_id,level_\rA,1\r", 1, 2, 18),
    (b"stop_id,level_\n\"A\n\r\nx\",1\nB,2\n", 2, 5, 25),
    (b"stop_id,level_\n\"A\rx\",\"\r\"\rB,2\r", 2, 5, 25),
    (b"stop_id,level_\nA,\"1\nB,2\n", 1, 2, 15),
];

// Whether a record of a file begins in a line and at a byte.
fn begins_at(
    alloc: Global,
    bytes: &[u8],
    record: u64,
    line: u64,
    byte: u64,
) -> Result<bool, AllocError> {
    let Some(found) = find_record(alloc, bytes, record)? else {
        return Ok(false);
    };
    Ok(found.position == Position { record, line, byte })
}

#[test]
fn records_are_found(rt: HostRuntime) -> Result<(), AllocError> {
    for (bytes, record, line, byte) in CASES.iter() {
        assert!(rt; begins_at(rt.alloc(), bytes, *record, *line, *byte)?);
    }
    Ok(())
}

// Whether a file has no record of a number.
fn is_missing(alloc: Global, bytes: &[u8], record: u64) -> Result<bool, AllocError> {
    Ok(find_record(alloc, bytes, record)?.is_none())
}

#[test]
fn records_behind_the_last_are_none(rt: HostRuntime) -> Result<(), AllocError> {
    assert!(rt; is_missing(rt.alloc(), b"", 0)?);
    assert!(rt; is_missing(rt.alloc(), b"\xEF\xBB\xBF\r\n\n", 0)?);
    assert!(rt; is_missing(rt.alloc(), b"stop_id\nA\n\n", 2)?);
    Ok(())
}

// The value of the second record in the first column with a name, or `none`.
fn is_value(
    rt: &impl Abort,
    alloc: Global,
    name: &[u8],
    expected: &[u8],
) -> Result<bool, AllocError> {
    let bytes = b" a ,\"b\",a\n1,2,3\n \"x\" , y z ,\n";
    let Some(found) = find_record(alloc, bytes, 2)? else {
        return Ok(false);
    };
    assert!(rt; found.header.len() == 3 && found.record.len() == 3);
    Ok(cell(&found.record, column(&found.header, name)) == expected)
}

#[test]
fn values_by_the_names_of_columns(rt: HostRuntime) -> Result<(), AllocError> {
    assert!(rt; is_value(&rt, rt.alloc(), b"a", b"\"x\"")?);
    assert!(rt; is_value(&rt, rt.alloc(), b"b", b"y z")?);
    assert!(rt; is_value(&rt, rt.alloc(), b"c", b"")?);
    Ok(())
}
