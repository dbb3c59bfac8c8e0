//! Where the fields of an image are, and words as bytes.

ghost use Rattle.std.specs.Prelude.{◌≡◌, ◌<◌, ◌+◌, length};
ghost use Rattle.image_layout.specs.Offsets.{IsWhole, header_of};
ghost use Rattle.image_layout.specs.Shown.{name_of};

use image_layout::layout::{FIRST_LAYOUT, LAYOUT, MAGIC, is_layout};
use image_layout::*;
use std::alloc::{AllocError, Global};
use std::process::Abort;
use std::test::*;
use timetable::{Connection, Names, Timetable};

// The words of a small image in a layout, with the given repeats before the text.
macro_rules! words_in {
    ($layout:literal $(, $repeat:literal)*) => {
        [
            0x50415343, $layout, 2, 2, 3, 4, 9, 4294880896, 4294967295,
            0, 1, 10, 20, 1, 1, 1, 0, 30, 50, 1, 2, 1, 0, 40, 60, 0, 3,
            0, 2, 4,
            0, 120, 1, 300, 0, 240, 1, 90,
            0, 0, 4, 6, 9,
            19691231, 19700101,
            $($repeat,)*
            0x74726f50, 0x42413231, 0x43,
        ]
    };
}

/// An image of two stops: its connections are flagged 1, 2 and 3, its base is before 1970, and one
/// of its names is empty.
fn early_words() -> [u32; 48]
    ensures whole { IsWhole result }
    ensures counts { header_of result ≡ record {
      layout = 1;
      stops = 2;
      trips = 2;
      connections = 3;
      footpaths =
          4;
      name_bytes = 9;
    } }
    ensures port { length (name_of result 1) ≡ 4 }
{
    words_in!(1)
}

/// The same image in the current layout, with repeats 5 and 0.
fn repeated_words() -> [u32; 50]
    ensures whole { IsWhole result }
    ensures counts { header_of result ≡ record {
      layout = 2;
      stops = 2;
      trips = 2;
      connections = 3;
      footpaths =
          4;
      name_bytes = 9;
    } }
    ensures port { length (name_of result 1) ≡ 4 }
{
    words_in!(2, 5, 0)
}

/// Its connections.
fn early_connections() -> [Connection; 3] {
    [
        Connection {
            from: 0,
            to: 1,
            dep: 10,
            arr: 20,
            trip: 1,
            board: true,
            alight: false,
        },
        Connection {
            from: 1,
            to: 0,
            dep: 30,
            arr: 50,
            trip: 1,
            board: false,
            alight: true,
        },
        Connection {
            from: 1,
            to: 0,
            dep: 40,
            arr: 60,
            trip: 0,
            board: true,
            alight: true,
        },
    ]
}

/// The six words of a connection, each read by itself. Bit 0 of the last word says that one may board, bit 1 that one
/// may alight.
fn six_words(words: &[u32], i: usize) -> [u32; 6]
    requires whole { IsWhole words.now }
    requires within { i < (header_of words.now).connections }
{
    [
        from_at(words, i),
        to_at(words, i),
        dep_at(words, i),
        arr_at(words, i),
        trip_at(words, i),
        flags_at(words, i),
    ]
}

#[test]
fn connections_are_read(rt: HostRuntime) {
    let words = early_words();
    let wanted = early_connections();
    let fields = [
        [0, 1, 10, 20, 1, 1],
        [1, 0, 30, 50, 1, 2],
        [1, 0, 40, 60, 0, 3],
    ];
    for i in 0..3 {
        assert!(rt; connection_at(&words, i) == wanted[i]);
        let reported = six_words(&words, i);
        assert!(rt; reported == fields[i]);
        assert!(rt; wanted[i].board == (reported[5] % 2 == 1));
        assert!(rt; wanted[i].alight == (reported[5] / 2 == 1));
    }
}

/// The second name, of four bytes.
fn second_name(words: &[u32]) -> [u8; 4]
    requires whole { IsWhole words.now }
    requires names { 1 < (header_of words.now).stops + (header_of words.now).trips }
    requires port { length (name_of words.now 1) ≡ 4 }
{
    [
        name_byte_at(words, 1, 0),
        name_byte_at(words, 1, 1),
        name_byte_at(words, 1, 2),
        name_byte_at(words, 1, 3),
    ]
}

/// The days of two trips, and their repeats.
fn days_and_repeats(words: &[u32]) -> [(u32, u32); 2]
    requires whole { IsWhole words.now }
    requires trips { (header_of words.now).trips ≡ 2 }
{
    [
        (day_at(words, 0), repeat_at(words, 0)),
        (day_at(words, 1), repeat_at(words, 1)),
    ]
}

#[test]
fn other_fields_are_read(rt: HostRuntime) {
    let words = early_words();
    assert!(rt; magic_at(&words) == MAGIC);
    assert!(rt; layout_at(&words) == FIRST_LAYOUT);
    assert!(rt; base_at(&words) == -86400);
    assert!(rt; second_name(&words) == *b"Port");
    assert!(rt; days_and_repeats(&words) == [(19691231, 0), (19700101, 0)]);
}

/// Where the footpaths into each of two stops begin and end, and what each footpath is.
#[test]
fn footpaths_are_read(rt: HostRuntime) {
    let words = early_words();
    for stop in 0..3 {
        assert!(rt; foot_index_at(&words, stop) == [0, 2, 4][stop]);
    }
    for index in 0..4 {
        assert!(rt; foot_from_at(&words, index) == [0, 1, 0, 1][index]);
        assert!(rt; foot_secs_at(&words, index) == [120, 300, 240, 90][index]);
    }
}

/// Where each of four names begins, and where the last one ends.
#[test]
fn names_begin_at_their_bytes(rt: HostRuntime) {
    let words = early_words();
    for name in 0..5 {
        assert!(rt; name_index_at(&words, name) == [0, 0, 4, 6, 9][name]);
    }
}

#[test]
fn repeats_are_read(rt: HostRuntime) {
    let words = repeated_words();
    assert!(rt; layout_at(&words) == LAYOUT);
    assert!(rt; days_and_repeats(&words) == [(19691231, 5), (19700101, 0)]);
    assert!(rt; second_name(&words) == *b"Port");
}

#[test]
fn two_layouts_are_read(rt: HostRuntime) {
    for (number, wanted) in [(0, false), (1, true), (2, true), (3, false)] {
        assert_eq!(rt; is_layout(number), wanted);
    }
}

/// Where the sections behind the connections begin, and how many words there are.
fn sections(header: &Header) -> [usize; 7] {
    [
        header.foot_index_offset(),
        header.footpath_offset(),
        header.name_index_offset(),
        header.day_offset(),
        header.repeat_offset(),
        header.text_offset(),
        header.word_count(),
    ]
}

#[test]
fn sections_stand_in_their_order(rt: HostRuntime) {
    let header = Header::of(&early_words());
    assert!(rt; sections(&header) == [27, 30, 38, 43, 45, 45, 48]);
    let header = Header::of(&repeated_words());
    assert!(rt; sections(&header) == [27, 30, 38, 43, 45, 47, 50]);
}

/// How many words the bytes give, if these begin the sample; otherwise the number of the fault.
fn given(alloc: Global, bytes: &[u8]) -> Result<usize, u8> {
    match Words::from_bytes(alloc, bytes) {
        Ok(words) => {
            if sample_words().starts_with(&words) {
                Ok(words.len())
            } else {
                Err(0)
            }
        }
        Err(fault) => Err(fault.number()),
    }
}

/// Bytes from the beginning of the sample give its words, and other bytes are refused.
fn assert_given(rt: &impl Abort, alloc: Global, bytes: &[u8]) {
    assert!(rt; bytes.len() == 188);
    assert!(rt; bytes.starts_with(b"CSAP\x01\x00\x00\x00"));
    for (size, wanted) in [(0, Ok(0)), (184, Ok(46)), (187, Err(51)), (188, Ok(47))] {
        assert_eq!(rt; given(alloc, &bytes[..size]), wanted, "{size} bytes");
    }
}

#[test]
fn bytes_and_back(rt: HostRuntime) -> Result<(), Fail> {
    let bytes = Words::to_bytes(rt.alloc(), &sample_words())?;
    assert_given(&rt, rt.alloc(), &bytes);
    Ok(())
}

/// How many connections, footpaths, stops and trips a timetable has, and how many stops and trips have names.
fn counts(timetable: &Timetable, names: &Names) -> [usize; 6] {
    [
        timetable.connections.len(),
        timetable.footpaths.len(),
        timetable.stops as usize,
        timetable.trips as usize,
        names.stops.len(),
        names.trips.len(),
    ]
}

#[test]
fn sample_is_given(rt: HostRuntime) -> Result<(), AllocError> {
    let timetable = sample_timetable(rt.alloc())?;
    let names = sample_names(rt.alloc())?;
    assert!(rt; counts(&timetable, &names) == [3, 3, 3, 2, 3, 2]);
    Ok(())
}

#[test]
fn faults_have_numbers_names_and_messages(rt: HostRuntime) -> Result<(), AllocError> {
    let odd = WordsFault::OddLength;
    assert!(rt; odd.number() == 51 && odd.name() == "OddLength");
    let wanting = WordsFault::OutOfMemory;
    assert!(rt; wanting.number() == 52 && wanting.name() == "OutOfMemory");
    let message = format!(in rt.alloc(); "{odd}")?;
    assert!(rt; message.as_str() == "the number of bytes is not a multiple of four");
    Ok(())
}

/// Whichever growth is refused, the error is that memory ran out; otherwise the words come back. A refused growth ends
/// the test with `AllocError`.
#[test]
fn refused_growth_is_reported(rt: HostRuntime) -> Result<(), AllocError> {
    let bytes = Words::to_bytes(rt.alloc(), &sample_words())?;
    let reported = given(rt.alloc(), &bytes);
    if reported == Err(WordsFault::OutOfMemory.number()) {
        return Err(AllocError);
    }
    assert_eq!(rt; reported, Ok(47));
    Ok(())
}
