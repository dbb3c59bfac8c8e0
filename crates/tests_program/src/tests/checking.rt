//! `csa verify` and `csa journey` over the sample image, changes of it, and bytes that are no image.

use crate::tests::running::{Machine, Plain};
use crate::tests::transcript::try_transcripts;
use csa_program::{ShownWriter, explain_no_words, print_sources, run};
use image_files::{ImageDisk, WatchedWriter};
use image_layout::{Words, sample_words};
use std::alloc::Global;
use std::io;
use std::io::{ErrorKind, Read, Write};
use std::net::{Net, TcpListener, TcpStream};
use std::test::Fail;

const IMAGES: &str = "
# The sample, from the input and from a file.
sample
run verify -
answers ok stops 3 trips 2 connections 3 footpaths 3
saves base.csa
run verify base.csa
answers ok stops 3 trips 2 connections 3 footpaths 3
remove base.csa

# Stops A, B and C with loops, no trips and no connections.
run verify -
image 1346458435 1 3 0 0 3 3 1705276800 0 0 1 2 3 0 0 1 0 2 0 0 1 2 3 4407873
answers ok stops 3 trips 0 connections 0 footpaths 3

# The words of connections 1 and 2 exchanged.
image 1346458435 1 3 2 3 3 7 1705276800 0 0 1 28800 29400 0 3 1 2 29520 30000 1 3 1 2 29400 30600 0 3 0 1 2 3 0 0 1 0 2 0 0 1 2 3 5 7 20240115 20240115 1413694017 3298353
answers refused 67 Unsorted 2

# A connection that arrives when it departs.
word 24 29520 | refused 66 HopWithoutDuration 2

# Footpaths from A to B and from B to C of 60 s, and none from A to C, one that takes too long, and one that doesn't.
image 1346458435 1 3 2 3 5 7 1705276800 0 0 1 28800 29400 0 3 1 2 29400 30600 0 3 1 2 29520 30000 1 3 0 1 3 5 0 0 0 60 1 0 1 60 2 0 0 1 2 3 5 7 20240115 20240115 1413694017 3298353
answers refused 74 NotClosed 0 1 2
image 1346458435 1 3 2 3 6 7 1705276800 0 0 1 28800 29400 0 3 1 2 29400 30600 0 3 1 2 29520 30000 1 3 0 1 3 6 0 0 0 60 1 0 0 121 1 60 2 0 0 1 2 3 5 7 20240115 20240115 1413694017 3298353
answers refused 74 NotClosed 0 1 2
set 38 120
answers ok stops 3 trips 2 connections 3 footpaths 6

# Of the sample's 188 bytes all but one, all but a word, and none.
sample
cut 188
answers ok stops 3 trips 2 connections 3 footpaths 3
cut 187
answers refused 51 OddLength
cut 184
answers refused 63 BadLength
cut 0
answers refused 63 BadLength

# More words than are read at once.
zeros 50001
cut 200003
answers refused 51 OddLength
cut 200000
answers refused 61 BadMagic
";

const JOURNEYS: &str = "
# By the change at B, and straight on.
sample
judge A C 07:00:00 09:00:00 10:00:00 ride 0 0 walk 1 1 0 ride 2 2 | ok dep 08:00:00 arr 08:20:00
judge A C 07:00:00 09:00:00 10:00:00 ride 0 1 | ok dep 08:00:00 arr 08:30:00

# No walk at the change; connections of two trips in one ride; a connection that isn't; no ride.
judge A C 07:00:00 09:00:00 10:00:00 ride 0 0 ride 2 2 | refused 85 WalkBroken 1
judge A C 07:00:00 09:00:00 10:00:00 ride 0 2 | refused 82 TwoTrips 0
run journey - 'ride 0 3' --from A --to C --after 07:00:00 --until 09:00:00 --by 10:00:00
tells csa: ride 0 (the first is ride 0): it has connections 0 to 3, and the image has 0 to 2
answers refused 81 LegRange 0
run journey - 'ride 1 0' --from A --to C --after 07:00:00 --until 09:00:00 --by 10:00:00
tells csa: ride 0 (the first is ride 0): its first connection, 1, is after its last one, 0
answers refused 81 LegRange 0
judge A C 07:00:00 09:00:00 10:00:00 walk 0 0 0 | refused 80 BadText

# A change at B that takes 121 s.
set 34 121
judge A C 07:00:00 09:00:00 10:00:00 ride 0 0 walk 1 1 121 ride 2 2 | refused 86 TooEarly 1
judge A C 07:00:00 09:00:00 10:00:00 ride 0 0 walk 1 1 0 ride 2 2 | refused 89 NoFootpath 1

# The query is judged before the text: its window, its stops, and first of all the forms of its words.
sample
run journey - 'no journey' --from A --to C --after 07:00:00 --until 06:00:00 --by 10:00:00
tells csa: --until is before --after
answers refused 33 BadWindow
run journey - 'no journey' --from A --to C --after 07:00:00 --until 07:00:00 --by 06:59:59
tells csa: --by is before --after
answers refused 33 BadWindow
run journey - 'no journey' --from A --to A --after 07:00:00 --until 09:00:00 --by 10:00:00
tells csa: --from and --to are the same stop
answers refused 32 SameStop
run journey - 'no journey' --from A --to D --after 07:00:00 --until 09:00:00 --by 10:00:00
tells csa: --to \"D\": no stop of the image has this stop_id \
(stations aren't stops: give a platform's stop_id, which `csa stops IMAGE TEXT` lists)
answers refused 31 UnknownStop
run journey - 'no journey' --from d --to C --after 07:00:00 --until 09:00:00 --by 10:00:00
tells csa: --from \"d\": no stop of the image has this stop_id \
(stations aren't stops: give a platform's stop_id, which `csa stops IMAGE TEXT` lists)
answers refused 31 UnknownStop
run journey - 'no journey' --from A --to D --after 07:00:00 --until 9:0:0 --by 10:00:00
complains 64
";

/// The status of `csa verify` over an input, whose lines go to an output.
fn verified<
    R: Machine + ImageDisk<Image = R::File> + Net<Listener = TcpListener, Stream = TcpStream>,
    I: Read,
    O: Write,
>(rt: &R, input: &mut I, output: &mut O, errors: &mut Vec<u8>) -> u8 {
    let mut watched = WatchedWriter::of(output);
    run(
        rt,
        &["csa", "verify", "-"],
        input,
        &mut watched,
        &mut Plain::of(errors),
    )
}

/// The status of `csa verify` over an image, if its output has room for so many bytes.
fn verified_into<
    R: Machine + ImageDisk<Image = R::File> + Net<Listener = TcpListener, Stream = TcpStream>,
>(rt: &R, image: &[u8], room: &mut [u8], errors: &mut Vec<u8>) -> u8 {
    let (mut input, mut output) = (image, room);
    verified(rt, &mut input, &mut output, errors)
}

/// A stream that fails.
#[derive(Drop)]
struct Failing {
    kind: ErrorKind,
}

impl Read for Failing {
    fn read(&mut self, _room: &mut [u8]) -> io::Result<usize> {
        Err(io::Error::from(self.kind))
    }
}

impl Write for Failing {
    fn write(&mut self, _piece: &[u8]) -> io::Result<usize> {
        Err(io::Error::from(self.kind))
    }

    fn flush(&mut self) -> io::Result<()> {
        Ok(())
    }
}

/// The status of `csa verify` over an input that can't be read.
fn verified_unread<
    R: Machine + ImageDisk<Image = R::File> + Net<Listener = TcpListener, Stream = TcpStream>,
>(rt: &R, errors: &mut Vec<u8>) -> u8 {
    let mut input = Failing {
        kind: ErrorKind::Other,
    };
    let mut room = [0u8; 4];
    let mut output: &mut [u8] = &mut room;
    verified(rt, &mut input, &mut output, errors)
}

/// If a line can't be written, the status and standard error tell so; the same holds if standard input can't be read,
/// which isn't called a file.
#[test]
fn streams_that_fail_are_reported(rt: HostRuntime) -> Result<(), Fail> {
    let image = Words::to_bytes(rt.alloc(), &sample_words())?;
    let mut errors = Vec::new(rt.alloc());
    let status = verified_into(&rt, &image, &mut [0u8; 4], &mut errors);
    let reported = "csa: standard output can't be written: an input or output error\n";
    assert!(rt; status == 3);
    assert!(rt; errors.as_slice() == reported.as_bytes());
    errors.clear();
    let status = verified_unread(&rt, &mut errors);
    let reported = "csa: standard input can't be read\n";
    assert!(rt; status == 3);
    assert!(rt; errors.as_slice() == reported.as_bytes());
    Ok(())
}

/// Whether printing the sum of the sources to an output gives this status, and this text on standard error.
fn is_reported_of_sources<O: Write>(
    alloc: Global,
    output: &mut O,
    status: u8,
    reported: &str,
) -> bool {
    let mut errors: Vec<u8> = Vec::new(alloc);
    let mut watched = WatchedWriter::of(output);
    let ended = print_sources("0123", &mut watched, &mut errors);
    ended == status && errors.as_slice() == reported.as_bytes()
}

const FULL: &str = "csa: standard output can't be written: no space left on the device\n";

/// The line of the sources is printed, or standard error says why it isn't; but nothing is said if nobody reads the
/// pipe.
#[test]
fn the_sum_of_the_sources_is_printed(rt: HostRuntime) {
    let alloc = rt.alloc();
    let mut printed: Vec<u8> = Vec::new(alloc);
    assert!(rt; is_reported_of_sources(alloc, &mut printed, 0, ""));
    assert!(rt; printed.as_slice() == "sources 0123\n".as_bytes());
    let mut full = Failing {
        kind: ErrorKind::StorageFull,
    };
    assert!(rt; is_reported_of_sources(alloc, &mut full, 3, FULL));
    let mut unread = Failing {
        kind: ErrorKind::BrokenPipe,
    };
    assert!(rt; is_reported_of_sources(alloc, &mut unread, 3, ""));
}

/// A terminal gets control characters by their codes; anything else gets them as they are.
#[test]
fn terminals_get_no_control_characters(rt: HostRuntime) -> io::Result<()> {
    let text = "Z\u{fc}rich\t\u{1b}[2J \u{9b}H \u{7f}\n";
    let mut held: Vec<u8> = Vec::new(rt.alloc());
    ShownWriter::of(&mut held, true).write_all(text.as_bytes())?;
    assert!(rt; held.as_slice() == "Z\u{fc}rich\t\\u001b[2J \\u009bH \\u007f\n".as_bytes());
    held.clear();
    ShownWriter::of(&mut held, false).write_all(text.as_bytes())?;
    assert!(rt; held.as_slice() == text.as_bytes());
    Ok(())
}

/// A terminal gets the same text byte by byte. The first byte of a control character waits for the second; at a flush
/// it is written by its code.
#[test]
fn terminals_get_the_same_of_single_bytes(rt: HostRuntime) -> io::Result<()> {
    let text = "Z\u{fc}rich\t\u{1b}[2J \u{9b}H \u{a9}\n";
    let mut held: Vec<u8> = Vec::new(rt.alloc());
    let mut shown = ShownWriter::of(&mut held, true);
    for byte in text.as_bytes() {
        shown.write_all(&[*byte])?;
    }
    shown.write_all(&[0xC2])?;
    shown.flush()?;
    shown.write_all(&[0xC2, 0xC2, 0x9B])?;
    let wanted = "Z\u{fc}rich\t\\u001b[2J \\u009bH \u{a9}\n\\u00c2";
    assert!(rt; held.len() == wanted.len() + 7);
    let (first, last) = held.split_at(wanted.len());
    assert!(rt; first == wanted.as_bytes());
    assert!(rt; last == b"\xC2\\u009b".as_slice());
    Ok(())
}

/// Standard error says why there are no words of a command line.
#[test]
fn words_that_cannot_be_read_are_reported(rt: HostRuntime) {
    let mut errors: Vec<u8> = Vec::new(rt.alloc());
    explain_no_words(&mut errors, 64);
    explain_no_words(&mut errors, 4);
    let reported = "csa: a word of the command line isn't UTF-8\ncsa: out of memory\n";
    assert!(rt; errors.as_slice() == reported.as_bytes());
}

const EXPLAINED: &str = "
# What is wrong with an image, and where.
sample
cut 3
run verify -
tells csa: standard input: its size isn't a multiple of four bytes: it was cut off, or isn't an image
answers refused 51 OddLength
cut 184
tells csa: standard input: its size isn't the one that its header says: it is empty, was cut off, or isn't an image
answers refused 63 BadLength
zeros 50
tells csa: standard input: it isn't an image made by `csa build`: it doesn't begin like one
answers refused 61 BadMagic
sample
set 1 3
run verify -
tells csa: standard input: its layout is neither 1 nor 2: use the csa that built it, or build it again
answers refused 62 BadLayout
sample
set 9 4294967295
run verify -
tells csa: standard input: connection 0 leaves or reaches a stop that the image doesn't have; \
it is damaged, or wasn't made by `csa build`
answers refused 64 StopRange 0
saves bad.csa
run stops bad.csa
tells csa: bad.csa: connection 0 leaves or reaches a stop that the image doesn't have; \
it is damaged, or wasn't made by `csa build`
answers refused 64 StopRange 0
remove bad.csa
run verify -
sample
set 13 4294967295
tells csa: standard input: connection 0 is of a trip that the image doesn't have; \
it is damaged, or wasn't made by `csa build`
answers refused 65 TripRange 0
sample
set 24 29520
tells csa: standard input: connection 2 arrives no later than it departs; \
it is damaged, or wasn't made by `csa build`
answers refused 66 HopWithoutDuration 2
sample
set 17 28799
tells csa: standard input: connection 1 departs earlier than the connection before it; \
it is damaged, or wasn't made by `csa build`
answers refused 67 Unsorted 1
sample
set 17 29399
tells csa: standard input: connection 1 leaves another stop than the one that its trip has reached, \
or leaves it too early; it is damaged, or wasn't made by `csa build`
answers refused 68 TripBroken 1
sample
set 12 2000000000
tells csa: standard input: connection 0 has a time past 555555:33:19, the last second that an image can have; \
it is damaged, or wasn't made by `csa build`
answers refused 69 TimeRange 0
sample
set 26 4
tells csa: standard input: connection 2 has a flag that is neither 1, for boarding, nor 2, for alighting; \
it is damaged, or wasn't made by `csa build`
answers refused 70 BadFlags 2
sample
set 27 1
tells csa: standard input: footpaths into stop 0: their index is wrong, or one is from an unknown stop or longer than \
1000000 seconds; it is damaged, or wasn't made by `csa build`
answers refused 71 FootRange 0
sample
set 30 2
tells csa: standard input: footpaths into stop 2: none leaves that stop itself; \
it is damaged, or wasn't made by `csa build`
answers refused 73 NoLoop 2
sample
set 46 4294967295
tells csa: standard input: name 3 isn't UTF-8, or its place in the text is wrong \
(stop_ids come first, then trip_ids); it is damaged, or wasn't made by `csa build`
answers refused 75 BadNames 3
image 1346458435 1 2 0 0 4 0 0 0 0 2 4 1 5 0 0 0 5 1 0 0 0 0
tells csa: standard input: footpaths into stop 0: they aren't in the order of the stops that they leave, each once; \
it is damaged, or wasn't made by `csa build`
answers refused 72 FootUnsorted 0
image 1346458435 1 3 0 0 6 0 0 0 0 2 4 6 0 0 1 5 1 0 2 5 0 5 2 0 0 0 0 0
tells csa: standard input: footpaths lead from stop 2 to stop 1 and on to stop 0, \
and none from the first to the last is as short; it is damaged, or wasn't made by `csa build`
answers refused 74 NotClosed 2 1 0

# What is wrong with a journey, and in which ride or walk.
sample
run journey - 'ride 0 2' --from A --to C --after 07:00:00 --until 09:00:00 --by 10:00:00
tells csa: ride 0 (the first is ride 0): its first and its last connection are of different trips
answers refused 82 TwoTrips 0
run journey - 'ride 0 0 ride 2 2' --from A --to C --after 07:00:00 --until 09:00:00 --by 10:00:00
tells csa: walk 1 (walk 0 is the one before the first ride): it doesn't lead from where the ride before it ends to where \
the next departs; a change is a walk, even at one stop and of 0 seconds
answers refused 85 WalkBroken 1
run journey - 'walk 0 0 0' --from A --to C --after 07:00:00 --until 09:00:00 --by 10:00:00
tells csa: a journey is rides and walks by number, as `csa profile` prints them without --names: \
`ride FIRST LAST`, `walk FROM TO SECS`, one space between words, at least one ride
answers refused 80 BadText
run journey - 'ride 0 1' --from A --to C --after 07:00:00 --until 07:30:00 --by 10:00:00
tells csa: the journey departs before --after or after --until, or arrives after --by
answers refused 88 OutsideWindow
";

#[test]
fn images_and_journeys_are_judged(rt: HostRuntime) -> Result<(), Fail> {
    try_transcripts(&rt, &[IMAGES, JOURNEYS, EXPLAINED])
}
