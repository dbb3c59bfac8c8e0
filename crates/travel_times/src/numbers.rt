//! Numbers and times as the fields of a row, written without any memory but a buffer of the caller's.

ghost use Rattle.std.specs.Prelude.{◌≡◌, ◌≤◌, ◌<◌, ◌+◌, ◌++◌, ◌∷◌, decimal, drop, length};
ghost use Rattle.timetable.specs.Clocks.{clock_bytes, colon, two_digits};
ghost use Rattle.travel_times.specs.Fields.{clock_field, number_field};

use itoa::{Buffer, write_digits};

/// The most bytes that the clock of 32 bits of seconds has: seven digits of hours, and six bytes more.
const LONGEST_CLOCK: usize = 13;

/// What the text of a clock is written into.
#[derive(Clone, Copy)]
pub(crate) struct ClockBuffer {
    bytes: [u8; LONGEST_CLOCK],
}

impl ClockBuffer {
    pub(crate) fn new() -> ClockBuffer {
        ClockBuffer {
            bytes: [b'0'; LONGEST_CLOCK],
        }
    }

    /// A time as a clock, or an empty text.
    pub(crate) fn field(&mut self, time: Option<u32>) -> &[u8]
        ensures { result.now ≡ clock_field time }
    {
        match time {
            Some(time) => {
                let start = write_clock(&mut self.bytes, time);
                &self.bytes[start..]
            }
            None => b"",
        }
    }
}

/// A number in decimal digits, or an empty text.
pub(crate) fn number_field(buffer: &mut Buffer, number: Option<u64>) -> &[u8]
    ensures { result.now ≡ number_field number }
{
    match number {
        Some(number) => buffer.format(number).as_bytes(),
        None => b"",
    }
}

// Writes a clock so that it ends where the bytes do, and returns where it starts.
fn write_clock(bytes: &mut [u8], time: u32) -> usize
    requires { 13 ≤ length bytes.old }
    ensures start { result ≤ length bytes.old }
    ensures written { drop result bytes.new ≡ clock_bytes time }
{
    let seconds = write_two(bytes, time % 60, bytes.len());
    let minutes = write_before_colon(bytes, time / 60 % 60, seconds);
    write_before_colon(bytes, time / 3600, minutes)
}

// Writes a number of at least two digits and a colon so that they end at `end`, and returns where they start.
fn write_before_colon(bytes: &mut [u8], number: u32, end: usize) -> usize
    requires room { length (two_digits number) + 1 ≤ end }
    requires within { end ≤ length bytes.old }
    ensures start { result + length (two_digits number) + 1 ≡ end }
    ensures written { drop result bytes.new ≡ two_digits number ++ colon ∷ drop end bytes.old }
    ensures long { length bytes.new ≡ length bytes.old }
{
    bytes[end - 1] = b':';
    write_two(bytes, number, end - 1)
}

// Writes a number of at least two digits so that they end at `end`, and returns where they start.
fn write_two(bytes: &mut [u8], number: u32, end: usize) -> usize
    requires room { length (two_digits number) ≤ end }
    requires within { end ≤ length bytes.old }
    ensures start { result + length (two_digits number) ≡ end }
    ensures written { drop result bytes.new ≡ two_digits number ++ drop end bytes.old }
    ensures long { length bytes.new ≡ length bytes.old }
{
    let start = write_digits(u64::from(number), bytes, end);
    if number < 10 {
        bytes[start - 1] = b'0';
        return start - 1;
    }
    start
}
