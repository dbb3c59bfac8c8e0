//! What a terminal is shown: text in which control characters are written by their codes.

ghost use Rattle.std.specs.Prelude.{◌≡◌, ◌<◌, ◌≤◌, IfOk, OnOk, false, length, take, true};
ghost use Rattle.std.specs.Io.{WritesAtMost};
ghost use Rattle.std.specs.Io.KnownBytes.{Appends, Keeps, WriteAppends};
ghost use Rattle.csa_program.specs.Showing.{IsPlain, byte_text, escape_text, hex_digit, is_held_after, is_low};
ghost use Rattle.csa_program.specs.Showing.{is_plain, is_upper, known_unless, left_text, lone_text, shown_text};

use std::io;
use std::io::Write;

/// A writer that writes control characters other than tabs and line feeds as `\u001b` if it leads to a terminal, as
/// JSON does, and all else as it is: an id of a feed could otherwise change what the terminal shows, or does.
#[derive(Drop)]
pub struct ShownWriter<W> {
    writer: W,
    is_terminal: bool,
    /// Whether the last byte is held back, as it may begin a control character.
    is_held: bool,
}

impl<W> ShownWriter<W> {
    /// Writes to the writer, which is a terminal or not.
    pub fn of(writer: W, is_terminal: bool) -> ShownWriter<W>
        ensures writer { result.writer ≡ writer }
        ensures kind { result.is_terminal ≡ is_terminal }
        ensures begins { result.is_held ≡ false }
    {
        ShownWriter {
            writer,
            is_terminal,
            is_held: false,
        }
    }
}

/// The first byte of each control character that has two bytes.
const LEAD: u8 = 0xC2;

impl<W: Write> Write for ShownWriter<W> {
    // what a terminal holds isn't what was written to it
    ghost contents = { λ shown. known_unless shown.is_terminal (W.contents shown.writer) };

    // However bytes are cut, what is shown is the text of all of them, as the law `shown_in_parts` says.
    fn write(&mut self, bytes: &[u8]) -> io::Result<usize>
        ensures bound { WritesAtMost result bytes.now }
        ensures bytes { WriteAppends (known_unless self.old.is_terminal (W.contents self.old.writer))
            (known_unless self.new.is_terminal (W.contents self.new.writer)) result bytes.now }
        ensures raw { self.old.is_terminal ≡ false
            → WriteAppends (W.contents self.old.writer) (W.contents self.new.writer) result bytes.now }
        ensures shown { self.old.is_terminal ≡ true → IfOk result (λ n. Appends (W.contents self.old.writer)
            (W.contents self.new.writer) (shown_text self.old.is_held (take n bytes.now))) }
        ensures held { self.old.is_terminal ≡ true → IfOk result (λ n.
            self.new.is_held ≡ is_held_after self.old.is_held (take n bytes.now)) }
        ensures kind { self.new.is_terminal ≡ self.old.is_terminal }
    {
        if !self.is_terminal {
            return self.writer.write(bytes);
        }
        let Some(byte) = bytes.first() else {
            return Ok(0);
        };
        if !self.is_held && is_plain(*byte) {
            return write_plain(&mut self.writer, bytes);
        }
        write_byte(&mut self.writer, self.is_held, *byte)?;
        self.is_held = *byte == LEAD;
        Ok(1)
    }

    // A byte that is held back is then written by its code.
    fn flush(&mut self) -> io::Result<()>
        ensures bytes { Keeps (known_unless self.old.is_terminal (W.contents self.old.writer))
            (known_unless self.new.is_terminal (W.contents self.new.writer)) }
        ensures shown { self.old.is_terminal ≡ true → OnOk result (Appends (W.contents self.old.writer)
            (W.contents self.new.writer) (left_text self.old.is_held)) }
        ensures held { OnOk result ((self.old.is_terminal ≡ true) → self.new.is_held ≡ false) }
        ensures kind { self.new.is_terminal ≡ self.old.is_terminal }
    {
        if self.is_terminal && self.is_held {
            write_escape(&mut self.writer, LEAD)?;
            self.is_held = false;
        }
        self.writer.flush()
    }
}

// Writes the first of the bytes that are shown as they are, with none before them held back.
fn write_plain<W: Write>(writer: &mut W, bytes: &[u8]) -> io::Result<usize>
    ensures bound { WritesAtMost result bytes.now }
    ensures shown { IfOk result (λ n. Appends (W.contents writer.old) (W.contents writer.new)
        (shown_text false (take n bytes.now)) × (is_held_after false (take n bytes.now) ≡ false)) }
{
    writer.write(&bytes[..plain_len(bytes)])
}

// Writes what is shown of a byte, before which one may be held back.
fn write_byte<W: Write>(writer: &mut W, is_held: bool, byte: u8) -> io::Result<()>
    ensures { OnOk result (Appends (W.contents writer.old) (W.contents writer.new) (byte_text is_held byte)) }
{
    if !is_held {
        return write_lone(writer, byte);
    }
    if is_upper(byte) {
        return write_escape(writer, byte);
    }
    writer.write_all(&[LEAD])?;
    write_lone(writer, byte)
}

// Writes what is shown of a byte before which none is held back: nothing if it is held back itself.
fn write_lone<W: Write>(writer: &mut W, byte: u8) -> io::Result<()>
    ensures { OnOk result (Appends (W.contents writer.old) (W.contents writer.new) (lone_text byte)) }
{
    if is_low(byte) {
        write_escape(writer, byte)
    } else if byte == LEAD {
        Ok(())
    } else {
        writer.write_all(&[byte])
    }
}

// Writes a control character, or the first byte of one, by its code.
fn write_escape<W: Write>(writer: &mut W, code: u8) -> io::Result<()>
    ensures { OnOk result (Appends (W.contents writer.old) (W.contents writer.new) (escape_text code)) }
{
    writer.write_all(&[
        b'\\',
        b'u',
        b'0',
        b'0',
        hex_digit(code / 16),
        hex_digit(code % 16),
    ])
}

fn hex_digit(number: u8) -> u8
    requires { number < 16 }
    ensures { result ≡ hex_digit number }
{
    if number < 10 {
        b'0' + number
    } else {
        b'a' - 10 + number
    }
}

/// How many bytes are looked through at once.
const MOST_BYTES: usize = 4096;

// How many of the bytes, at most 4096, are before the first that isn't shown as it is.
fn plain_len(bytes: &[u8]) -> usize
    ensures within { result ≤ length bytes.now }
    ensures plain { IsPlain bytes.now result }
{
    let mut count = 0;
    while count < bytes.len() && count < MOST_BYTES && is_plain(bytes[count]) {
        count += 1;
    }
    count
}

// Whether a byte is shown as it is if none before it is held back.
fn is_plain(byte: u8) -> bool
    ensures { result ≡ is_plain byte }
{
    !is_low(byte) && byte != LEAD
}

fn is_low(byte: u8) -> bool
    ensures { result ≡ is_low byte }
{
    byte < 9 || (10 < byte && byte < 32) || byte == 127
}

// Whether a byte is the second of a control character of two bytes, if the first is before it.
fn is_upper(byte: u8) -> bool
    ensures { result ≡ is_upper byte }
{
    128 <= byte && byte < 160
}
