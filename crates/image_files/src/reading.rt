//! Reads words from bytes, piece by piece.

ghost use Rattle.std.specs.Prelude.{◌≡◌, ◌≢◌, ◌<◌, ◌≤◌, ◌%◌, ◌*◌, ◌^◌, length, take, ◌++◌};
ghost use Rattle.std.specs.Prelude.{IfErr, IfOk, OnOk, IfSome};
ghost use Rattle.std.specs.Io.KnownBytes.{Consumes, IsAtEnd};
ghost use Rattle.image_layout.specs.Text.{bytes_of};
ghost use Rattle.image_files.specs.Held.{HoldsOfBytes, IsLeftAlone, IsUnreadable};

use crate::disk::ImageDisk;
use crate::fault::ImageFileFault;
use crate::watching::{WatchedRead, is_interrupted};
use std::alloc::{AllocError, Global};
use std::fs::OpenFile;
use std::io;

/// How many words are read or written at once. So memory holds an image once, and not also as bytes.
pub(crate) const PIECE_WORDS: usize = 16_384;

/// Reads all words of the file at the path, or of the input if the path is `-`.
pub fn image_words<H: ImageDisk + AllocGlobal, I: WatchedRead>(
    rt: &H,
    path: &str,
    input: &mut I,
) -> Result<Vec<u32>, ImageFileFault>
    ensures spelled { IfOk result (λ words. HoldsOfBytes (H.may_hold rt.now) path.now (I.remaining input.old)
        (λ bytes. bytes_of words.items ≡ bytes)) }
    ensures odd { result ≡ Err ImageFileFault.OddLength
        → HoldsOfBytes (H.may_hold rt.now) path.now (I.remaining input.old) (λ bytes. length bytes % 4 ≢ 0) }
    ensures failed { result ≡ Err ImageFileFault.Unreadable
        → IsUnreadable (H.may_fail rt.now) path.now (I.may_fail input.old) }
    ensures input { IsLeftAlone path.now input.old input.new }
{
    let mut piece = new_piece(rt.alloc(), PIECE_WORDS)?;
    if path == "-" {
        return words_of(rt.alloc(), input, &mut piece, 0);
    }
    let mut file = rt.image_file(path)?;
    let ahead = match file.metadata() {
        Ok(metadata) => (metadata.len() / 4) as usize,
        Err(_) => 0,
    };
    words_of(rt.alloc(), &mut file, &mut piece, ahead)
}

/// Reads once, and again as long as the read is interrupted. Returns the number of bytes read.
fn read_some<R: WatchedRead>(reader: &mut R, piece: &mut [u8]) -> io::Result<usize>
    ensures within { IfOk result (λ n. n ≤ length piece.new) }
    ensures same { length piece.new ≡ length piece.old }
    ensures bytes { IfOk result (λ n. Consumes (R.remaining reader.old) (R.remaining reader.new) (take n piece.new)) }
    ensures end { IfOk result (λ n. n ≡ 0 → 0 < length piece.new → IsAtEnd (R.remaining reader.new)) }
    ensures failed { IfErr result (λ _. R.may_fail reader.old) }
    ensures later { R.may_fail reader.new → R.may_fail reader.old }
{
    let mut result = reader.read_once(piece);
    for _ in 0..u64::MAX {
        if !is_interrupted(&result) {
            return result;
        }
        result = reader.read_once(piece);
    }
    result
}

/// Reads until the piece is full or the reader ends. Returns the number of bytes read.
pub(crate) fn fill<R: WatchedRead>(reader: &mut R, piece: &mut [u8]) -> io::Result<usize>
    ensures within { IfOk result (λ n. n ≤ length piece.new) }
    ensures bytes { IfOk result (λ n. Consumes (R.remaining reader.old) (R.remaining reader.new) (take n piece.new)) }
    ensures end { IfOk result (λ n. n < length piece.new → IsAtEnd (R.remaining reader.new)) }
    ensures failed { IfErr result (λ _. R.may_fail reader.old) }
    ensures later { R.may_fail reader.new → R.may_fail reader.old }
{
    let mut at = 0;
    'pieces: while at < piece.len() {
        let count = read_some(reader, &mut piece[at..])?;
        if count == 0 {
            return Ok(at);
        }
        at += count;
    }
    Ok(at)
}

/// Reads a reader to its end, in pieces of whole words, and returns the words that its bytes spell, the
/// least significant byte first. Memory for `ahead` words is taken at the start.
fn words_of<R: WatchedRead>(
    alloc: Global,
    reader: &mut R,
    piece: &mut [u8],
    ahead: usize,
) -> Result<Vec<u32>, ImageFileFault>
    requires { length piece.old % 4 ≡ 0 }
    ensures spelled { IfOk result (λ words. IfSome (R.remaining reader.old) (λ bytes. bytes_of words.items ≡ bytes)) }
    ensures odd { result ≡ Err ImageFileFault.OddLength
        → IfSome (R.remaining reader.old) (λ bytes. length bytes % 4 ≢ 0) }
    ensures failed { result ≡ Err ImageFileFault.Unreadable → R.may_fail reader.old }
{
    let mut words = Vec::with_capacity(alloc, ahead)?;
    'pieces: for _ in 0..u64::MAX {
        let count = fill(reader, piece)?;
        if count % 4 != 0 {
            return Err(ImageFileFault::OddLength);
        }
        append_words(&mut words, &piece[..count])?;
        if count < piece.len() {
            return Ok(words);
        }
    }
    // no memory has room for the bytes of so many pieces
    Err(ImageFileFault::OutOfMemory)
}

/// A piece with room for this many words, as bytes.
fn new_piece(alloc: Global, words: usize) -> Result<Vec<u8>, AllocError>
    requires { 4 * words < 2 ^ 64 }
    ensures { IfOk result (λ piece. length piece.items ≡ 4 * words) }
{
    Ok(vec![in alloc; 0u8; 4 * words]?)
}

/// Adds the words that the bytes spell. Memory is requested at most once, and not at all if there is room.
fn append_words(words: &mut Vec<u32>, bytes: &[u8]) -> Result<(), AllocError>
    requires { length bytes.now % 4 ≡ 0 }
    ensures { OnOk result (bytes_of words.new.items ≡ bytes_of words.old.items ++ bytes.now) }
{
    let count = bytes.len() / 4;
    words.reserve(count)?;
    for i in 0..count {
        words.push_reserved(u32::from_le_bytes([
            bytes[4 * i],
            bytes[4 * i + 1],
            bytes[4 * i + 2],
            bytes[4 * i + 3],
        ]));
    }
    Ok(())
}
