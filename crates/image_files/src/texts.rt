//! Reads whole files into memory: lists of stops, zones.

ghost use Rattle.std.specs.Prelude.{◌≡◌, ◌≢◌, IfErr, IfOk, IfSome, length, string_bytes};
ghost use Rattle.std_io.specs.IoError.{error_kind};
ghost use Rattle.std_io.specs.declared.io.kind.ErrorKind.TheVariants.{OutOfMemory};
ghost use Rattle.image_files.specs.Texts.{IsNoTextAt, IsTextAt};

use crate::disk::ImageDisk;
use crate::reading::fill;
use crate::watching::WatchedRead;
use std::alloc::{AllocError, Global};
use std::io;
use std::io::ErrorKind;

/// Reads the file at a path, which has to be UTF-8. If it isn't, the kind of the error is `InvalidData`.
pub fn text_at<H: ImageDisk + AllocGlobal>(rt: &H, path: &str) -> io::Result<String>
    ensures text { IfOk result (λ text. IsTextAt (H.may_hold rt.now) path.now (string_bytes text)) }
    ensures failed { IfErr result (λ error. error_kind error ≢ OutOfMemory
        → IsNoTextAt (H.may_fail rt.now) (H.may_hold rt.now) path.now) }
{
    let bytes = bytes_at(rt, path)?;
    match String::from_utf8(bytes) {
        Ok(text) => Ok(text),
        Err(_) => Err(io::Error::from(ErrorKind::InvalidData)),
    }
}

/// Reads the bytes of the file at a path.
pub fn bytes_at<H: ImageDisk + AllocGlobal>(rt: &H, path: &str) -> io::Result<Vec<u8>>
    ensures bytes { IfOk result (λ bytes. IsTextAt (H.may_hold rt.now) path.now bytes.items) }
    ensures failed { IfErr result (λ error. error_kind error ≢ OutOfMemory → H.may_fail rt.now path.now) }
{
    let mut file = rt.image_file(path)?;
    bytes_of(rt.alloc(), &mut file)
}

/// How many bytes are read at once.
const PIECE_BYTES: usize = 65_536;

// Reads a reader to its end.
fn bytes_of<R: WatchedRead>(alloc: Global, reader: &mut R) -> io::Result<Vec<u8>>
    ensures bytes { IfOk result (λ bytes. IfSome (R.remaining reader.old) (λ held. bytes.items ≡ held)) }
    ensures failed { IfErr result (λ error. error_kind error ≢ OutOfMemory → R.may_fail reader.old) }
{
    let mut piece = new_piece(alloc, PIECE_BYTES)?;
    let mut bytes = Vec::new(alloc);
    'pieces: for _ in 0..u64::MAX {
        let count = fill(reader, &mut piece)?;
        bytes.extend_from_slice(&piece[..count])?;
        if count < piece.len() {
            return Ok(bytes);
        }
    }
    // no memory has room for so many pieces
    Err(io::Error::from(ErrorKind::OutOfMemory))
}

fn new_piece(alloc: Global, size: usize) -> Result<Vec<u8>, AllocError>
    ensures { IfOk result (λ piece. length piece.items ≡ size) }
{
    Ok(vec![in alloc; 0u8; size]?)
}
