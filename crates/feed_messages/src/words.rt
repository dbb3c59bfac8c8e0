//! The words of messages on standard error, and what the file system says of a path.
//!
//! If a line can't be written, or there is no memory for it, nothing else changes.

use std::alloc::{AllocError, Global};
use std::fmt::Write as _;
use std::fs;
use std::fs::File;
use std::io::{ErrorKind, Write};
use std::path::Path;
use std::rt::Files;

/// How many bytes of a value are shown at most.
const LONGEST_SHOWN: usize = 60;

/// Writes the parts of a line, and an LF.
pub fn explain<E: Write>(errors: &mut E, parts: &[&str]) {
    for part in parts {
        if errors.write_all(part.as_bytes()).is_err() {
            return;
        }
    }
    let _ = errors.write_all(b"\n");
}

/// The system's reason in words, if it is one that a user can act on.
pub fn reason_of(kind: ErrorKind) -> &'static str {
    match kind {
        ErrorKind::NotFound => "no such file or folder",
        ErrorKind::PermissionDenied => "permission denied",
        ErrorKind::BrokenPipe => "the reader has closed the pipe",
        ErrorKind::FilesystemLoop => "its links lead in a circle",
        ErrorKind::IsADirectory => "it is a folder",
        ErrorKind::NotADirectory => "a part of its path is not a folder",
        ErrorKind::ReadOnlyFilesystem => "the file system is read-only",
        ErrorKind::StorageFull => "no space left on the device",
        ErrorKind::QuotaExceeded => "the disk quota is exceeded",
        ErrorKind::FileTooLarge => "the file would be too large",
        ErrorKind::InvalidFilename => "the name is too long",
        ErrorKind::AddrInUse => "it is in use",
        ErrorKind::ResourceBusy => "it is standard output, or is in use",
        ErrorKind::AlreadyExists => {
            "files of other runs are beside it, from .part to .part9: remove those of runs that have ended"
        }
        _ => "an input or output error",
    }
}

/// Why a file can't be read, as the system says when it is asked again. A pipe or a device isn't opened again.
pub fn unread_reason<H: Files>(rt: &H, path: &str) -> &'static str {
    let metadata = match fs::metadata(rt, path) {
        Ok(metadata) => metadata,
        Err(error) => return missing_reason(rt, path, error.kind()),
    };
    if metadata.is_dir() {
        return reason_of(ErrorKind::IsADirectory);
    }
    if !metadata.is_file() {
        return "it is a pipe, a socket or a device";
    }
    match File::open(rt, path) {
        Ok(_) => reason_of(ErrorKind::Other),
        Err(error) => reason_of(error.kind()),
    }
}

/// Why nothing is found at a path: there may be a broken link; otherwise by the kind of the error.
pub fn missing_reason<H: Files>(rt: &H, path: &str, kind: ErrorKind) -> &'static str {
    let is_missing = matches!(kind, ErrorKind::NotFound | ErrorKind::NotADirectory);
    if is_missing && Path::new(path).is_symlink(rt) {
        "it is a broken link"
    } else {
        reason_of(kind)
    }
}

/// A path as it is shown: an empty one in quotes.
pub fn shown_path(path: &str) -> &str {
    if path.is_empty() { "\"\"" } else { path }
}

/// A value as it is shown: in quotes, with control characters escaped, and cut if it is long.
pub fn quoted(alloc: Global, value: &[u8]) -> Result<String, AllocError> {
    let shown = shown_part(value);
    let end = if shown.len() < value.len() { " .." } else { "" };
    match str::from_utf8(shown) {
        Ok(text) => format!(in alloc; "{text:?}{end}"),
        Err(_) => quoted_bytes(alloc, shown, end),
    }
}

/// The part of a value that is shown, without a character that is cut off at its end.
fn shown_part(value: &[u8]) -> &[u8] {
    if value.len() <= LONGEST_SHOWN {
        return value;
    }
    let part = value.get(..LONGEST_SHOWN).unwrap_or(value);
    match str::from_utf8(part) {
        Err(error) if error.error_len().is_none() => {
            part.get(..error.valid_up_to()).unwrap_or(part)
        }
        _ => part,
    }
}

/// Bytes that aren't UTF-8, as they are shown.
fn quoted_bytes(alloc: Global, value: &[u8], end: &str) -> Result<String, AllocError> {
    let mut text = format!(in alloc; "\"")?;
    for byte in value {
        push_shown(&mut text, *byte)?;
    }
    write!(text, "\"{end}")?;
    Ok(text)
}

/// Adds a byte: printable ASCII as it is, with quotes and backslashes escaped, any other byte by its number.
fn push_shown(text: &mut String, byte: u8) -> Result<(), AllocError> {
    match byte {
        b'"' => text.push_str("\\\""),
        b'\\' => text.push_str("\\\\"),
        b' '..=b'~' => text.push(byte as char),
        _ => write!(text, "\\x{byte:02X}"),
    }
}

/// Whether there is a plain file at the path.
pub fn is_file<H: Files>(rt: &H, path: &str) -> bool {
    match fs::metadata(rt, path) {
        Ok(metadata) => metadata.is_file(),
        Err(_) => false,
    }
}

/// Whether there is a folder at the path.
pub fn is_folder<H: Files>(rt: &H, path: &str) -> bool {
    match fs::metadata(rt, path) {
        Ok(metadata) => metadata.is_dir(),
        Err(_) => false,
    }
}
