//! Exit statuses.

/// The request was accepted.
pub const ACCEPTED: u8 = 0;
/// The image, the feed, the journey, the query or a line of a list of stops is refused; or a session of a server had
/// too many requests.
pub const REFUSED: u8 = 2;
/// A file couldn't be read or written, or a line couldn't be written; or a server couldn't listen or accept a session,
/// or one of its sessions failed.
pub const INPUT_OUTPUT: u8 = 3;
/// There was no memory, or a server's thread couldn't be started or was lost.
pub const OUT_OF_MEMORY: u8 = 4;
/// The command line asks for nothing that the program does, or for a table by a list that names no sets of stops.
pub const COMMAND_LINE: u8 = 64;
