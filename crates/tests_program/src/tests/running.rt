//! One run of the program: words and input in, what it wrote and a status out.

pub(crate) use csa_program::Machine;
use csa_program::run;
use image_files::{ImageDisk, NameForm, WatchedWriter};
use std::io;
use std::io::{IsTerminal, Write};
use std::net::{Net, TcpListener, TcpStream};

/// What a command wrote, and its status.
#[derive(Drop)]
pub(crate) struct Outcome {
    pub(crate) status: u8,
    pub(crate) output: Vec<u8>,
    pub(crate) errors: Vec<u8>,
}

/// A writer that is no terminal.
#[derive(Drop)]
pub(crate) struct Plain<'a> {
    bytes: &'a mut Vec<u8>,
}

impl<'a> Plain<'a> {
    /// What is written is added to these bytes.
    pub(crate) fn of(bytes: &'a mut Vec<u8>) -> Plain<'a> {
        Plain { bytes }
    }
}

impl<'a> Write for Plain<'a> {
    fn write(&mut self, piece: &[u8]) -> io::Result<usize> {
        self.bytes.extend_from_slice(piece)?;
        Ok(piece.len())
    }

    fn flush(&mut self) -> io::Result<()> {
        Ok(())
    }
}

impl<'a> IsTerminal for Plain<'a> {
    fn is_terminal(&self) -> bool {
        false
    }
}

/// Runs the program, to whose output names are written in this form.
pub(crate) fn outcome_of<
    R: Machine + ImageDisk<Image = R::File> + Net<Listener = TcpListener, Stream = TcpStream>,
>(rt: &R, words: &[&str], bytes: &[u8], names: NameForm) -> Outcome {
    let mut input: &[u8] = bytes;
    let mut output = Vec::new(rt.alloc());
    let mut errors = Vec::new(rt.alloc());
    let status = run(
        rt,
        words,
        &mut input,
        &mut WatchedWriter::with_names(&mut output, names),
        &mut Plain::of(&mut errors),
    );
    Outcome {
        status,
        output,
        errors,
    }
}
