//! The capture that a command reads: a file, or standard input.

use crate::progress::{Progress, len_at};
use seatmelon_failures::{DeviceFailure, unread};
use std::fs::File;
use std::io;
use std::io::{Input, Read};
use std::rt::Files;
use std::time::Clock;

/// The path by which standard input is named.
const STANDARD_INPUT: &str = "-";

/// What a capture is read from.
#[derive(Drop)]
pub enum CaptureInput<F, I> {
    File(F),
    StandardInput(I),
}

impl<F: Read, I: Read> Read for CaptureInput<F, I> {
    ghost use Rattle.seatmelon_commands.specs.CaptureInput.{remaining_in};

    ghost remaining = { remaining_in F.remaining I.remaining };

    fn read(&mut self, buf: &mut [u8]) -> io::Result<usize> {
        match self {
            CaptureInput::File(file) => file.read(buf),
            CaptureInput::StandardInput(input) => input.read(buf),
        }
    }
}

/// Opens the capture of that path; `-` is standard input.
pub fn open_capture<R: AllocGlobal + Files + Input>(
    rt: &R,
    path: &str,
) -> Result<CaptureInput<R::File, R::Reader>, DeviceFailure> {
    if path == STANDARD_INPUT {
        return Ok(CaptureInput::StandardInput(rt.reader()));
    }
    match File::open(rt, path) {
        Ok(file) => Ok(CaptureInput::File(file)),
        Err(error) => Err(unread(rt.alloc(), path, Some(error))),
    }
}

/// Opens it in the same way; if `is_told`, standard error is told how far it was read.
pub fn open_told<'r, R: AllocGlobal + Clock + Eprint + Files + Input>(
    rt: &'r R,
    path: &str,
    is_told: bool,
) -> Result<Progress<'r, CaptureInput<R::File, R::Reader>, R>, DeviceFailure> {
    let capture = open_capture(rt, path)?;
    let whole = match &capture {
        CaptureInput::File(_) => len_at(rt, path),
        CaptureInput::StandardInput(_) => None,
    };
    Ok(Progress::new(rt, capture, whole, is_told))
}
