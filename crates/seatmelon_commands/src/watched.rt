//! Devices that keep what an error message needs.
ghost use Rattle.std.specs.Prelude.{◌≡◌, ◌≤◌};

use std::io;
use std::io::{Read, Write};

// How many of the first bytes are kept.
const START: usize = 16;

/// A device that keeps its first bytes read, up to 16, and the error of its last call that failed.
#[derive(Drop)]
pub struct Watched<D> {
    device: D,
    start: [u8; START],
    len: usize,
    error: Option<io::Error>,
    ghost within: { len ≤ 16 },
}

impl<D> Watched<D> {
    ghost use Rattle.seatmelon_commands.specs.Watching.{device_of};

    /// The device, of which nothing was read.
    pub fn new(device: D) -> Watched<D>
        ensures { device_of result ≡ device }
    {
        Watched {
            device,
            start: [0; START],
            len: 0,
            error: None,
        }
    }

    /// The first bytes that were read.
    pub fn start(&self) -> &[u8] {
        &self.start[..self.len]
    }

    /// The error of the last call that failed.
    pub fn error(&self) -> Option<io::Error> {
        self.error
    }

    // Keeps these bytes, as far as there is room.
    fn keep(&mut self, bytes: &[u8])
        ensures { device_of self.new ≡ device_of self.old }
    {
        let count = bytes.len().min(START - self.len);
        let end = self.len + count;
        self.start[self.len..end].copy_from_slice(&bytes[..count]);
        self.len = end;
    }
}

impl<D: Read> Read for Watched<D> {
    ghost use Rattle.seatmelon_commands.specs.Watching.{device_of};

    ghost remaining = { λ w. D.remaining (device_of w) };

    fn read(&mut self, buf: &mut [u8]) -> io::Result<usize> {
        let outcome = self.device.read(buf);
        match outcome {
            Ok(n) => self.keep(&buf[..n]),
            Err(error) => self.error = Some(error),
        }
        outcome
    }
}

impl<D: Write> Write for Watched<D> {
    ghost use Rattle.seatmelon_commands.specs.Watching.{device_of};

    ghost contents = { λ w. D.contents (device_of w) };

    fn write(&mut self, buf: &[u8]) -> io::Result<usize> {
        let outcome = self.device.write(buf);
        if let Err(error) = outcome {
            self.error = Some(error);
        }
        outcome
    }

    fn flush(&mut self) -> io::Result<()> {
        let outcome = self.device.flush();
        if let Err(error) = outcome {
            self.error = Some(error);
        }
        outcome
    }
}
