//! How far a capture was read, for somebody who waits.
ghost use Rattle.std.specs.Prelude.{◌≡◌};

use std::io::Read;
use std::rt::Files;
use std::time::{Clock, Duration, Instant};
use std::{fs, io};

// How many seconds a reading lasts before it is told, and between two times.
const PERIOD: u64 = 1;

const MEGABYTE: u64 = 1_000_000;

/// A device that tells on standard error how many megabytes were read of it, once a second, in one line, which it clears
/// at the end.
#[derive(Drop)]
pub struct Progress<'r, D, R> {
    device: D,
    rt: &'r R,
    // How many bytes there are, if that is known.
    whole: Option<u64>,
    read: u64,
    // When the reading was told last, or began; none where it isn't told.
    last: Option<Instant>,
    has_line: bool,
}

/// How many bytes the file of that path has; none where it is a device or a pipe.
pub fn len_at<R: Files>(rt: &R, path: &str) -> Option<u64> {
    match fs::metadata(rt, path) {
        Ok(metadata) if metadata.is_file() => Some(metadata.len()),
        Ok(_) | Err(_) => None,
    }
}

impl<'r, D, R: Clock + Eprint> Progress<'r, D, R> {
    ghost use Rattle.seatmelon_commands.specs.Watching.{told_device_of};

    /// The device, of which nothing was read; `whole` is how many bytes it has, if that is known.
    pub fn new(rt: &'r R, device: D, whole: Option<u64>, is_told: bool) -> Progress<'r, D, R>
        ensures { told_device_of result ≡ device }
    {
        Progress {
            device,
            rt,
            whole,
            read: 0,
            last: if is_told { Instant::now(rt).ok() } else { None },
            has_line: false,
        }
    }

    // Whether the reading was told long enough ago, or began; it is told now, then.
    fn is_due(&mut self) -> bool
        ensures { told_device_of self.new ≡ told_device_of self.old }
    {
        let Some(last) = self.last else {
            return false;
        };
        let Ok(now) = Instant::now(self.rt) else {
            return false;
        };
        if now.duration_since(last) < Duration::from_secs(PERIOD) {
            return false;
        }
        self.last = Some(now);
        true
    }

    // Tells how many megabytes were read. Where standard error fails, the reading goes on.
    fn tell(&mut self)
        ensures { told_device_of self.new ≡ told_device_of self.old }
    {
        if !self.is_due() {
            return;
        }
        self.has_line = true;
        let read = self.read / MEGABYTE;
        let _ = match self.whole {
            Some(whole) => eprint!(self.rt; "\rread {read} of {} MB", whole / MEGABYTE),
            None => eprint!(self.rt; "\rread {read} MB"),
        };
    }

    // Clears the line, where one stands.
    fn clear(&mut self)
        ensures { told_device_of self.new ≡ told_device_of self.old }
    {
        if self.has_line {
            self.has_line = false;
            let _ = eprint!(self.rt; "\r\x1b[K");
        }
    }
}

impl<'r, D: Read, R: Clock + Eprint> Read for Progress<'r, D, R> {
    ghost use Rattle.seatmelon_commands.specs.Watching.{told_device_of};

    ghost remaining = { λ p. D.remaining (told_device_of p) };

    fn read(&mut self, buf: &mut [u8]) -> io::Result<usize> {
        let outcome = self.device.read(buf);
        match outcome {
            Ok(0) | Err(_) => self.clear(),
            Ok(n) => {
                self.read = self.read.saturating_add(n as u64);
                self.tell();
            }
        }
        outcome
    }
}
