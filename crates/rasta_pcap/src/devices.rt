//! Readers and writers for trials: over memory, in small pieces, and with a call that goes wrong.
ghost use Rattle.std.specs.Prelude.{◌≡◌, ◌≢◌, ℕ, ◌-◌, ◌<◌, min, List, Some, Result, length};
ghost use Rattle.std.specs.Io.{ReadsAtMost, WritesAtMost};
ghost use Rattle.std.specs.Io.KnownBytes.{ReadConsumes, WriteAppends};
ghost use Rattle.std.specs.declared.io.Error.{Error};
ghost use Rattle.rasta_pcap.specs.FailAt.{GoesWrong, GrowsOrKeeps};

use std::io;
use std::io::{ErrorKind, Read, Write};

/// A reader of which contracts know what a read may give.
pub trait ReadDevice: Read {
    /// What a read may give: from the reader and the buffer, the answer, and the buffer and the
    /// reader then.
    ghost read_gives: { Self → List ℕ → Result ℕ Error → List ℕ → Self → Type 0 };

    /// One read of it.
    fn read_once(&mut self, buf: &mut [u8]) -> io::Result<usize>
        ensures bound { ReadsAtMost result buf.new }
        ensures bytes { ReadConsumes (Self.remaining self.old) (Self.remaining self.new) result buf.new }
        ensures gives { read_gives self.old buf.old result buf.new self.new };
}

/// A writer of which contracts know what a write may give.
pub trait WriteDevice: Write {
    /// What a write may give: from the writer and the bytes, the answer, and the writer then.
    ghost write_gives: { Self → List ℕ → Result ℕ Error → Self → Type 0 };

    /// One write of it.
    fn write_once(&mut self, buf: &[u8]) -> io::Result<usize>
        ensures bound { WritesAtMost result buf.now }
        ensures bytes { WriteAppends (Self.contents self.old) (Self.contents self.new) result buf.now }
        ensures gives { write_gives self.old buf.now result self.new };
}

/// A reader over memory that gives at most so many bytes a call.
#[derive(Drop)]
pub struct Pieces<'a> {
    rest: &'a [u8],
    most: usize,
    ghost some: { 0 < most },
}

impl<'a> Pieces<'a> {
    ghost use Rattle.rasta_pcap.specs.Pieces.{bytes_left, most_of};

    /// A reader of these bytes, at least one and at most `most` a call.
    pub fn new(bytes: &'a [u8], most: usize) -> Pieces<'a>
        requires { 0 < most }
        ensures bytes { bytes_left result ≡ bytes.now }
        ensures most { most_of result ≡ most }
    {
        Pieces { rest: bytes, most }
    }
}

impl<'a> Read for Pieces<'a> {
    ghost use Rattle.rasta_pcap.specs.Pieces.{bytes_left, most_of};

    ghost remaining = { λ p. Some (bytes_left p) };

    fn read(&mut self, buf: &mut [u8]) -> io::Result<usize>
        ensures bound { ReadsAtMost result buf.new }
        ensures bytes { ReadConsumes (Some (bytes_left self.old)) (Some (bytes_left self.new))
            result buf.new }
        ensures count { result ≡ Ok (min (min (most_of self.old) (length buf.old))
            (length (bytes_left self.old))) }
        ensures most { most_of self.new ≡ most_of self.old }
    {
        let n = self.most.min(buf.len());
        self.rest.read(&mut buf[..n])
    }
}

impl<'a> ReadDevice for Pieces<'a> {
    ghost use Rattle.rasta_pcap.specs.Pieces.{GivesPiece};

    ghost read_gives = { λ old before outcome after new. GivesPiece old before outcome new };

    fn read_once(&mut self, buf: &mut [u8]) -> io::Result<usize> {
        self.read(buf)
    }
}

impl WriteDevice for Vec<u8> {
    ghost write_gives = { λ old bytes outcome new. GrowsOrKeeps old.items bytes outcome new.items };

    fn write_once(&mut self, buf: &[u8]) -> io::Result<usize> {
        self.write(buf)
    }
}

/// What goes wrong at a call.
#[derive(Clone, Copy, PartialEq, Eq)]
pub enum Mishap {
    /// The call answers an error.
    Fails,

    /// The call answers that it took no byte.
    Idles,
}

/// A reader or writer that answers what another one does, but for one read or write, which goes
/// wrong and leaves that other one as it was. Flushes go through and are not counted.
#[derive(Drop)]
pub struct FailAt<D> {
    device: D,
    mishap: Mishap,
    calls_left: u64,
}

impl<D> FailAt<D> {
    ghost use Rattle.rasta_pcap.specs.FailAt.{device_within, mishap_of, calls_to_mishap};
    ghost use Rattle.rasta_pcap.specs.declared.devices.Mishap.TheVariants.{Fails, Idles};

    /// Fails at the call of that number, from 1; at none where it is 0.
    pub fn new(device: D, call: u64) -> FailAt<D>
        ensures device { device_within result ≡ device }
        ensures mishap { mishap_of result ≡ Fails }
        ensures call { calls_to_mishap result ≡ call }
    {
        FailAt {
            device,
            mishap: Mishap::Fails,
            calls_left: call,
        }
    }

    /// Takes no byte at the call of that number, from 1; at none where it is 0.
    ///
    /// A reader that takes no byte looks like one at its end, so such a reader doesn't tell its
    /// bytes.
    pub fn idle_at(device: D, call: u64) -> FailAt<D>
        ensures device { device_within result ≡ device }
        ensures mishap { mishap_of result ≡ Idles }
        ensures call { calls_to_mishap result ≡ call }
    {
        FailAt {
            device,
            mishap: Mishap::Idles,
            calls_left: call,
        }
    }

    /// Gives the other one back.
    pub fn into_inner(self) -> D
        ensures { result ≡ device_within self }
    {
        let FailAt { device, .. } = self;
        device
    }

    // Counts a call, and says what goes wrong at it.
    fn count_call(&mut self) -> Option<Mishap>
        ensures device { device_within self.new ≡ device_within self.old }
        ensures mishap { mishap_of self.new ≡ mishap_of self.old }
        ensures counted { calls_to_mishap self.new ≡ calls_to_mishap self.old - 1 }
        ensures now { calls_to_mishap self.old ≡ 1 → result ≡ Some (mishap_of self.old) }
        ensures later { calls_to_mishap self.old ≢ 1 → result ≡ None }
    {
        let is_now = self.calls_left == 1;
        self.calls_left = self.calls_left.saturating_sub(1);
        if is_now { Some(self.mishap) } else { None }
    }
}

impl<D: ReadDevice> Read for FailAt<D> {
    ghost use Rattle.rasta_pcap.specs.FailAt.{device_within, mishap_of, calls_to_mishap, known_unless_idle};

    ghost remaining = { λ f. known_unless_idle (mishap_of f) (D.remaining (device_within f)) };

    fn read(&mut self, buf: &mut [u8]) -> io::Result<usize>
        ensures bound { ReadsAtMost result buf.new }
        ensures bytes { ReadConsumes
            (known_unless_idle (mishap_of self.old) (D.remaining (device_within self.old)))
            (known_unless_idle (mishap_of self.new) (D.remaining (device_within self.new)))
            result buf.new }
        ensures counted { calls_to_mishap self.new ≡ calls_to_mishap self.old - 1 }
        ensures same { mishap_of self.new ≡ mishap_of self.old }

        // At the call that goes wrong.
        ensures mishap { calls_to_mishap self.old ≡ 1 → GoesWrong (mishap_of self.old) result }
        ensures kept { calls_to_mishap self.old ≡ 1 → device_within self.new ≡ device_within self.old }

        // At every other call: what the other one gives.
        ensures gives { calls_to_mishap self.old ≢ 1 → D.read_gives (device_within self.old) buf.old
            result buf.new (device_within self.new) }
        ensures consumes { calls_to_mishap self.old ≢ 1 → ReadConsumes (D.remaining (device_within self.old))
            (D.remaining (device_within self.new)) result buf.new }
    {
        match self.count_call() {
            Some(mishap) => outcome_of(mishap),
            None => self.device.read_once(buf),
        }
    }
}

impl<D: WriteDevice> Write for FailAt<D> {
    ghost use Rattle.rasta_pcap.specs.FailAt.{device_within, mishap_of, calls_to_mishap};

    ghost contents = { λ f. D.contents (device_within f) };

    fn write(&mut self, buf: &[u8]) -> io::Result<usize>
        ensures bound { WritesAtMost result buf.now }
        ensures bytes { WriteAppends (D.contents (device_within self.old))
            (D.contents (device_within self.new)) result buf.now }
        ensures counted { calls_to_mishap self.new ≡ calls_to_mishap self.old - 1 }
        ensures same { mishap_of self.new ≡ mishap_of self.old }

        // At the call that goes wrong.
        ensures mishap { calls_to_mishap self.old ≡ 1 → GoesWrong (mishap_of self.old) result }
        ensures kept { calls_to_mishap self.old ≡ 1 → device_within self.new ≡ device_within self.old }

        // At every other call: what the other one gives.
        ensures gives { calls_to_mishap self.old ≢ 1 → D.write_gives (device_within self.old) buf.now
            result (device_within self.new) }
    {
        match self.count_call() {
            Some(mishap) => outcome_of(mishap),
            None => self.device.write_once(buf),
        }
    }

    fn flush(&mut self) -> io::Result<()> {
        self.device.flush()
    }
}

fn outcome_of(mishap: Mishap) -> io::Result<usize>
    ensures { GoesWrong mishap result }
{
    match mishap {
        Mishap::Fails => Err(io::Error::from(ErrorKind::Other)),
        Mishap::Idles => Ok(0),
    }
}
