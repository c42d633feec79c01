//! Readers and writers that count their failures.
ghost use Rattle.std.specs.Prelude.{◌≡◌, ℕ, List, [], Option, Ok, IfOk, IfErr, OnOk, OnErr, ◌⊎◌};
ghost use Rattle.std.specs.Io.{ReadsAtMost, WritesAtMost};
ghost use Rattle.std.specs.Io.KnownBytes.{ReadConsumes, WriteAppends, IsAtEnd, Consumes};
ghost use Rattle.rasta_pcap.specs.Fault.{no_memory, read_failed};
ghost use Rattle.rasta_pcap.specs.Noting.{given, NotesOn};
ghost use Rattle.rasta_pcap.specs.Devices.{after_read, after_write, one_failure_more, HasFailed, Writes, AsWritten};

use crate::fault::Fault;
use std::alloc::Global;
use std::io;
use std::io::{Read, Write};

/// A reader that counts its failures, so that a caller can tell that the device failed.
pub trait Source {
    /// The bytes that reads will give from here on, where they are known.
    ghost remaining: { Self → Option (List ℕ) };

    /// How many calls have failed, up to the greatest count.
    ghost failure_count: { Self → ℕ };

    /// What it has noted of the bytes that passed it.
    ghost notes: { Self → List ℕ → Type 0 };

    /// Reads into the front of `buf`. `Ok(0)` at a buffer that isn't empty is the end of input.
    fn read(&mut self, buf: &mut [u8]) -> io::Result<usize>
        ensures bound { ReadsAtMost result buf.new }
        ensures bytes { ReadConsumes (remaining self.old) (remaining self.new) result buf.new }
        ensures counted { failure_count self.new ≡ after_read (failure_count self.old) result }
        ensures noted { NotesOn notes self.old self.new (given result buf.new) };

    /// How many calls have failed, up to the greatest `u64`.
    fn failures(&self) -> u64
        ensures { result ≡ failure_count self.now };
}

/// A writer that counts its failures: the calls that failed, and those that took no byte.
pub trait Sink {
    /// The bytes that the writer holds, where they are known.
    ghost contents: { Self → Option (List ℕ) };

    /// How many calls have failed or taken no byte, up to the greatest count.
    ghost failure_count: { Self → ℕ };

    /// Writes a front of `buf`, and says how many bytes it took.
    fn write(&mut self, buf: &[u8]) -> io::Result<usize>
        ensures bound { WritesAtMost result buf.now }
        ensures bytes { WriteAppends (contents self.old) (contents self.new) result buf.now }
        ensures counted { failure_count self.new ≡ after_write (failure_count self.old) result };

    /// How many calls have failed or taken no byte, up to the greatest `u64`.
    fn failures(&self) -> u64
        ensures { result ≡ failure_count self.now };
}

/// Makes a [`Source`] of any reader and a [`Sink`] of any writer, which answers what that answers.
#[derive(Drop)]
pub struct Counted<D> {
    device: D,
    failures: u64,
}

impl<D> Counted<D> {
    ghost use Rattle.rasta_pcap.specs.Devices.{device_of, failures_of};

    /// The device, with no failure counted yet.
    pub fn new(device: D) -> Counted<D>
        ensures device { device_of result ≡ device }
        ensures none { failures_of result ≡ 0 }
    {
        Counted {
            device,
            failures: 0,
        }
    }

    /// Gives the device back.
    pub fn into_inner(self) -> D
        ensures { result ≡ device_of self }
    {
        let Counted { device, .. } = self;
        device
    }

    fn count_failure(&mut self)
        ensures device { device_of self.new ≡ device_of self.old }
        ensures counted { failures_of self.new ≡ one_failure_more (failures_of self.old) }
    {
        self.failures = self.failures.saturating_add(1);
    }
}

impl<D: Read> Source for Counted<D> {
    ghost use Rattle.rasta_pcap.specs.Devices.{device_of, failures_of};

    ghost remaining = { λ c. D.remaining (device_of c) };

    ghost failure_count = { failures_of };

    ghost notes = { λ _ _. Unit {0} };

    fn read(&mut self, buf: &mut [u8]) -> io::Result<usize> {
        let outcome = self.device.read(buf);
        if outcome.is_err() {
            self.count_failure();
        }
        outcome
    }

    fn failures(&self) -> u64 {
        self.failures
    }
}

impl<D: Write> Sink for Counted<D> {
    ghost use Rattle.rasta_pcap.specs.Devices.{device_of, failures_of};

    ghost contents = { λ c. D.contents (device_of c) };

    ghost failure_count = { failures_of };

    fn write(&mut self, buf: &[u8]) -> io::Result<usize> {
        let outcome = self.device.write(buf);
        match outcome {
            Ok(0) | Err(_) => self.count_failure(),
            Ok(_) => {}
        }
        outcome
    }

    fn failures(&self) -> u64 {
        self.failures
    }
}

impl<S: Source> Source for &mut S {
    ghost remaining = { λ s. S.remaining s.now };

    ghost failure_count = { λ s. S.failure_count s.now };

    ghost notes = { λ s. S.notes s.now };

    fn read(&mut self, buf: &mut [u8]) -> io::Result<usize> {
        Source::read(&mut **self, buf)
    }

    fn failures(&self) -> u64 {
        Source::failures(&**self)
    }
}

impl<S: Sink> Sink for &mut S {
    ghost contents = { λ s. S.contents s.now };

    ghost failure_count = { λ s. S.failure_count s.now };

    fn write(&mut self, buf: &[u8]) -> io::Result<usize> {
        Sink::write(&mut **self, buf)
    }

    fn failures(&self) -> u64 {
        Sink::failures(&**self)
    }
}

/// All bytes up to the end of input.
///
/// Refused by [`Fault::NO_MEMORY`] and [`Fault::READ_FAILED`]; nothing is handed out then.
pub fn read_all<S: Source>(alloc: Global, reader: &mut S) -> Result<Vec<u8>, Fault>
    ensures bytes { IfOk result (λ v. Consumes (S.remaining reader.old) (S.remaining reader.new) v.items) }
    ensures end { OnOk result (IsAtEnd (S.remaining reader.new)) }
    ensures steady { OnOk result (S.failure_count reader.new ≡ S.failure_count reader.old) }
    ensures err { IfErr result (λ f. (f ≡ no_memory)
        ⊎ ((f ≡ read_failed) × HasFailed (S.failure_count reader.old) (S.failure_count reader.new))) }
    ensures begun { OnErr result ((bs : List ℕ) × Consumes (S.remaining reader.old) (S.remaining reader.new) bs) }
{
    let mut bytes = Vec::new(alloc);
    let mut buffer = [0u8; 8192];
    for _ in 0..u64::MAX {
        let Ok(n) = reader.read(&mut buffer) else {
            return Err(Fault::at(Fault::READ_FAILED, 0));
        };
        if n == 0 {
            return Ok(bytes);
        }
        bytes.extend_from_slice(&buffer[..n])?;
    }
    unreachable!()
}

/// Writes all of the bytes, by as many calls as the writer needs.
///
/// Refused by [`Fault::WRITE_FAILED`], at the first call that fails or takes no byte.
pub fn write_all<W: Sink>(writer: &mut W, bytes: &[u8]) -> Result<(), Fault>
    ensures out { Writes result (W.contents writer.old) (W.contents writer.new) bytes.now }
    ensures written { AsWritten W.failure_count result writer.old writer.new }

    // No byte is written by no call.
    ensures none { bytes.now ≡ [] → (result ≡ Ok tt) × (writer.new ≡ writer.old) }
{
    let mut rest = bytes;
    while !rest.is_empty() {
        match writer.write(rest) {
            Ok(0) | Err(_) => return Err(Fault::at(Fault::WRITE_FAILED, 0)),
            Ok(n) => rest = rest.split_at(n).1,
        }
    }
    Ok(())
}
