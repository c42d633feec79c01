//! The bytes of blocks, as they are read, and those of records, as they are given.
ghost use Rattle.std.specs.Prelude.{◌≡◌, ◌<◌, ◌≤◌, ◌++◌, [], nat_eq, min, take, drop, length, vec_len, IfOk, OnOk, OnErr};
ghost use Rattle.std.specs.Io.KnownBytes.{IsAtEnd, Keeps, prepend_known};
ghost use Rattle.rasta_pcap.specs.Noting.{PassesOn};

use rasta_pcap::Source;
use std::alloc::{AllocError, Global};
use std::io;

/// What was read of a file and not yet passed: `memory[start..end]`.
#[derive(Drop)]
pub struct Blocks {
    memory: Vec<u8>,
    start: usize,
    end: usize,
    ghost ordered: { start ≤ end },
    ghost within: { end ≤ vec_len memory },
}

impl Blocks {
    ghost use Rattle.seatmelon_pcapng.specs.Memory.{bytes_of, room_of};

    /// Nothing yet.
    pub fn new(alloc: Global) -> Blocks
        ensures { bytes_of result ≡ [] }
    {
        Blocks {
            memory: Vec::new(alloc),
            start: 0,
            end: 0,
        }
    }

    /// The bytes.
    #[inline(always)]
    pub fn bytes(&self) -> &[u8]
        ensures { result.now ≡ bytes_of self.now }
    {
        &self.memory[self.start..self.end]
    }

    /// Passes over so many.
    #[inline(always)]
    pub fn pass(&mut self, len: usize)
        requires { len ≤ length (bytes_of self.old) }
        ensures { bytes_of self.new ≡ drop len (bytes_of self.old) }
    {
        self.start += len;
    }

    // Moves them to the front of the memory.
    fn move_down(&mut self)
        ensures kept { bytes_of self.new ≡ bytes_of self.old }
        ensures front { self.new.start ≡ 0 }
    {
        if self.start == 0 {
            return;
        }
        self.memory.copy_within(self.start..self.end, 0);
        self.end -= self.start;
        self.start = 0;
    }

    /// Makes room for so many with those that are there.
    pub fn make_room(&mut self, len: usize) -> Result<(), AllocError>
        ensures kept { bytes_of self.new ≡ bytes_of self.old }
        ensures room { OnOk result (len ≤ room_of self.new) }
    {
        self.move_down();
        if self.memory.len() >= len {
            return Ok(());
        }
        self.memory.resize(len, 0)
    }

    /// Reads once, up to so many with those that are there, and answers how many came.
    pub fn read<S: Source>(&mut self, source: &mut S, most: usize) -> io::Result<usize>
        requires some { length (bytes_of self.old) < most }
        requires room { most ≤ room_of self.old }
        ensures bytes { Keeps (prepend_known (bytes_of self.old) (S.remaining source.old)) (prepend_known (bytes_of self.new) (S.remaining source.new)) }
        ensures end { IfOk result (λ n. n ≡ 0 → (bytes_of self.new ≡ bytes_of self.old) × IsAtEnd (S.remaining source.new)) }
        ensures passed { PassesOn S.remaining S.notes source.old source.new }
    {
        let n = source.read(&mut self.memory[self.end..self.start + most])?;
        self.end += n;
        Ok(n)
    }
}

/// Bytes that are to be given.
#[derive(Drop)]
pub struct Held {
    memory: Vec<u8>,
    start: usize,
    ghost within: { start ≤ vec_len memory },
}

impl Held {
    ghost use Rattle.seatmelon_pcapng.specs.Memory.{bytes_held};

    /// None.
    pub fn new(alloc: Global) -> Held
        ensures { bytes_held result ≡ [] }
    {
        Held {
            memory: Vec::new(alloc),
            start: 0,
        }
    }

    /// Whether none are left.
    #[inline(always)]
    pub fn is_empty(&self) -> bool
        ensures { result ≡ nat_eq (length (bytes_held self.now)) 0 }
    {
        self.start == self.memory.len()
    }

    /// How many are left.
    #[inline(always)]
    pub fn len(&self) -> usize
        ensures { result ≡ length (bytes_held self.now) }
    {
        self.memory.len() - self.start
    }

    /// Holds these bytes, of a record's front and of its frame, behind the others.
    #[inline(always)]
    pub fn put(&mut self, front: &[u8], frame: &[u8]) -> Result<(), AllocError>
        ensures held { OnOk result (bytes_held self.new ≡ bytes_held self.old ++ (front.now ++ frame.now)) }
        ensures kept { OnErr result (bytes_held self.new ≡ bytes_held self.old) }
    {
        let len = self.memory.len();
        self.memory.extend_from_slice(front)?;
        let outcome = self.memory.extend_from_slice(frame);
        if outcome.is_err() {
            self.memory.truncate(len);
        }
        outcome
    }

    // Forgets what was given, once that is all.
    fn forget(&mut self)
        ensures { bytes_held self.new ≡ bytes_held self.old }
    {
        if self.start == self.memory.len() {
            self.memory.clear();
            self.start = 0;
        }
    }

    /// Gives the first bytes, as many as there is room for, and answers how many.
    pub fn give(&mut self, buf: &mut [u8]) -> usize
        ensures count { result ≡ min (length (bytes_held self.old)) (length buf.old) }
        ensures given { bytes_held self.old ≡ take result buf.new ++ bytes_held self.new }
        ensures len { length buf.new ≡ length buf.old }
    {
        let len = buf.len().min(self.len());
        let start = self.start;
        self.start = start + len;
        buf[..len].copy_from_slice(&self.memory[start..self.start]);
        self.forget();
        len
    }
}
