//! A source that is read a buffer at a time.
ghost use Rattle.std.specs.Prelude.{◌≡◌, ◌<◌, ◌≤◌, [], ◌++◌, length, vec_len, IfOk, IfErr};
ghost use Rattle.std.specs.Io.{ReadsAtMost};
ghost use Rattle.std.specs.Io.KnownBytes.{IsAtEnd, Keeps, ReadConsumes, prepend_known};
ghost use Rattle.rasta_pcap.specs.Fault.{no_memory};
ghost use Rattle.rasta_pcap.specs.Devices.{after_read};
ghost use Rattle.rasta_pcap.specs.Noting.{given, NotesOn};

use crate::counted::Source;
use crate::fault::Fault;
use std::alloc::Global;
use std::io;

/// How many bytes of a capture are mostly read at once, and of an answer written.
pub const BUFFER: usize = 65_536;

// Bytes that were read and not yet given: `memory[start..end]`.
#[derive(Drop)]
pub struct Held {
    memory: Vec<u8>,
    start: usize,
    end: usize,
    ghost ordered: { start ≤ end },
    ghost within: { end ≤ vec_len memory },
    ghost room: { 0 < vec_len memory },
}

impl Held {
    ghost use Rattle.rasta_pcap.specs.Buffered.{bytes_held};

    // Nothing yet, with room for so many bytes.
    fn new(alloc: Global, capacity: usize) -> Result<Held, Fault>
        requires { 0 < capacity }
        ensures empty { IfOk result (λ h. bytes_held h ≡ []) }
        ensures err { IfErr result (λ f. f ≡ no_memory) }
    {
        let mut memory = Vec::new(alloc);
        memory.resize(capacity, 0)?;
        Ok(Held {
            memory,
            start: 0,
            end: 0,
        })
    }

    #[inline(always)]
    fn len(&self) -> usize
        ensures { result ≡ length (bytes_held self.now) }
    {
        self.end - self.start
    }

    // Gives its first bytes, as many as the buffer has room for.
    #[inline(always)]
    fn give(&mut self, buf: &mut [u8])
        requires { length buf.old ≤ length (bytes_held self.old) }
        ensures bytes { bytes_held self.old ≡ buf.new ++ bytes_held self.new }
        ensures len { length buf.new ≡ length buf.old }
    {
        let start = self.start;
        self.start += buf.len();
        buf.copy_from_slice(&self.memory[start..self.start]);
    }

    // Reads once in place of what it held, and says how many bytes came.
    fn refill<S: Source>(&mut self, source: &mut S) -> io::Result<usize>
        ensures bytes { Keeps (S.remaining source.old) (prepend_known (bytes_held self.new) (S.remaining source.new)) }
        ensures held { IfOk result (λ n. n ≡ length (bytes_held self.new)) }
        ensures end { IfOk result (λ n. n ≡ 0 → IsAtEnd (S.remaining source.new)) }
        ensures counted { S.failure_count source.new ≡ after_read (S.failure_count source.old) result }
        ensures noted { NotesOn S.notes source.old source.new (bytes_held self.new) }
    {
        self.start = 0;
        self.end = 0;
        let n = source.read(&mut self.memory)?;
        self.end = n;
        Ok(n)
    }
}

/// A [`Source`] that is read a buffer at a time, and gives what that gives.
#[derive(Drop)]
pub struct Buffered<S> {
    source: S,
    held: Held,
}

impl<S: Source> Buffered<S> {
    ghost use Rattle.rasta_pcap.specs.Buffered.{held_by, left_in, noted_by, source_of};

    /// The source, of which nothing was read, and a buffer of so many bytes.
    ///
    /// Refused by [`Fault::NO_MEMORY`].
    pub fn new(alloc: Global, source: S, capacity: usize) -> Result<Buffered<S>, Fault>
    where
        S: Drop,
        requires { 0 < capacity }
        ensures source { IfOk result (λ b. source_of b ≡ source) }
        ensures empty { IfOk result (λ b. held_by b ≡ []) }
        ensures err { IfErr result (λ f. f ≡ no_memory) }
    {
        let held = Held::new(alloc, capacity)?;
        Ok(Buffered { source, held })
    }

    /// Gives the source back, without what was read of it and not yet given.
    pub fn into_inner(self) -> S
        ensures { result ≡ source_of self }
    {
        let Buffered { source, .. } = self;
        source
    }

    // How many bytes it holds; where it holds none, it reads once.
    fn fill(&mut self) -> io::Result<usize>
        ensures bytes { Keeps (left_in S.remaining self.old) (left_in S.remaining self.new) }
        ensures held { IfOk result (λ n. n ≡ length (held_by self.new)) }
        ensures end { IfOk result (λ n. n ≡ 0 → IsAtEnd (S.remaining (source_of self.new))) }
        ensures counted { S.failure_count (source_of self.new) ≡ after_read (S.failure_count (source_of self.old)) result }
        ensures noted { NotesOn (noted_by S.notes) self.old self.new [] }
    {
        match self.held.len() {
            0 => self.held.refill(&mut self.source),
            n => Ok(n),
        }
    }

    // A read of more than it holds.
    #[cold]
    #[inline(never)]
    fn read_on(&mut self, buf: &mut [u8]) -> io::Result<usize>
        ensures bound { ReadsAtMost result buf.new }
        ensures bytes { ReadConsumes (left_in S.remaining self.old) (left_in S.remaining self.new) result buf.new }
        ensures counted { S.failure_count (source_of self.new) ≡ after_read (S.failure_count (source_of self.old)) result }
        ensures noted { NotesOn (noted_by S.notes) self.old self.new (given result buf.new) }
    {
        let n = self.fill()?.min(buf.len());
        self.held.give(&mut buf[..n]);
        Ok(n)
    }
}

impl<S: Source> Source for Buffered<S> {
    ghost use Rattle.rasta_pcap.specs.Buffered.{left_in, noted_by, source_of};

    ghost remaining = { left_in S.remaining };

    ghost failure_count = { λ b. S.failure_count (source_of b) };

    ghost notes = { noted_by S.notes };

    #[inline(always)]
    fn read(&mut self, buf: &mut [u8]) -> io::Result<usize> {
        let len = buf.len();
        if self.held.len() < len {
            return self.read_on(buf);
        }
        self.held.give(buf);
        Ok(len)
    }

    fn failures(&self) -> u64 {
        self.source.failures()
    }
}
