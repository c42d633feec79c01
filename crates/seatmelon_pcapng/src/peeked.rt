//! A source whose first bytes were looked at.
ghost use Rattle.std.specs.Prelude.{◌≡◌, ◌≤◌, [], ◌++◌, min, take, length, IfOk, IfErr, IfSome, OnOk};
ghost use Rattle.std.specs.Io.KnownBytes.{Keeps};
ghost use Rattle.rasta_pcap.specs.Devices.{HasFailed};
ghost use Rattle.rasta_pcap.specs.Fault.{read_failed};
ghost use Rattle.rasta_pcap.specs.Filling.{IsFilled};
ghost use Rattle.rasta_pcap.specs.Noting.{NotesOn};

use crate::front::is_pcapng;
use rasta_pcap::{Fault, Source};
use std::io;

// How many bytes are looked at: as many as tell a pcapng file.
const LOOKED_AT: usize = 4;

// Reads until the buffer is full, or up to the end of input, and answers how many bytes came.
fn fill<S: Source>(source: &mut S, buf: &mut [u8]) -> Result<usize, Fault>
    ensures bound { IfOk result (λ n. n ≤ length buf.new) }
    ensures filled { IfOk result (λ n. IsFilled (length buf.old) (S.remaining source.old) (S.remaining source.new) (take n buf.new)) }
    ensures noted { IfOk result (λ n. NotesOn S.notes source.old source.new (take n buf.new)) }
    ensures steady { OnOk result (S.failure_count source.new ≡ S.failure_count source.old) }
    ensures err { IfErr result (λ f. (f ≡ read_failed) × HasFailed (S.failure_count source.old) (S.failure_count source.new)) }
{
    let len = buf.len();
    let mut filled = 0;
    while filled < len {
        match source.read(&mut buf[filled..len]) {
            Ok(0) => break,
            Ok(n) => filled += n,
            Err(_) => return Err(Fault::at(Fault::READ_FAILED, 0)),
        }
    }
    Ok(filled)
}

/// A source whose first bytes were looked at: it keeps them until they are given.
#[derive(Drop)]
pub struct Peeked<S> {
    source: S,
    front: [u8; LOOKED_AT],
    start: usize,
    end: usize,
    ghost ordered: { start ≤ end },
    ghost within: { end ≤ 4 },
}

impl<S: Source> Peeked<S> {
    ghost use Rattle.seatmelon_pcapng.specs.Peeked.{begins_pcapng, held_by, left_in, noted_by, source_of};

    /// Looks at the first four bytes of a source, or at all where it has fewer.
    ///
    /// Refused by [`Fault::READ_FAILED`] alone.
    pub fn new(source: S) -> Result<Peeked<S>, Fault>
    where
        S: Drop,
        ensures left { IfOk result (λ p. Keeps (S.remaining source) (left_in S.remaining p)) }
        ensures noted { IfOk result (λ p. S.notes source [] → noted_by S.notes p []) }
        ensures steady { IfOk result (λ p. S.failure_count (source_of p) ≡ S.failure_count source) }

        // It holds the first four bytes of a file that is known, and they tell whether that is one of pcapng.
        ensures held { IfOk result (λ p. IfSome (S.remaining source) (λ file. held_by p ≡ take 4 file)) }
        ensures told { IfOk result (λ p. IfSome (S.remaining source) (λ file. begins_pcapng (held_by p) ≡ begins_pcapng file)) }
        ensures err { IfErr result (λ f. f ≡ read_failed) }
    {
        let mut source = source;
        let mut front = [0; LOOKED_AT];
        let end = fill(&mut source, &mut front)?;
        Ok(Peeked {
            source,
            front,
            start: 0,
            end,
        })
    }

    /// Whether a pcapng file begins so, if nothing was given yet.
    pub fn is_pcapng(&self) -> bool
        ensures { result ≡ begins_pcapng (held_by self.now) }
    {
        is_pcapng(&self.front[self.start..self.end])
    }

    /// Gives the source back, without the bytes that were looked at and not yet given.
    pub fn into_inner(self) -> S
        ensures { result ≡ source_of self }
    {
        let Peeked { source, .. } = self;
        source
    }

    // Gives the first bytes that it holds, as many as there is room for, and answers how many.
    #[cold]
    #[inline(never)]
    fn give(&mut self, buf: &mut [u8]) -> usize
        ensures count { result ≡ min (length (held_by self.old)) (length buf.old) }
        ensures given { held_by self.old ≡ take result buf.new ++ held_by self.new }
        ensures len { length buf.new ≡ length buf.old }
        ensures source { source_of self.new ≡ source_of self.old }
    {
        let len = buf.len().min(self.end - self.start);
        let start = self.start;
        self.start += len;
        buf[..len].copy_from_slice(&self.front[start..self.start]);
        len
    }
}

impl<S: Source> Source for Peeked<S> {
    ghost use Rattle.seatmelon_pcapng.specs.Peeked.{left_in, noted_by, source_of};

    ghost remaining = { left_in S.remaining };

    ghost failure_count = { λ p. S.failure_count (source_of p) };

    ghost notes = { noted_by S.notes };

    #[inline(always)]
    fn read(&mut self, buf: &mut [u8]) -> io::Result<usize> {
        if self.start < self.end {
            return Ok(self.give(buf));
        }
        self.source.read(buf)
    }

    fn failures(&self) -> u64 {
        self.source.failures()
    }
}
