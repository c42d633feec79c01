//! A source that keeps the beginning of what passes it.
ghost use Rattle.std.specs.Prelude.{◌≡◌, ℕ, List, [], ◌++◌, take};
ghost use Rattle.seatmelon_capture.specs.Header.{header_in};

use crate::header::{FileHeader, header_in};
use arrayvec::ArrayVec;
use rasta_pcap::Source;
use std::io;

// How many bytes are kept: the header of a file.
const KEPT: usize = 24;

/// A source that keeps the first 24 bytes that pass it, the header of a capture file.
#[derive(Drop)]
pub struct Keeping<S> {
    source: S,
    kept: ArrayVec<u8, KEPT>,
}

impl<S: Source> Keeping<S> {
    ghost use Rattle.seatmelon_capture.specs.Keeping.{IsKept, source_of};

    /// The source, of which nothing has passed.
    pub fn new(source: S) -> Keeping<S>
        ensures source { source_of result ≡ source }
        ensures kept { IsKept result [] }
    {
        Keeping {
            source,
            kept: ArrayVec::new(),
        }
    }

    /// What the header says, as far as it passed.
    pub fn header(&self) -> Option<FileHeader>
        ensures { (passed : List ℕ) → IsKept self.now passed → result ≡ header_in (take 24 passed) }
    {
        header_in(&self.kept)
    }

    /// Gives the source back.
    pub fn into_inner(self) -> S
        ensures { result ≡ source_of self }
    {
        let Keeping { source, .. } = self;
        source
    }

    // Keeps these bytes, as far as there is room.
    #[tactic(auto, using(crate::proofs::Fronts::front_full))]
    fn keep(&mut self, bytes: &[u8])
        ensures source { source_of self.new ≡ source_of self.old }
        ensures kept { (passed : List ℕ) → IsKept self.old passed → IsKept self.new (passed ++ bytes.now) }
    {
        let room = KEPT - self.kept.len();
        if room == 0 {
            return;
        }
        let count = bytes.len().min(room);
        match self.kept.try_extend_from_slice(&bytes[..count]) {
            Ok(()) => {}
            Err(_) => unreachable!(),
        }
    }
}

impl<S: Source> Source for Keeping<S> {
    ghost use Rattle.seatmelon_capture.specs.Keeping.{noted_by, source_of};

    ghost remaining = { λ s. S.remaining (source_of s) };

    ghost failure_count = { λ s. S.failure_count (source_of s) };

    ghost notes = { noted_by S.notes };

    fn read(&mut self, buf: &mut [u8]) -> io::Result<usize> {
        let n = self.source.read(buf)?;
        self.keep(&buf[..n]);
        Ok(n)
    }

    fn failures(&self) -> u64 {
        self.source.failures()
    }
}
