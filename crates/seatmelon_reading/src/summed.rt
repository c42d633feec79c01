//! A source that sums up what passes it.
ghost use Rattle.std.specs.Prelude.{◌≡◌, ℕ, List, []};
ghost use Rattle.sha2.specs.Sha256.{sha256};

use rasta_pcap::Source;
use rasta_sha256::Sha256;
use std::io;

/// A source that sums up by SHA-256 the bytes that pass it.
#[derive(Drop)]
pub struct Summed<S> {
    source: S,
    digest: Sha256,
}

impl<S: Source> Summed<S> {
    ghost use Rattle.seatmelon_reading.specs.Summing.{source_of, summed_by};

    /// The source, of which nothing has passed.
    pub fn new(source: S) -> Summed<S>
        ensures source { source_of result ≡ source }
        ensures summed { summed_by result [] }
    {
        Summed {
            source,
            digest: Sha256::new(),
        }
    }

    /// The SHA-256 of what passed.
    pub fn into_digest(self) -> [u8; 32]
    where
        S: Drop,
        ensures { (passed : List ℕ) → summed_by self passed → result ≡ sha256 passed }
    {
        let Summed { digest, .. } = self;
        digest.finish()
    }
}

impl<S: Source> Source for Summed<S> {
    ghost use Rattle.seatmelon_reading.specs.Summing.{source_of, summed_by};

    ghost remaining = { λ s. S.remaining (source_of s) };

    ghost failure_count = { λ s. S.failure_count (source_of s) };

    ghost notes = { summed_by };

    fn read(&mut self, buf: &mut [u8]) -> io::Result<usize> {
        let n = self.source.read(buf)?;
        self.digest.update(&buf[..n]);
        Ok(n)
    }

    fn failures(&self) -> u64 {
        self.source.failures()
    }
}
