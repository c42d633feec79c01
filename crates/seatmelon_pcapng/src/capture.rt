//! A capture in either format, as a classic one.
ghost use Rattle.std.specs.Prelude.{◌≡◌, ◌≢◌, ◌⊎◌, [], Some, IfOk, IfErr, IfSome};
ghost use Rattle.rasta_pcap.specs.Fault.{no_memory, read_failed};
ghost use Rattle.seatmelon_pcapng.specs.Giving.{told_as};

use crate::classic::Classic;
use crate::format::Format;
use crate::peeked::Peeked;
use rasta_pcap::{Fault, Source};
use std::alloc::Global;
use std::io;

/// A source of a classic capture over a file in either format, which its first four bytes tell.
#[derive(Drop)]
pub enum Capture<S> {
    /// Whatever isn't a pcapng file is given as it is.
    Plain(Peeked<S>),

    /// A pcapng file.
    Converted(Classic<Peeked<S>>),
}

impl<S: Source> Capture<S> {
    ghost use Rattle.seatmelon_pcapng.specs.Formats.{capture_of, format_in, is_of_pcapng, left_in, noted_by, source_of};
    ghost use Rattle.seatmelon_pcapng.specs.Peeked.{begins_pcapng};

    /// Looks at the first bytes of a file, of which nothing was read.
    ///
    /// Refused by [`Fault::NO_MEMORY`] and [`Fault::READ_FAILED`] alone.
    pub fn open(alloc: Global, source: S) -> Result<Capture<S>, Fault>
    where
        S: Drop,
        ensures left { IfOk result (λ c. IfSome (S.remaining source) (λ file. left_in S.remaining c ≡ Some (capture_of file))) }
        ensures noted { IfOk result (λ c. IfSome (S.remaining source) (λ file. S.notes source [] → noted_by S.remaining S.notes c (told_as file))) }
        ensures format { IfOk result (λ c. IfSome (S.remaining source) (λ file. is_of_pcapng (format_in c) ≡ begins_pcapng file)) }
        ensures err { IfErr result (λ f. (f ≡ no_memory) ⊎ (f ≡ read_failed)) }
    {
        let peeked = Peeked::new(source)?;
        if !peeked.is_pcapng() {
            return Ok(Capture::Plain(peeked));
        }
        Ok(Capture::Converted(Classic::new(alloc, peeked)?))
    }

    /// In which format it reads; what it tells of a pcapng file beside its packets is that of what was read of it.
    pub fn format(&self) -> Format
        ensures { result ≡ format_in self.now }
    {
        match self {
            Capture::Plain(_) => Format::Classic,
            Capture::Converted(classic) => Format::Pcapng(classic.remarks()),
        }
    }

    // Whether a read failed since there was no memory for a block of a pcapng file.
    fn lacks_memory(&self) -> bool {
        match self {
            Capture::Plain(_) => false,
            Capture::Converted(classic) => classic.lacks_memory(),
        }
    }

    /// The fault that was met where it was read: of a failed read it is told where memory was lacking for a block.
    pub fn fault_met(&self, fault: Fault) -> Fault
        ensures kept { fault.number ≢ 2 → result ≡ fault }
        ensures failed { (result ≡ fault) ⊎ (result ≡ no_memory) }
    {
        if fault.number == Fault::READ_FAILED && self.lacks_memory() {
            return Fault::no_memory();
        }
        fault
    }

    /// Gives the source back, without what was read of it and not yet given.
    pub fn into_inner(self) -> S
        ensures { result ≡ source_of self }
    {
        match self {
            Capture::Plain(peeked) => peeked.into_inner(),
            Capture::Converted(classic) => classic.into_inner().into_inner(),
        }
    }
}

impl<S: Source> Source for Capture<S> {
    ghost use Rattle.seatmelon_pcapng.specs.Formats.{failures_of, left_in, noted_by};

    ghost remaining = { left_in S.remaining };

    ghost failure_count = { failures_of S.failure_count };

    ghost notes = { noted_by S.remaining S.notes };

    fn read(&mut self, buf: &mut [u8]) -> io::Result<usize> {
        match self {
            Capture::Plain(peeked) => peeked.read(buf),
            Capture::Converted(classic) => classic.read(buf),
        }
    }

    fn failures(&self) -> u64 {
        match self {
            Capture::Plain(peeked) => peeked.failures(),
            Capture::Converted(classic) => classic.failures(),
        }
    }
}
