//! The records of a capture file, in order.
ghost use Rattle.std.specs.Prelude.{◌≡◌, ◌+◌, ◌≤◌, length, drop, option_map, MatchResult};
ghost use Rattle.rasta_pcap.specs.Capture.{FileCursor, max_records, moved, next, number_in, opening, order_of};

use crate::fault::Fault;
use byteorder::{BigEndian, ByteOrder, LittleEndian};
use std::marker::Model;

/// A record of a file: its number, from 1, and its captured bytes, a slice of the file.
#[derive(Clone, Copy, PartialEq, Eq)]
pub struct Record<'a> {
    pub number: u32,
    pub bytes: &'a [u8],
}

/// The byte order of the computer that wrote a file.
#[derive(Clone, Copy, PartialEq, Eq)]
pub enum Endianness {
    Little,
    Big,
}

pub(crate) const FILE_HEADER: usize = 24;

pub(crate) const RECORD_HEADER: usize = 16;

pub(crate) const MAX_CAPTURED: usize = 262_144;

/// The most records of a capture.
pub const MAX_RECORDS: u32 = 4_000_000_000;

const MICROSECONDS: u32 = 0xa1b2_c3d4;

pub(crate) const NANOSECONDS: u32 = 0xa1b2_3c4d;

impl Endianness {
    // The order in which the file begins with a magic number.
    fn of(file: &[u8]) -> Option<Endianness>
        requires { 4 ≤ length file.now }
        ensures { result ≡ order_of file.now }
    {
        let little = LittleEndian::read_u32(file);
        let big = BigEndian::read_u32(file);
        if little == MICROSECONDS || little == NANOSECONDS {
            Some(Endianness::Little)
        } else if big == MICROSECONDS || big == NANOSECONDS {
            Some(Endianness::Big)
        } else {
            None
        }
    }

    fn u16_at(self, bytes: &[u8], at: usize) -> u16
        requires { at + 2 ≤ length bytes.now }
        ensures { result ≡ number_in self 2 (drop at bytes.now) }
    {
        match self {
            Endianness::Little => LittleEndian::read_u16(&bytes[at..]),
            Endianness::Big => BigEndian::read_u16(&bytes[at..]),
        }
    }

    pub(crate) fn u32_at(self, bytes: &[u8], at: usize) -> u32
        requires { at + 4 ≤ length bytes.now }
        ensures { result ≡ number_in self 4 (drop at bytes.now) }
    {
        match self {
            Endianness::Little => LittleEndian::read_u32(&bytes[at..]),
            Endianness::Big => BigEndian::read_u32(&bytes[at..]),
        }
    }
}

/// A cursor over the records of a file in the classic libpcap format, version 2.4, link type 1
/// (Ethernet), in either byte order, with microseconds or nanoseconds.
#[derive(Drop)]
pub struct Pcap<'a> {
    order: Endianness,
    rest: &'a [u8],
    count: u32,
}

impl<'a> Model for Pcap<'a> {
    ghost Value = { FileCursor };

    ghost view = { λ p. record { order = p.order; rest = p.rest.now; count = p.count } };

    ghost invariant = { λ p. p.count ≤ max_records };
}

impl<'a> Pcap<'a> {
    /// Opens a file whose header is one that is read. Zone, significant figures and snapshot length
    /// are not judged.
    ///
    /// Refused, in this order, by [`Fault::CUT_HEADER`], [`Fault::NOT_PCAP`], [`Fault::VERSION`] and
    /// [`Fault::LINK_TYPE`].
    pub fn open(file: &'a [u8]) -> Result<Pcap<'a>, Fault>
        ensures { result ≡ opening file.now }
    {
        if file.len() < FILE_HEADER {
            return Err(Fault::at(Fault::CUT_HEADER, 0));
        }
        let Some(order) = Endianness::of(file) else {
            return Err(Fault::at(Fault::NOT_PCAP, 0));
        };
        if order.u16_at(file, 4) != 2 || order.u16_at(file, 6) != 4 {
            return Err(Fault::at(Fault::VERSION, 0));
        }
        if order.u32_at(file, 20) != 1 {
            return Err(Fault::at(Fault::LINK_TYPE, 0));
        }
        Ok(Pcap {
            order,
            rest: &file[FILE_HEADER..],
            count: 0,
        })
    }

    pub(crate) fn order(&self) -> Endianness
        ensures { result ≡ self.now.order }
    {
        self.order
    }

    /// The next record, or `None` at the exact end. Times and original length are not judged.
    ///
    /// Refused, in this order, by [`Fault::TOO_MANY`] (above 4,000,000,000 records),
    /// [`Fault::CUT_RECORD`] (the header), [`Fault::RECORD_TOO_LONG`] (above 262,144 bytes) and
    /// [`Fault::CUT_RECORD`] (the bytes), at the record's number. After a refusal every later call
    /// answers the same.
    pub fn next_record(&mut self) -> Result<Option<Record<'a>>, Fault>
        ensures found { MatchResult result
            (λ o. next self.old ≡ Ok (option_map (λ r. (r.number, r.bytes.now)) o)) (λ f. next self.old ≡ Err f) }
        ensures moves { self.new ≡ moved (next self.old) self.old }
    {
        if self.rest.is_empty() {
            return Ok(None);
        }
        if self.count >= MAX_RECORDS {
            return Err(Fault::at(Fault::TOO_MANY, self.count + 1));
        }
        if self.rest.len() < RECORD_HEADER {
            return Err(Fault::at(Fault::CUT_RECORD, self.count + 1));
        }
        let (header, after) = self.rest.split_at(RECORD_HEADER);
        let captured = self.order.u32_at(header, 8) as usize;
        if captured > MAX_CAPTURED {
            return Err(Fault::at(Fault::RECORD_TOO_LONG, self.count + 1));
        }
        if after.len() < captured {
            return Err(Fault::at(Fault::CUT_RECORD, self.count + 1));
        }
        let (bytes, rest) = after.split_at(captured);
        self.rest = rest;
        self.count += 1;
        let number = self.count;
        Ok(Some(Record { number, bytes }))
    }
}
