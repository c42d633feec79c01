//! Captures that are made in memory: by code of their own, and not by that of `trials_rows`, which makes those of tests,
//! since the instructions that make a capture count with a workload's, which are compared with those of older checkouts.
use rasta_pdu::Endpoint;
use std::alloc::Global;

// A classic libpcap file of Ethernet frames, its numbers with their lowest byte first.
pub const HEADER: &[u8; 24] = b"\xd4\xc3\xb2\xa1\x02\0\x04\0\0\0\0\0\0\0\0\0\0\0\x04\0\x01\0\0\0";

// A frame of TCP, which is of no connection.
const FOREIGN: &[u8; 60] = b"\x02\0\0\0\0\x02\x02\0\0\0\0\x01\x08\0\
    \x45\0\0\x2e\0\0\0\0\x40\x06\0\0\x0a\0\0\x09\x0a\0\0\x08\
    \0\0\0\0\0\0\0\0\0\0\0\0\0\0\0\0\0\0\0\0\0\0\0\0\0\0";

// The length of the header of a record.
const RECORD_HEADER: usize = 16;

// The lengths of both headers before a datagram.
const IPV4_HEADER: u16 = 28;

const UDP_HEADER: u16 = 8;

// The length of the headers of Ethernet, IPv4 and UDP.
const FRAME: u32 = 42;

// The first record is of 2026-01-01, in seconds since 1970-01-01.
const BEGIN: u64 = 1_767_225_600;

// The headers of Ethernet, IPv4 and UDP of a datagram, with these lengths from those of IPv4 and of UDP on.
fn frame_of(from: Endpoint, to: Endpoint, ipv4: u16, udp: u16) -> [u8; 42] {
    let [ipv4_high, ipv4_low] = ipv4.to_be_bytes();
    let [udp_high, udp_low] = udp.to_be_bytes();
    let [a, b, c, d] = from.address;
    let [e, f, g, h] = to.address;
    let [from_high, from_low] = from.port.to_be_bytes();
    let [to_high, to_low] = to.port.to_be_bytes();
    [
        2, 0, 0, 0, 0, 2, 2, 0, 0, 0, 0, 1, 8, 0, 0x45, 0, ipv4_high, ipv4_low, 0, 0, 0, 0, 0x40,
        0x11, 0, 0, a, b, c, d, e, f, g, h, from_high, from_low, to_high, to_low, udp_high,
        udp_low, 0, 0,
    ]
}

// The header of a record of that length.
fn record_of(seconds: u32, micros: u32, len: u32) -> [u8; 16] {
    let [a, b, c, d] = seconds.to_le_bytes();
    let [e, f, g, h] = micros.to_le_bytes();
    let [i, j, k, l] = len.to_le_bytes();
    [a, b, c, d, e, f, g, h, i, j, k, l, i, j, k, l]
}

/// The record that begins at that place of a capture, with its header.
pub fn record_at(bytes: &[u8], at: usize) -> Option<&[u8]> {
    let rest = bytes.get(at..)?;
    let len = u32::from_le_bytes(*rest.get(8..12)?.first_chunk::<4>()?);
    rest.get(..(len as usize).checked_add(RECORD_HEADER)?)
}

/// A capture that grows.
#[derive(Drop)]
pub struct Capture {
    bytes: Vec<u8>,
    records: u32,
    // Microseconds since the first record.
    elapsed: u64,
}

impl Capture {
    /// A capture without records, with room for so many bytes.
    pub fn new(alloc: Global, capacity: usize) -> Option<Capture> {
        let mut bytes = Vec::new(alloc);
        bytes.try_reserve(capacity).ok()?;
        bytes.extend_from_slice(HEADER).ok()?;
        Some(Capture {
            bytes,
            records: 0,
            elapsed: 0,
        })
    }

    /// The file.
    pub fn bytes(&self) -> &[u8] {
        self.bytes.as_slice()
    }

    /// How many records it has.
    pub fn records(&self) -> u32 {
        self.records
    }

    /// Lets so many microseconds pass.
    pub fn pass(&mut self, micros: u32) {
        self.elapsed = self.elapsed.wrapping_add(u64::from(micros));
    }

    // Adds the header of a record of that length.
    fn add_header(&mut self, len: u32) -> Option<()> {
        let seconds = u32::try_from(BEGIN.checked_add(self.elapsed / 1_000_000)?).ok()?;
        let micros = u32::try_from(self.elapsed % 1_000_000).ok()?;
        self.records = self.records.checked_add(1)?;
        self.bytes
            .extend_from_slice(&record_of(seconds, micros, len))
            .ok()
    }

    /// Adds a frame with a datagram.
    pub fn add_datagram(&mut self, from: Endpoint, to: Endpoint, datagram: &[u8]) -> Option<()> {
        let len = u16::try_from(datagram.len()).ok()?;
        let frame = frame_of(
            from,
            to,
            len.checked_add(IPV4_HEADER)?,
            len.checked_add(UDP_HEADER)?,
        );
        self.add_header(u32::from(len).checked_add(FRAME)?)?;
        self.bytes.extend_from_slice(&frame).ok()?;
        self.bytes.extend_from_slice(datagram).ok()
    }

    /// Adds a record of another capture, with its header.
    pub fn add_record(&mut self, record: &[u8]) -> Option<()> {
        self.records = self.records.checked_add(1)?;
        self.bytes.extend_from_slice(record).ok()
    }

    /// Adds a frame that is of no connection.
    pub fn add_foreign(&mut self) -> Option<()> {
        self.add_header(FOREIGN.len() as u32)?;
        self.bytes.extend_from_slice(FOREIGN).ok()
    }
}
