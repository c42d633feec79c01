//! When a record was captured.
ghost use Rattle.std.specs.Prelude.{◌≡◌, ◌≤◌, length};
ghost use Rattle.rasta_pcap.specs.Times.{unit_of, time_of};

use crate::pcap::{Endianness, NANOSECONDS};

/// The unit of the fraction of a second.
#[derive(Clone, Copy, PartialEq, Eq)]
pub enum FractionUnit {
    Microseconds,
    Nanoseconds,
}

/// When a record was captured, as its file says: not judged, and often the clock of one computer alone.
#[derive(Clone, Copy, PartialEq, Eq)]
pub struct CaptureTime {
    /// Seconds since the beginning of 1970, UTC.
    pub seconds: u32,

    /// What came after the last whole second.
    pub fraction: u32,
    pub unit: FractionUnit,
}

/// The unit that the magic number of a file tells.
pub(crate) fn unit_in(order: Endianness, file: &[u8]) -> FractionUnit
    requires { 4 ≤ length file.now }
    ensures { result ≡ unit_of order file.now }
{
    if order.u32_at(file, 0) == NANOSECONDS {
        FractionUnit::Nanoseconds
    } else {
        FractionUnit::Microseconds
    }
}

/// The time that a record's header says.
pub(crate) fn time_in(order: Endianness, unit: FractionUnit, header: &[u8]) -> CaptureTime
    requires { 8 ≤ length header.now }
    ensures { result ≡ time_of order unit header.now }
{
    CaptureTime {
        seconds: order.u32_at(header, 0),
        fraction: order.u32_at(header, 4),
        unit,
    }
}
