//! The header of a capture file.
ghost use Rattle.std.specs.Prelude.{◌≡◌, ◌≤◌, ◌%◌, length, drop};
ghost use Rattle.rasta_pcap.specs.Capture.{is_magic};
ghost use Rattle.seatmelon_capture.specs.Header.{header_in};

use byteorder::{BigEndian, ByteOrder, LittleEndian};

// How many bytes a header has.
const LENGTH: usize = 24;

// The magic numbers: the fractions of a second are microseconds, or nanoseconds.
const MICROSECONDS: u32 = 0xa1b2_c3d4;

const NANOSECONDS: u32 = 0xa1b2_3c4d;

/// What the header of a capture file says. Neither is judged here: the checker refuses other link types than Ethernet.
#[derive(Clone, Copy, Debug, PartialEq, Eq)]
pub struct FileHeader {
    /// The type of the frames: the lower 16 bits of its field.
    pub link_type: u16,

    /// How many bytes of each frame were captured at most.
    pub snapshot_length: u32,
}

// Whether this is one of the magic numbers.
fn is_magic(number: u32) -> bool
    ensures { result ≡ is_magic number }
{
    number == MICROSECONDS || number == NANOSECONDS
}

// The header in this byte order.
fn header_by<O: ByteOrder>(bytes: &[u8]) -> FileHeader
    requires { 24 ≤ length bytes.now }
    ensures link_type { result.link_type ≡ O.number_of 4 (drop 20 bytes.now) % 65536 }
    ensures snapshot_length { result.snapshot_length ≡ O.number_of 4 (drop 16 bytes.now) }
{
    FileHeader {
        link_type: (O::read_u32(&bytes[20..]) % 65_536) as u16,
        snapshot_length: O::read_u32(&bytes[16..]),
    }
}

/// The header at the beginning of a file, in either byte order: `None` where there are fewer than 24 bytes, or they begin
/// with no magic number.
pub fn header_in(bytes: &[u8]) -> Option<FileHeader>
    ensures { result ≡ header_in bytes.now }
{
    if bytes.len() < LENGTH {
        return None;
    }
    if is_magic(LittleEndian::read_u32(bytes)) {
        return Some(header_by::<LittleEndian>(bytes));
    }
    if is_magic(BigEndian::read_u32(bytes)) {
        return Some(header_by::<BigEndian>(bytes));
    }
    None
}
