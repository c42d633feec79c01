//! The byte order of a capture.
ghost use Rattle.std.specs.Prelude.{◌≡◌, ◌+◌, ◌≤◌, drop, length};
ghost use Rattle.rasta_pcap.specs.Capture.{is_magic};

use byteorder::{BigEndian, ByteOrder, LittleEndian};

// The magic numbers: the fractions of a second are microseconds, or nanoseconds.
const MICROSECONDS: u32 = 0xa1b2_c3d4;

const NANOSECONDS: u32 = 0xa1b2_3c4d;

/// The byte order of the computer that wrote a capture.
#[derive(Clone, Copy, PartialEq, Eq)]
pub enum Order {
    Little,
    Big,
}

// Whether this is one of the magic numbers.
fn is_magic(number: u32) -> bool
    ensures { result ≡ is_magic number }
{
    number == MICROSECONDS || number == NANOSECONDS
}

impl Order {
    ghost use Rattle.seatmelon_cooked.specs.Forms.{number_in, order_of, spelled};

    /// The order in which a file begins with a magic number.
    pub fn of(file: &[u8]) -> Option<Order>
        requires { 4 ≤ length file.now }
        ensures { result ≡ order_of file.now }
    {
        if is_magic(Order::Little.u32_at(file, 0)) {
            Some(Order::Little)
        } else if is_magic(Order::Big.u32_at(file, 0)) {
            Some(Order::Big)
        } else {
            None
        }
    }

    /// The number in the two bytes there.
    pub fn u16_at(self, bytes: &[u8], at: usize) -> u16
        requires { at + 2 ≤ length bytes.now }
        ensures { result ≡ number_in self 2 (drop at bytes.now) }
    {
        match self {
            Order::Little => LittleEndian::read_u16(&bytes[at..]),
            Order::Big => BigEndian::read_u16(&bytes[at..]),
        }
    }

    /// The number in the four bytes there.
    pub fn u32_at(self, bytes: &[u8], at: usize) -> u32
        requires { at + 4 ≤ length bytes.now }
        ensures { result ≡ number_in self 4 (drop at bytes.now) }
    {
        match self {
            Order::Little => LittleEndian::read_u32(&bytes[at..]),
            Order::Big => BigEndian::read_u32(&bytes[at..]),
        }
    }

    /// A number in four bytes.
    pub fn spell(self, number: u32) -> [u8; 4]
        ensures { result ≡ spelled self number }
    {
        match self {
            Order::Little => number.to_le_bytes(),
            Order::Big => number.to_be_bytes(),
        }
    }
}
