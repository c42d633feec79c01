//! The byte order of a section.
ghost use Rattle.std.specs.Prelude.{◌≡◌, ◌+◌, ◌≤◌, length};

use byteorder::{BigEndian, ByteOrder, LittleEndian};

// By what a section header tells its byte order, and where it stands.
const BYTE_ORDER_MAGIC: u32 = 0x1a2b_3c4d;

const MAGIC_AT: usize = 8;

/// The byte order of a section.
#[derive(Clone, Copy, PartialEq, Eq)]
pub enum Order {
    Little,
    Big,
}

impl Order {
    ghost use Rattle.seatmelon_pcapng.specs.Orders.{field, order_told};

    /// The byte order that a section header tells; none where it tells none that is known.
    pub fn told_by(bytes: &[u8]) -> Option<Order>
        requires { 12 ≤ length bytes.now }
        ensures { result ≡ order_told bytes.now }
    {
        if Order::Little.u32_at(bytes, MAGIC_AT) == BYTE_ORDER_MAGIC {
            Some(Order::Little)
        } else if Order::Big.u32_at(bytes, MAGIC_AT) == BYTE_ORDER_MAGIC {
            Some(Order::Big)
        } else {
            None
        }
    }

    /// The number in the two bytes there.
    pub fn u16_at(self, bytes: &[u8], at: usize) -> u16
        requires { at + 2 ≤ length bytes.now }
        ensures { result ≡ field self 2 at bytes.now }
    {
        match self {
            Order::Little => LittleEndian::read_u16(&bytes[at..]),
            Order::Big => BigEndian::read_u16(&bytes[at..]),
        }
    }

    /// The number in the four bytes there.
    pub fn u32_at(self, bytes: &[u8], at: usize) -> u32
        requires { at + 4 ≤ length bytes.now }
        ensures { result ≡ field self 4 at bytes.now }
    {
        match self {
            Order::Little => LittleEndian::read_u32(&bytes[at..]),
            Order::Big => BigEndian::read_u32(&bytes[at..]),
        }
    }

    /// The number in the eight bytes there.
    pub fn u64_at(self, bytes: &[u8], at: usize) -> u64
        requires { at + 8 ≤ length bytes.now }
        ensures { result ≡ field self 8 at bytes.now }
    {
        match self {
            Order::Little => LittleEndian::read_u64(&bytes[at..]),
            Order::Big => BigEndian::read_u64(&bytes[at..]),
        }
    }
}
