//! The front of a block: its type and its length.
ghost use Rattle.std.specs.Prelude.{◌≡◌, ◌≤◌, ◌&&◌, ◌==◌, nat_le, length, IfOk};
ghost use Rattle.seatmelon_pcapng.specs.Blocks.{front_of, is_section_header, least_length, order_of};

use crate::order::Order;
use crate::refusal::Reason;

/// The bytes of a block that tell its byte order, its type and its length; no block has fewer.
pub const FRONT: usize = 12;

// Where the length stands.
const LENGTH_AT: usize = 4;

/// The types of blocks that are read.
pub const SECTION_HEADER: u32 = 0x0a0d_0d0a;

pub const INTERFACE_DESCRIPTION: u32 = 1;

pub const OBSOLETE_PACKET: u32 = 2;

pub const SIMPLE_PACKET: u32 = 3;

pub const ENHANCED_PACKET: u32 = 6;

// The most bytes of a block.
const MOST: usize = 16_777_216;

/// What stands at the front of a block.
#[derive(Clone, Copy)]
pub struct Front {
    pub order: Order,
    pub kind: u32,
    pub len: usize,
}

// Whether a block is a section header, which has the same type in either byte order.
fn is_section_header(bytes: &[u8]) -> bool
    requires { 4 ≤ length bytes.now }
    ensures { result ≡ is_section_header bytes.now }
{
    Order::Little.u32_at(bytes, 0) == SECTION_HEADER
}

/// Whether a file that begins so seems to be one of pcapng.
pub fn is_pcapng(bytes: &[u8]) -> bool
    ensures { result ≡ (nat_le 4 (length bytes.now) && is_section_header bytes.now) }
{
    bytes.len() >= 4 && is_section_header(bytes)
}

// The byte order of a block, behind one that is known.
fn order_of(known: Option<Order>, bytes: &[u8]) -> Result<Order, Reason>
    requires { 12 ≤ length bytes.now }
    ensures { result ≡ order_of known bytes.now }
{
    if is_section_header(bytes) {
        Order::told_by(bytes).ok_or(Reason::ByteOrder)
    } else {
        known.ok_or(Reason::NotPcapng)
    }
}

// The fewest bytes of a block of this type.
fn least_length(kind: u32) -> usize
    ensures { result ≡ least_length kind }
{
    match kind {
        SECTION_HEADER => 28,
        INTERFACE_DESCRIPTION => 20,
        OBSOLETE_PACKET | ENHANCED_PACKET => 32,
        SIMPLE_PACKET => 16,
        _ => FRONT,
    }
}

impl Front {
    /// The front of the next block, of which at least 12 bytes are given, behind a section header that tells this order.
    pub fn of(known: Option<Order>, bytes: &[u8]) -> Result<Front, Reason>
        requires { 12 ≤ length bytes.now }
        ensures value { result ≡ front_of known bytes.now }
        ensures least { IfOk result (λ front. (12 ≤ front.len) × (least_length front.kind ≤ front.len)) }
    {
        let order = order_of(known, bytes)?;
        let kind = order.u32_at(bytes, 0);
        let len = order.u32_at(bytes, LENGTH_AT) as usize;
        if len % 4 != 0 || len < least_length(kind) {
            Err(Reason::Length)
        } else if len > MOST {
            Err(Reason::TooLong)
        } else {
            Ok(Front { order, kind, len })
        }
    }
}
