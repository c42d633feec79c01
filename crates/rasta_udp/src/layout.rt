//! Where each field stands in a frame without a tag, and in the header of UDP.
//!
//! | Offset | Bytes | Field |
//! |---|---|---|
//! | 12 | 2 | type, of Ethernet II |
//! | 14 | 1 | version and header length, of IPv4 |
//! | 16 | 2 | total length |
//! | 20 | 2 | flags and fragment offset |
//! | 23 | 1 | protocol |
//! | 26 | 4 | source address |
//! | 30 | 4 | destination address |
//! | after the options of IPv4 | 8 | header of UDP: source port, destination port, length, checksum |
//!
//! Numbers are big-endian.

/// The type field of Ethernet II of a packet of IPv4.
pub const IPV4: u16 = 0x0800;

/// The type field of a tag of IEEE 802.1Q.
pub const TAGGED: u16 = 0x8100;

/// The protocol number of UDP.
pub const UDP: u8 = 17;

/// The length of the header of Ethernet II without a tag.
pub const ETHERNET_HEADER: usize = 14;

pub const TAG: usize = 4;

/// The least length of the header of IPv4, which has options beyond it.
pub const LEAST_IPV4_HEADER: usize = 20;

/// The fewest bytes of a frame without a tag that holds IPv4.
pub const LEAST_IPV4_FRAME: usize = ETHERNET_HEADER + LEAST_IPV4_HEADER;

pub const UDP_HEADER: usize = 8;

pub const TYPE_AT: usize = 12;

pub const VERSION_AT: usize = 14;

pub const TOTAL_LENGTH_AT: usize = 16;

pub const FRAGMENT_AT: usize = 20;

pub const PROTOCOL_AT: usize = 23;

pub const SOURCE_AT: usize = 26;

pub const DESTINATION_AT: usize = 30;

/// From the header of UDP on, as the next two.
pub const SOURCE_PORT_AT: usize = 0;

pub const DESTINATION_PORT_AT: usize = 2;

pub const UDP_LENGTH_AT: usize = 4;
