//! Where each field stands in a datagram.
//!
//! | Offset | Bytes | Field |
//! |---|---|---|
//! | 0 | 2 | length of the datagram |
//! | 2 | 2 | reserve |
//! | 4 | 4 | number of the redundancy layer |
//! | 8 | 2 | length of the safety PDU, its safety code included |
//! | 10 | 2 | type |
//! | 12 | 4 | receiver |
//! | 16 | 4 | sender |
//! | 20 | 4 | sequence number |
//! | 24 | 4 | confirmed sequence number |
//! | 28 | 4 | time stamp |
//! | 32 | 4 | confirmed time stamp |
//! | 36 | any | payload |
//! | after it | 0, 8 or 16 | safety code |
//! | after it | 0, 2 or 4 | check code |
//!
//! Numbers are little-endian.

pub const LENGTH_AT: usize = 0;

pub const RESERVE_AT: usize = 2;

pub const NUMBER_AT: usize = 4;

pub const SAFETY_AT: usize = 8;

pub const TYPE_AT: usize = 10;

pub const RECEIVER_AT: usize = 12;

pub const SENDER_AT: usize = 16;

pub const SN_AT: usize = 20;

pub const CS_AT: usize = 24;

pub const TS_AT: usize = 28;

pub const CTS_AT: usize = 32;

pub const PAYLOAD_AT: usize = 36;

/// The length of the redundancy layer's length field.
pub const LENGTH_LEN: usize = 2;

/// The length of the payload of a connection request or response: four digits of the version,
/// N_sendmax and eight reserved bytes.
pub const OPENING_LEN: usize = 14;

pub const VERSION_LEN: usize = 4;

pub const SENDMAX_AT: usize = 4;

pub const RESERVED_AT: usize = 6;

/// The length of the payload of a disconnection request: detail and reason.
pub const BYE_LEN: usize = 4;

pub const REASON_AT: usize = 2;
