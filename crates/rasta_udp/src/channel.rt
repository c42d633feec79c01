//! Redundancy channels, and what is sent on them.
use rasta_pcap::Side;

/// An IPv4 address, first byte first, and a UDP port.
#[derive(Clone, Copy, Debug, PartialEq, Eq)]
pub struct Endpoint {
    pub address: [u8; 4],
    pub port: u16,
}

/// The two ends of a redundancy channel.
#[derive(Clone, Copy, Debug, PartialEq, Eq)]
pub struct Channel {
    pub client: Endpoint,
    pub server: Endpoint,
}

/// A datagram of a channel: the channel's number, from 1, the sending side, and the payload of UDP,
/// a slice of the frame.
#[derive(Clone, Copy, PartialEq, Eq)]
pub struct Datagram<'a> {
    pub channel: u8,
    pub side: Side,
    pub payload: &'a [u8],
}
