//! The datagram in a captured frame.
ghost use Rattle.std.specs.Prelude.{◌≡◌, ◌+◌, ◌≤◌, [], ◌∷◌, length, option_map, ◌||◌, nat_lt, ◌==◌};
ghost use Rattle.rasta_udp.specs.Frame.{Direction, address_of, header_length_of, fields_of, has_addresses, has_known_addresses, goes, direction_of, map_found, packet_of, packet_at, untagged_of, packet_in};

use crate::channel::{Channel, Datagram, Endpoint};
use crate::fields::{header_length, is_tagged, u16_at, u32_at};
use crate::layout::{
    DESTINATION_AT, DESTINATION_PORT_AT, ETHERNET_HEADER, FRAGMENT_AT, IPV4, LEAST_IPV4_HEADER,
    PROTOCOL_AT, SOURCE_AT, SOURCE_PORT_AT, TAG, TOTAL_LENGTH_AT, TYPE_AT, UDP, UDP_HEADER,
    UDP_LENGTH_AT, VERSION_AT,
};
use rasta_pcap::{Fault, Record, Side};

// The flag of more fragments, and the fragment offset.
const FRAGMENT_BITS: u16 = 0x3fff;

fn address(endpoint: &Endpoint) -> u32
    ensures { result ≡ address_of endpoint.now }
{
    u32_at(&endpoint.address, 0)
}

fn is_fragment(frame: &[u8]) -> bool
    requires { 22 ≤ length frame.now }
    ensures { let x = fields_of frame.now in result ≡ (x.more_fragments == 1 || nat_lt 0 x.fragment_offset) }
{
    u16_at(frame, FRAGMENT_AT) & FRAGMENT_BITS != 0
}

// Whether the frame goes from one end to the other, by its addresses.
#[tactic(auto, unfolding(crate::specs::Frame::has_addresses))]
fn has_addresses(frame: &[u8], source: &Endpoint, destination: &Endpoint) -> bool
    requires { 34 ≤ length frame.now }
    ensures { result ≡ has_addresses (fields_of frame.now) source.now destination.now }
{
    u32_at(frame, SOURCE_AT) == address(source)
        && u32_at(frame, DESTINATION_AT) == address(destination)
}

// Whether the frame goes from one end to the other, by its addresses and ports.
#[tactic(auto, unfolding(crate::specs::Frame::goes))]
fn goes(frame: &[u8], source: &Endpoint, destination: &Endpoint) -> bool
    requires addresses { 34 ≤ length frame.now }
    requires ports { 18 + header_length_of frame.now ≤ length frame.now }
    ensures { result ≡ goes (fields_of frame.now) source.now destination.now }
{
    let udp = ETHERNET_HEADER + header_length(frame);
    has_addresses(frame, source, destination)
        && u16_at(frame, udp + SOURCE_PORT_AT) == source.port
        && u16_at(frame, udp + DESTINATION_PORT_AT) == destination.port
}

// Whether the frame goes between the ends of the channel, by its addresses.
fn has_addresses_of(frame: &[u8], channel: &Channel) -> bool
    requires { 34 ≤ length frame.now }
    ensures { let x = fields_of frame.now in result
        ≡ (has_addresses x channel.now.client channel.now.server || has_addresses x channel.now.server channel.now.client) }
{
    has_addresses(frame, &channel.client, &channel.server)
        || has_addresses(frame, &channel.server, &channel.client)
}

// Whether the frame goes between the ends of some channel, by its addresses.
fn has_known_addresses(frame: &[u8], channels: &[Channel]) -> bool
    requires { 34 ≤ length frame.now }
    ensures { result ≡ has_known_addresses channels.now (fields_of frame.now) }
{
    channels
        .iter()
        .any(|channel| has_addresses_of(frame, channel))
}

// The side that sends, where the frame goes between the ends of the channel.
#[tactic(auto, unfolding(crate::specs::Frame::direction_of))]
fn sender(frame: &[u8], channel: &Channel) -> Option<Side>
    requires addresses { 34 ≤ length frame.now }
    requires ports { 18 + header_length_of frame.now ≤ length frame.now }
    ensures { result ≡ option_map (λ (d : Direction). d.side) (direction_of (channel.now ∷ []) (fields_of frame.now)) }
{
    if goes(frame, &channel.client, &channel.server) {
        Some(Side::Client)
    } else if goes(frame, &channel.server, &channel.client) {
        Some(Side::Server)
    } else {
        None
    }
}

// The number of the first channel between whose ends the frame goes, and the side that sends.
#[inline(always)]
fn direction(frame: &[u8], channels: &[Channel]) -> Option<(u8, Side)>
    requires channels { length channels.now ≤ 255 }
    requires addresses { 34 ≤ length frame.now }
    requires ports { 18 + header_length_of frame.now ≤ length frame.now }
    ensures { result ≡ option_map (λ (d : Direction). (d.channel, d.side)) (direction_of channels.now (fields_of frame.now)) }
{
    for (i, channel) in channels.iter().enumerate() {
        if let Some(side) = sender(frame, channel) {
            return Some(((i + 1) as u8, side));
        }
    }
    None
}

// The datagram in a frame that has no tag.
#[inline(always)]
#[tactic(auto, unfolding(crate::specs::Frame::found_by))]
fn untagged_datagram<'a>(
    frame: &'a [u8],
    channels: &[Channel],
) -> Result<Option<Datagram<'a>>, Fault>
    requires { length channels.now ≤ 255 }
    ensures { map_found packet_of result ≡ map_found (packet_at frame.now) (untagged_of channels.now frame.now) }
{
    if frame.len() < ETHERNET_HEADER + LEAST_IPV4_HEADER || u16_at(frame, TYPE_AT) != IPV4 {
        return Ok(None);
    }
    let header = header_length(frame);
    if frame[VERSION_AT] >> 4 != 4 || header < LEAST_IPV4_HEADER || frame[PROTOCOL_AT] != UDP {
        return Ok(None);
    }
    if !has_known_addresses(frame, channels) {
        return Ok(None);
    }
    if is_fragment(frame) {
        return Err(Fault::at(Fault::FRAGMENT, 0));
    }
    let total = u16_at(frame, TOTAL_LENGTH_AT) as usize;
    if total < header + UDP_HEADER {
        return Err(Fault::at(Fault::BAD_UDP, 0));
    }
    let udp = ETHERNET_HEADER + header;
    if frame.len() < udp + UDP_HEADER {
        return Err(Fault::at(Fault::CUT_PACKET, 0));
    }
    let Some((channel, side)) = direction(frame, channels) else {
        return Ok(None);
    };
    let length = u16_at(frame, udp + UDP_LENGTH_AT) as usize;
    if length < UDP_HEADER || length > total - header {
        return Err(Fault::at(Fault::BAD_UDP, 0));
    }
    if frame.len() < udp + length {
        return Err(Fault::at(Fault::CUT_PACKET, 0));
    }
    let payload = &frame[udp + UDP_HEADER..udp + length];
    Ok(Some(Datagram {
        channel,
        side,
        payload,
    }))
}

/// The datagram of a channel that a frame holds, or `None` where it is of no channel. Channels are numbered
/// from 1, in their order.
///
/// One tag of IEEE 802.1Q and options of IPv4 are passed over, and what follows the datagram is no data.
/// Refused, at place 0, by [`Fault::FRAGMENT`], [`Fault::BAD_UDP`] (a total length or a UDP length that can't
/// be) and [`Fault::CUT_PACKET`] (not all of it was captured).
#[inline(always)]
#[tactic(auto, using(crate::proofs::Tags::packet_in_tagged, crate::proofs::Tags::packet_in_untagged))]
pub fn datagram_in<'a>(frame: &'a [u8], channels: &[Channel]) -> Result<Option<Datagram<'a>>, Fault>
    requires { length channels.now ≤ 255 }
    ensures { map_found packet_of result ≡ packet_in channels.now frame.now }
{
    if is_tagged(frame) {
        // Nothing of the first 12 bytes is read.
        untagged_datagram(&frame[TAG..], channels)
    } else {
        untagged_datagram(frame, channels)
    }
}

/// The datagram of a channel in the frame of a record, as [`datagram_in`] finds it.
#[inline(always)]
pub fn datagram<'a>(
    record: &Record<'a>,
    channels: &[Channel],
) -> Result<Option<Datagram<'a>>, Fault>
    requires { length channels.now ≤ 255 }
    ensures { map_found packet_of result ≡ packet_in channels.now «record».now.bytes.now }
{
    datagram_in(record.bytes, channels)
}
