//! Why a frame holds no packet of the recorded channels.
ghost use Rattle.std.specs.Prelude.{◌≡◌, ◌≤◌, length};
ghost use Rattle.rasta_udp.specs.Frame.{fields_of, packet_in};
ghost use Rattle.seatmelon_reading.specs.PassedOver.{has_outer_tag, is_behind_tag, is_behind_tags, is_of_channels, is_udp, untagged, why_not};

use crate::passed_over::WhyPassed;
use rasta_udp::fields::{header_length, is_tagged, u16_at};
use rasta_udp::layout::{
    IPV4, LEAST_IPV4_FRAME, LEAST_IPV4_HEADER, PROTOCOL_AT, TAG, TAGGED, TYPE_AT, UDP, VERSION_AT,
};
use rasta_udp::{Channel, datagram_in};

// The type field of Ethernet II of a tag of IEEE 802.1ad.
const SERVICE_TAGGED: u16 = 0x88a8;

// Whether a frame without a tag holds UDP over IPv4.
fn is_udp(frame: &[u8]) -> bool
    ensures { result ≡ is_udp (fields_of frame.now) }
{
    frame.len() >= LEAST_IPV4_FRAME
        && u16_at(frame, TYPE_AT) == IPV4
        && frame[VERSION_AT] >> 4 == 4
        && header_length(frame) >= LEAST_IPV4_HEADER
        && frame[PROTOCOL_AT] == UDP
}

// Whether a frame holds UDP over IPv4.
fn holds_udp(frame: &[u8]) -> bool
    ensures { result ≡ is_udp (fields_of (untagged frame.now)) }
{
    if is_tagged(frame) {
        // Nothing of the first 12 bytes is read.
        is_udp(&frame[TAG..])
    } else {
        is_udp(frame)
    }
}

fn has_outer_tag(frame: &[u8]) -> bool
    ensures { result ≡ has_outer_tag frame.now }
{
    if frame.len() < 16 {
        return false;
    }
    let found = u16_at(frame, TYPE_AT);
    found == TAGGED || found == SERVICE_TAGGED
}

// Whether a frame holds a packet of the channels, or a faulty one of their hosts.
fn is_of_channels(frame: &[u8], channels: &[Channel]) -> bool
    requires { length channels.now ≤ 255 }
    ensures { result ≡ is_of_channels (packet_in channels.now frame.now) }
{
    match datagram_in(frame, channels) {
        Ok(None) => false,
        Ok(Some(_)) | Err(_) => true,
    }
}

// Whether it holds one without its outer tag.
fn is_behind_tag(frame: &[u8], channels: &[Channel]) -> bool
    requires { length channels.now ≤ 255 }
    ensures { result ≡ is_behind_tag channels.now frame.now }
{
    // Nothing of the first 12 bytes is read.
    has_outer_tag(frame) && is_of_channels(&frame[TAG..], channels)
}

// Whether it holds one without its outer tag, or without two of them.
fn is_behind_tags(frame: &[u8], channels: &[Channel]) -> bool
    requires { length channels.now ≤ 255 }
    ensures { result ≡ is_behind_tags channels.now frame.now }
{
    has_outer_tag(frame)
        && (is_behind_tag(frame, channels) || is_behind_tag(&frame[TAG..], channels))
}

/// Why a frame holds no packet of the channels, and no faulty one of their hosts.
pub fn why_not(frame: &[u8], channels: &[Channel]) -> WhyPassed
    requires { length channels.now ≤ 255 }
    ensures { result ≡ why_not channels.now frame.now }
{
    if is_behind_tags(frame, channels) {
        WhyPassed::Tagged
    } else if holds_udp(frame) {
        WhyPassed::Elsewhere
    } else {
        WhyPassed::NotUdp
    }
}
