//! Datagrams that weren't captured whole.
ghost use Rattle.std.specs.Prelude.{◌≡◌, ◌+◌, ◌-◌, ◌≤◌, ◌==◌, ◌&&◌, length, is_some};
ghost use Rattle.rasta_pdu.specs.Pdu.{kind_of};
ghost use Rattle.rasta_pdu.specs.Pdu as pdus;
ghost use Rattle.rasta_udp.specs.Frame.{header_length_of};
ghost use Rattle.seatmelon_packets.specs.Cut.{begins_behind, begins_by, begins_pdu, has_form};
ghost use Rattle.seatmelon_packets.specs.Features.{check_length_in};

use crate::recognizer::check_length_in;
use rasta_pdu::layout::{LENGTH_AT, RECEIVER_AT, SAFETY_AT, TYPE_AT};
use rasta_pdu::{Kind, fields};
use rasta_udp::Channel;
use rasta_udp::fields::{header_length, u16_at, untagged};
use rasta_udp::layout::{ETHERNET_HEADER, LEAST_IPV4_FRAME, UDP_HEADER, UDP_LENGTH_AT};

/// What a datagram that wasn't captured whole tells of itself.
#[derive(Clone, Copy, PartialEq, Eq)]
pub struct Cut {
    /// From its source, as the client, to its destination.
    pub route: Channel,

    /// Whether it has the form of RaSTA as far as it was captured, up to its type at least.
    pub has_form: bool,
}

// Whether what was captured of a datagram of this length begins as RaSTA does.
#[tactic(auto, unfolding(rasta_pdu::specs::Pdu::little_at, crate::specs::Cut::begins_pdu))]
fn begins_pdu(due: usize, bytes: &[u8]) -> bool
    ensures { result ≡ begins_pdu due bytes.now }
{
    bytes.len() >= RECEIVER_AT
        && usize::from(fields::u16_at(bytes, LENGTH_AT)) == due
        && check_length_in(
            usize::from(fields::u16_at(bytes, SAFETY_AT)),
            due.saturating_sub(SAFETY_AT),
        )
        .is_some()
        && Kind::of(fields::u16_at(bytes, TYPE_AT)).is_some()
}

// Whether the datagram behind this header of UDP begins as RaSTA does.
fn begins_behind(udp: &[u8]) -> bool
    ensures { result ≡ begins_behind udp.now }
{
    if udp.len() < UDP_HEADER {
        return false;
    }
    let due = usize::from(u16_at(udp, UDP_LENGTH_AT)).saturating_sub(UDP_HEADER);
    begins_pdu(due, &udp[UDP_HEADER..])
}

// Whether the datagram in a frame without a tag begins as RaSTA does.
fn begins_by(frame: &[u8]) -> bool
    requires { 34 ≤ length frame.now }
    ensures { result ≡ begins_by frame.now }
{
    let udp = ETHERNET_HEADER + header_length(frame);
    if frame.len() < udp {
        return false;
    }
    begins_behind(&frame[udp..])
}

/// Whether the datagram in a frame has the form of RaSTA as far as it was captured, up to its type at least.
#[tactic(auto, unfolding(crate::specs::Cut::has_form))]
pub fn has_form(frame: &[u8]) -> bool
    ensures { result ≡ has_form frame.now }
{
    let frame = untagged(frame);
    if frame.len() < LEAST_IPV4_FRAME {
        return false;
    }
    begins_by(frame)
}
