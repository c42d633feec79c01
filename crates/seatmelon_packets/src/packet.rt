//! Packets that have the form of RaSTA.
ghost use Rattle.std.specs.Prelude.{◌≡◌, None};
ghost use Rattle.seatmelon_packets.specs.Cut.{cut_in, cut_of};

use crate::cut::{Cut, has_form};
use crate::lengths::Fits;
use crate::recognizer::{Features, Recognizer};
use rasta_pcap::CaptureTime;
use rasta_pdu::fields::{ending_in, opening_in};
use rasta_pdu::layout::PAYLOAD_AT;
use rasta_pdu::{Fields, Kind};
use rasta_udp::{Channel, Fault, Record, datagram_in, route_in};

/// What an end says of itself at the opening, in which record: its version, four digits, and its N_sendmax.
#[derive(Clone, Copy, PartialEq, Eq)]
pub struct Offer {
    pub record: u32,
    pub version: [u8; 4],
    pub sendmax: u16,
}

/// The ids and the way of a PDU.
#[derive(Clone, Copy, PartialEq, Eq)]
pub struct Way {
    pub sender: u32,
    pub receiver: u32,

    /// From its source, as the client, to its destination.
    pub route: Channel,
}

/// A packet that has the form of RaSTA.
#[derive(Clone, Copy, PartialEq, Eq)]
pub struct Packet {
    /// The number of its record, from 1.
    pub record: u32,

    /// When it was captured, where that is known.
    pub time: Option<CaptureTime>,
    pub way: Way,
    pub kind: Kind,

    /// Of the redundancy layer.
    pub number: u32,
    pub sn: u32,
    pub cs: u32,
    pub ts: u32,
    pub cts: u32,
    pub fits: Fits,

    /// Of a connection request or response.
    pub offer: Option<Offer>,

    /// Of a disconnection request.
    pub reason: Option<u16>,

    /// Of its bytes, by which copies are compared.
    pub hash: u64,
}

fn offer_in(record: u32, kind: Kind, payload: &[u8]) -> Option<Offer> {
    if !matches!(kind, Kind::ConnectionRequest | Kind::ConnectionResponse) {
        return None;
    }
    let (version, sendmax) = opening_in(payload)?;
    Some(Offer {
        record,
        version,
        sendmax,
    })
}

fn reason_in(kind: Kind, payload: &[u8]) -> Option<u16> {
    if kind != Kind::DisconnectionRequest {
        return None;
    }
    let (_, reason) = ending_in(payload)?;
    Some(reason)
}

// Whether the ids are those of two ends, and the addresses and ports those of two places.
#[inline(always)]
fn is_between_two_ends(way: &Way) -> bool {
    let Channel { client, server } = way.route;
    way.sender != way.receiver && client != server && client.port >= 1 && server.port >= 1
}

/// What is seen of a record.
#[derive(Clone, Copy)]
pub enum Sight {
    /// A packet whose datagram has the form of RaSTA for some lengths of the codes.
    Packet(Packet),

    /// A datagram that wasn't captured whole, whatever it is.
    Cut(Cut),

    /// Neither.
    Other,
}

// The packet that a datagram on this route holds, if it has the form of RaSTA for some lengths of the codes.
fn packet_by(
    recognizer: &mut Recognizer,
    number: u32,
    time: Option<CaptureTime>,
    route: Channel,
    bytes: &[u8],
) -> Option<Packet> {
    let payload = bytes.get(PAYLOAD_AT..)?;
    let fields = Fields::of(bytes);
    let kind = fields.kind()?;
    let way = Way {
        sender: fields.sender?,
        receiver: fields.receiver?,
        route,
    };
    if !is_between_two_ends(&way) {
        return None;
    }
    let Features { fits, hash } = recognizer.features_of(bytes)?;
    Some(Packet {
        record: number,
        time,
        way,
        kind,
        number: fields.number?,
        sn: fields.sn?,
        cs: fields.cs?,
        ts: fields.ts?,
        cts: fields.cts?,
        fits,
        offer: offer_in(number, kind, payload),
        reason: reason_in(kind, payload),
        hash,
    })
}

// A packet, if there is one.
fn sight_of(packet: Option<Packet>) -> Sight
    ensures { cut_of result ≡ None }
{
    match packet {
        Some(packet) => Sight::Packet(packet),
        None => Sight::Other,
    }
}

/// What a record holds: a packet, or a datagram that wasn't captured whole.
pub fn sight_in(recognizer: &mut Recognizer, found: &Record<'_>, time: Option<CaptureTime>) -> Sight
    ensures { cut_of result ≡ cut_in found.now.bytes.now }
{
    let Some(route) = route_in(found.bytes) else {
        return Sight::Other;
    };
    match datagram_in(found.bytes, &[route]) {
        Ok(Some(datagram)) => {
            let bytes = datagram.payload;
            sight_of(packet_by(recognizer, found.number, time, route, bytes))
        }
        Err(fault) if fault.number == Fault::CUT_PACKET => Sight::Cut(Cut {
            route,
            has_form: has_form(found.bytes),
        }),
        Ok(None) | Err(_) => Sight::Other,
    }
}

/// The packet that a record holds, if its datagram has the form of RaSTA for some lengths of the codes.
pub fn packet_in(
    recognizer: &mut Recognizer,
    found: &Record<'_>,
    time: Option<CaptureTime>,
) -> Option<Packet> {
    match sight_in(recognizer, found, time) {
        Sight::Packet(packet) => Some(packet),
        Sight::Cut(_) | Sight::Other => None,
    }
}
