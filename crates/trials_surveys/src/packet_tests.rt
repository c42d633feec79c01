//! What is recognized of packets: their fields as they were made, for each type of PDU and each length of the codes.
use crate::made::{MadePdu, datagram_of, frame_of};
use rasta_pcap::{CaptureTime, FractionUnit};
use rasta_pdu::{Channel, Endpoint, Kind};
use rasta_udp::Record;
use seatmelon_packets::{Fit, Fits, Offer, Packet, Recognizer, Way, packet_in};
use std::alloc::Global;

const TIME: CaptureTime = CaptureTime {
    seconds: 7,
    fraction: 1,
    unit: FractionUnit::Microseconds,
};

// Both ends on the first channel, and the ways between them.
const FIRST: Endpoint = Endpoint {
    address: [10, 0, 1, 1],
    port: 0x1301,
};

const SECOND: Endpoint = Endpoint {
    address: [10, 0, 1, 2],
    port: 0x1301,
};

const FORTH: Channel = Channel {
    client: FIRST,
    server: SECOND,
};

const BACK: Channel = Channel {
    client: SECOND,
    server: FIRST,
};

const PDU: MadePdu = MadePdu {
    sender: 7,
    receiver: 9,
    code_length: 8,
    check_length: 0,
    kind: Kind::Heartbeat,
    number: 3,
    message_length: 5,
};

// The form of each type has one length, so only the right length of the code fits.
fn fit(pdu: &MadePdu, code_length: u8) -> Fit {
    if pdu.code_length == code_length {
        Fit::StartWords
    } else {
        Fit::None
    }
}

fn fits_of(pdu: &MadePdu) -> Fits {
    Fits {
        no_code: fit(pdu, 0),
        short_code: fit(pdu, 8),
        long_code: fit(pdu, 16),
        check_length: pdu.check_length,
    }
}

fn offer_of(kind: Kind) -> Option<Offer> {
    match kind {
        Kind::ConnectionRequest | Kind::ConnectionResponse => Some(Offer {
            record: 5,
            version: *b"0303",
            sendmax: 20,
        }),
        _ => None,
    }
}

// What record 5 holds, with this hash.
fn packet_of(pdu: &MadePdu, route: Channel, hash: u64) -> Packet {
    Packet {
        record: 5,
        time: Some(TIME),
        way: Way {
            sender: pdu.sender,
            receiver: pdu.receiver,
            route,
        },
        kind: pdu.kind,
        number: pdu.number,
        sn: pdu.number.wrapping_add(100),
        cs: 500,
        ts: 1000,
        cts: 9000,
        fits: fits_of(pdu),
        offer: offer_of(pdu.kind),
        reason: (pdu.kind == Kind::DisconnectionRequest).then_some(4),
        hash,
    }
}

fn found_in(recognizer: &mut Recognizer, frame: &[u8]) -> Option<Packet> {
    let record = Record {
        number: 5,
        bytes: frame,
    };
    packet_in(recognizer, &record, Some(TIME))
}

fn frame(alloc: Global, pdu: &MadePdu, is_back: bool) -> Option<Vec<u8>> {
    let datagram = datagram_of(alloc, pdu)?;
    frame_of(alloc, 1, is_back, datagram.as_slice())
}

// Whether a PDU is found as it was made, both ways.
fn is_found(alloc: Global, pdu: &MadePdu) -> Option<bool> {
    let mut recognizer = Recognizer::new(alloc);
    for (is_back, route) in [(false, FORTH), (true, BACK)] {
        let found = found_in(&mut recognizer, &frame(alloc, pdu, is_back)?)?;
        if found != packet_of(pdu, route, found.hash) {
            return Some(false);
        }
    }
    Some(true)
}

#[test]
fn fields(rt: HostRuntime) {
    for kind in Kind::ALL {
        for (code_length, check_length) in [(0, 0), (0, 4), (8, 0), (8, 2), (16, 0), (16, 4)] {
            let pdu = MadePdu {
                kind,
                code_length,
                check_length,
                ..PDU
            };
            let is_found = is_found(rt.alloc(), &pdu);
            assert_eq!(rt;
                is_found,
                Some(true),
                "{kind:?}, {code_length}, {check_length}"
            );
        }
    }
}

// The frame of the PDU with other bytes there.
fn changed(alloc: Global, place: usize, bytes: &[u8]) -> Option<Vec<u8>> {
    let frame = frame(alloc, &PDU, false)?;
    let (front, rest) = frame.as_slice().split_at_checked(place)?;
    let mut copy = front.to_vec(alloc).ok()?;
    copy.extend_from_slice(bytes).ok()?;
    copy.extend_from_slice(rest.get(bytes.len()..)?).ok()?;
    Some(copy)
}

// Whether no packet is found in the frame with other bytes there.
fn is_none(alloc: Global, place: usize, bytes: &[u8]) -> Option<bool> {
    let frame = changed(alloc, place, bytes)?;
    Some(found_in(&mut Recognizer::new(alloc), &frame).is_none())
}

// Where an address, a port and a field of the datagram stand in a frame.
const DESTINATION: usize = 30;

const SOURCE_PORT: usize = 34;

const DESTINATION_PORT: usize = 36;

const DATAGRAM: usize = 42;

// A port of 0, one place for both ends, an unknown type, the ids of one end, and a length that doesn't fit.
#[test]
fn no_packets(rt: HostRuntime) {
    assert_eq!(rt; is_none(rt.alloc(), SOURCE_PORT, &[0, 0]), Some(true));
    assert_eq!(rt; is_none(rt.alloc(), DESTINATION_PORT, &[0, 0]), Some(true));
    assert_eq!(rt;
        is_none(rt.alloc(), DESTINATION, &[10, 0, 1, 1]),
        Some(true)
    );
    assert_eq!(rt; is_none(rt.alloc(), DATAGRAM + 10, &[1]), Some(true));
    assert_eq!(rt;
        is_none(rt.alloc(), DATAGRAM + 12, &[7, 0, 0, 0]),
        Some(true)
    );
    assert_eq!(rt; is_none(rt.alloc(), DATAGRAM + 8, &[0]), Some(true));
}

// Whether of a PDU, its copy, one whose code differs, and the copy again the third alone has another hash, and a code
// that doesn't fit.
fn are_told_apart(alloc: Global) -> Option<bool> {
    let mut recognizer = Recognizer::new(alloc);
    let first = frame(alloc, &PDU, false)?;
    let other = changed(alloc, first.len().checked_sub(1)?, &[0])?;
    let found = found_in(&mut recognizer, &first)?;
    let copy = found_in(&mut recognizer, &first)?;
    let differing = found_in(&mut recognizer, &other)?;
    let again = found_in(&mut recognizer, &first)?;
    let is_form = differing.fits.short_code == Fit::Form;
    Some(copy == found && again == found && differing.hash != found.hash && is_form)
}

#[test]
fn copies(rt: HostRuntime) {
    assert_eq!(rt; are_told_apart(rt.alloc()), Some(true));
}
