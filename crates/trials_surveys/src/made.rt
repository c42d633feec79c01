//! Made records, for tests.
use rasta_pdu::{Body, Channel, Endpoint, Kind, Params, PduParts, Side, encode};
use std::alloc::Global;
use trials_rows::{RFC_WORDS, push_frame};

const ANY_CHANNEL: Channel = Channel {
    client: Endpoint {
        address: [0; 4],
        port: 1,
    },
    server: Endpoint {
        address: [0; 4],
        port: 2,
    },
};

const MESSAGE: [u8; 40] = *b"0123456789abcdefghijklmnopqrstuvwxyz-.;:";

const CHECK: [u8; 4] = *b"\xc3\x5a\x69\x96";

/// A PDU to be made.
#[derive(Clone, Copy)]
pub struct MadePdu {
    pub sender: u32,
    pub receiver: u32,
    pub code_length: u8,
    pub check_length: u8,
    pub kind: Kind,
    pub number: u32,
    pub message_length: usize,
}

fn params_of(pdu: &MadePdu) -> Option<Params> {
    Params::new(
        pdu.sender,
        pdu.receiver,
        pdu.code_length,
        RFC_WORDS,
        pdu.check_length,
        1,
        1,
        0,
        1,
        1,
        &[ANY_CHANNEL],
        None,
    )
}

fn body_of<'a>(kind: Kind, messages: &'a [&'a [u8]]) -> Body<&'a [&'a [u8]]> {
    match kind {
        Kind::ConnectionRequest | Kind::ConnectionResponse => Body::Opening {
            version: *b"0303",
            sendmax: 20,
            reserved: [0; 8],
        },
        Kind::DisconnectionRequest => Body::Bye {
            detail: 0,
            reason: 4,
        },
        Kind::Data | Kind::RetransmittedData => Body::Messages(messages),
        _ => Body::Empty,
    }
}

/// The datagram of a PDU; none where there is none or memory runs out.
pub fn datagram_of(alloc: Global, pdu: &MadePdu) -> Option<Vec<u8>> {
    let params = params_of(pdu)?;
    let messages = [MESSAGE.get(..pdu.message_length)?];
    let parts = PduParts {
        number: pdu.number,
        reserve: 0,
        kind: pdu.kind,
        sn: pdu.number.wrapping_add(100),
        cs: 500,
        ts: 1000,
        cts: 9000,
        body: body_of(pdu.kind, &messages),
        check_bytes: CHECK.get(..usize::from(pdu.check_length))?,
    };
    if !parts.fits(&params) {
        return None;
    }
    let mut bytes = Vec::new(alloc);
    encode(&params, Side::Client, &parts, &mut bytes).ok()?;
    Some(bytes)
}

// The host of this number in a net.
fn endpoint(net: u8, host: u8) -> Endpoint {
    Endpoint {
        address: [10, 0, net, host],
        port: u16::from_be_bytes([0x13, net]),
    }
}

/// The frame that carries a datagram on a channel, one way or the other; none where memory runs out.
pub fn frame_of(alloc: Global, channel: u8, is_back: bool, datagram: &[u8]) -> Option<Vec<u8>> {
    let side = if is_back { Side::Server } else { Side::Client };
    let channel = Channel {
        client: endpoint(channel, 1),
        server: endpoint(channel, 2),
    };
    let mut frame = Vec::new(alloc);
    push_frame(&mut frame, side, &channel, datagram)?;
    Some(frame)
}
