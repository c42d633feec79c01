//! PDUs as rows write them, and their datagrams.
use rasta_pdu::{Body, Kind, Params, Pdu, PduParts, Side, decode, encode};
use std::alloc::Global;

const OPENING: Body<&[&[u8]]> = Body::Opening {
    version: *b"0303",
    sendmax: 20,
    reserved: [0; 8],
};

fn bye(detail: u16, reason: u16) -> Body<&'static [&'static [u8]]> {
    Body::Bye { detail, reason }
}

const AB01: [&[u8]; 1] = [b"\xab\x01"];

const AB01_AND_NONE: [&[u8]; 2] = [b"\xab\x01", b""];

const X01: [&[u8]; 1] = [b"\x01"];

const X02: [&[u8]; 1] = [b"\x02"];

const X03: [&[u8]; 1] = [b"\x03"];

const X11: [&[u8]; 1] = [b"\x11"];

const X12: [&[u8]; 1] = [b"\x12"];

fn body_of(word: &str) -> Option<Body<&'static [&'static [u8]]>> {
    match word {
        "open" => Some(OPENING),
        "-" => Some(Body::Empty),
        "bye0" => Some(bye(0, 0)),
        "bye1" => Some(bye(0, 1)),
        "bye4" => Some(bye(0, 4)),
        "bye1,4" => Some(bye(1, 4)),
        "dataab01" => Some(Body::Messages(AB01.as_slice())),
        "dataab01,." => Some(Body::Messages(AB01_AND_NONE.as_slice())),
        "data01" => Some(Body::Messages(X01.as_slice())),
        "data02" => Some(Body::Messages(X02.as_slice())),
        "data03" => Some(Body::Messages(X03.as_slice())),
        "data11" => Some(Body::Messages(X11.as_slice())),
        "data12" => Some(Body::Messages(X12.as_slice())),
        _ => None,
    }
}

fn kind_of(word: &str) -> Option<Kind> {
    match word {
        "6200" => Some(Kind::ConnectionRequest),
        "6201" => Some(Kind::ConnectionResponse),
        "6212" => Some(Kind::RetransmissionRequest),
        "6213" => Some(Kind::RetransmissionResponse),
        "6216" => Some(Kind::DisconnectionRequest),
        "6220" => Some(Kind::Heartbeat),
        "6240" => Some(Kind::Data),
        "6241" => Some(Kind::RetransmittedData),
        _ => None,
    }
}

fn check_bytes_of(word: &str) -> Option<&'static [u8]> {
    match word {
        "aabb" => Some(b"\xaa\xbb"),
        "aabbcc" => Some(b"\xaa\xbb\xcc"),
        "aabbccdd" => Some(b"\xaa\xbb\xcc\xdd"),
        "" => Some(b""),
        _ => None,
    }
}

/// The side that a line or a word begins with: the client's, or else the server's.
pub fn side_of(line: &str) -> Side {
    if line.starts_with("client") {
        Side::Client
    } else {
        Side::Server
    }
}

/// What a line says: `SIDE NUMBER TYPE SN CS TS CTS BODY CHECK`, where a line without check bytes ends
/// after the body.
pub fn parts_of(line: &str) -> Option<PduParts<'static>> {
    let mut words = line.split(' ');
    Some(PduParts {
        number: words.nth(1)?.parse().ok()?,
        reserve: 0,
        kind: kind_of(words.next()?)?,
        sn: words.next()?.parse().ok()?,
        cs: words.next()?.parse().ok()?,
        ts: words.next()?.parse().ok()?,
        cts: words.next()?.parse().ok()?,
        body: body_of(words.next()?)?,
        check_bytes: check_bytes_of(words.next().unwrap_or(""))?,
    })
}

/// The datagram of a line; none where it is no line, doesn't fit or memory runs out.
pub fn datagram(alloc: Global, params: &Params, line: &str) -> Option<Vec<u8>> {
    let mut bytes = Vec::new(alloc);
    let parts = parts_of(line)?;
    if !parts.fits(params) {
        return None;
    }
    encode(params, side_of(line), &parts, &mut bytes).ok()?;
    Some(bytes)
}

/// The datagrams of some lines; none where one has none or memory runs out.
pub fn datagrams(alloc: Global, params: &Params, lines: &str) -> Option<Vec<Vec<u8>>> {
    let mut all = Vec::new(alloc);
    for line in lines.lines() {
        all.push(datagram(alloc, params, line)?).ok()?;
    }
    Some(all)
}

/// The side of the line at a place.
pub fn side_at(lines: &str, place: usize) -> Option<Side> {
    lines.lines().nth(place).map(side_of)
}

/// The PDU of the line at a place.
pub fn pdu_of<'a>(
    params: &Params,
    lines: &str,
    all: &'a [Vec<u8>],
    place: usize,
) -> Option<Pdu<'a>> {
    let side = side_of(lines.lines().nth(place)?);
    decode(params, side, all.get(place)?.as_slice()).ok()
}
