//! PDUs that the tap is supposed to have missed.
ghost use Rattle.std.specs.Prelude.{◌≡◌, ◌++◌, map, Some, IfOk, OnOk};
ghost use Rattle.rasta_pdu.specs.Parts.{lists_of, parts_body};
ghost use Rattle.rasta_pdu.specs.Pdu.{messages_in, redundancy_bytes, value_of};
ghost use Rattle.seatmelon_reading.specs.Tapes.{taped_as};
ghost use Rattle.seatmelon_suppose.specs.Spelling.{body_with, datagram_supposed, messages_like, messages_of_packet, pdu_with};

use rasta_pcap::{Fault, Side};
use rasta_pdu::{Body, Kind, Params, Pdu, PduParts, decode, encode};
use seatmelon_reading::Taped;
use std::alloc::{AllocError, Global};

/// What a PDU says, but for its body.
#[derive(Clone, Copy, PartialEq, Eq)]
pub struct Fields {
    pub kind: Kind,

    /// Its redundancy number.
    pub number: u32,

    pub sn: u32,
    pub cs: u32,
    pub ts: u32,
    pub cts: u32,
}

/// A PDU that the tap is supposed to have missed.
#[derive(Clone, Copy, PartialEq, Eq)]
pub struct Supposed {
    /// The place of the captured packet just before which it crossed.
    pub before: usize,

    pub sender: Side,
    pub fields: Fields,

    /// The place of the captured packet whose messages it has; none where data has an empty message.
    pub like: Option<usize>,
}

// The messages of a PDU.
fn messages_in<'a>(alloc: Global, pdu: &Pdu<'a>) -> Result<Vec<&'a [u8]>, AllocError>
    ensures { IfOk result (λ messages. lists_of messages.items ≡ messages_in (value_of pdu.now).safety.body) }
{
    let mut messages = Vec::new(alloc);
    for message in pdu.messages() {
        messages.push(message)?;
    }
    Ok(messages)
}

// The messages of a packet.
fn messages_of<'a>(
    alloc: Global,
    params: &Params,
    taped: &'a Taped,
) -> Result<Vec<&'a [u8]>, AllocError>
    ensures { IfOk result (λ messages. lists_of messages.items ≡ messages_of_packet params.now (Some (taped_as taped.now))) }
{
    match decode(params, taped.sender, &taped.datagram) {
        Ok(pdu) => messages_in(alloc, &pdu),
        Err(_) => Ok(Vec::new(alloc)),
    }
}

// The messages that data has, like those of a captured packet.
fn messages_like<'a>(
    alloc: Global,
    params: &Params,
    packets: &'a [Taped],
    like: Option<usize>,
) -> Result<Vec<&'a [u8]>, AllocError>
    ensures { IfOk result (λ messages. lists_of messages.items ≡ messages_like params.now (map taped_as packets.now) like) }
{
    let Some(place) = like else {
        let mut messages: Vec<&'a [u8]> = Vec::new(alloc);
        messages.push(&[])?;
        return Ok(messages);
    };
    match packets.get(place) {
        Some(taped) => messages_of(alloc, params, taped),
        None => Ok(Vec::new(alloc)),
    }
}

// What a PDU of this type has after its time stamps.
fn body_of<'a>(kind: Kind, messages: &'a [&'a [u8]]) -> Body<&'a [&'a [u8]]>
    ensures { parts_body result ≡ body_with kind (lists_of messages.now) }
{
    if kind.is(Kind::Data) || kind.is(Kind::RetransmittedData) {
        Body::Messages(messages)
    } else {
        Body::Empty
    }
}

// Appends the datagram of a PDU with these messages, if it has any.
fn append(
    params: &Params,
    supposed: Supposed,
    messages: &[&[u8]],
    out: &mut Vec<u8>,
) -> Result<(), Fault>
    ensures { OnOk result (out.new.items ≡ out.old.items
        ++ redundancy_bytes params.now supposed.sender (pdu_with params.now supposed (lists_of messages.now))) }
{
    let zeros = [0u8; 4];
    let length = usize::from(params.check_length());
    if length > zeros.len() {
        return Err(Fault::at(Fault::PAYLOAD, 0));
    }
    let Fields {
        kind,
        number,
        sn,
        cs,
        ts,
        cts,
    } = supposed.fields;
    let parts = PduParts {
        number,
        reserve: 0,
        kind,
        sn,
        cs,
        ts,
        cts,
        body: body_of(kind, messages),
        check_bytes: &zeros[..length],
    };
    if !parts.fits(params) {
        return Err(Fault::at(Fault::PAYLOAD, 0));
    }
    encode(params, supposed.sender, &parts, out)
}

/// The datagram of a supposed PDU, which may have the messages of one of these packets. One that can't be spelled is refused.
pub fn datagram_of(
    alloc: Global,
    params: &Params,
    packets: &[Taped],
    supposed: Supposed,
) -> Result<Vec<u8>, Fault>
    ensures { IfOk result (λ datagram. datagram.items ≡ datagram_supposed params.now (map taped_as packets.now) supposed) }
{
    let messages = messages_like(alloc, params, packets, supposed.like)?;
    let mut datagram = Vec::new(alloc);
    append(params, supposed, &messages, &mut datagram)?;
    Ok(datagram)
}
