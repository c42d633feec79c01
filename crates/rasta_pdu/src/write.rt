//! Writing a datagram.
ghost use Rattle.std.specs.Prelude.{◌≡◌, ◌≤◌, ◌<◌, ◌+◌, ◌^◌, ◌++◌, ◌⊎◌, length, drop, map, MatchOption, MatchResult, OnOk, OnErr, IsTrue, vec_len, vec_capacity};
ghost use Rattle.byteorder.specs.Endian.{little_bytes};
ghost use Rattle.rasta_udp.specs.Fault.{fault_at, no_memory, too_long};
ghost use Rattle.rasta_pdu.specs.Pdu.{IsRedundancyPdu, redundancy_bytes, uncoded_bytes, payload_of, length_of, code_over, type_of, receiver_of, sender_of};
ghost use Rattle.rasta_pdu.specs.Messages.{payload_of_messages};
ghost use Rattle.rasta_pdu.specs.Parts.{lists_of, parts_body, value_of_parts, parts_fit, BodyHasWidths, HaveWidths, most_bytes};

use crate::body::Body;
use crate::code::digest;
use crate::ids::recorded_ids;
use crate::kind::Kind;
use crate::layout::{BYE_LEN, LENGTH_LEN, OPENING_LEN, PAYLOAD_AT, SAFETY_AT};
use crate::params::Params;
use crate::parts::PduParts;
use rasta_udp::{Fault, Side};

/// The most bytes that a datagram of UDP over IPv4 carries.
const MOST_BYTES: usize = 65_507;

// How many bytes the messages take; none where they are more than a datagram carries.
fn messages_len(messages: &[&[u8]]) -> Option<usize>
    ensures { MatchOption result (most_bytes < length (payload_of_messages (lists_of messages.now)))
        (λ n. (n ≡ length (payload_of_messages (lists_of messages.now))) × (n ≤ most_bytes)) }
{
    let mut len = 0;
    for message in messages {
        if LENGTH_LEN + message.len() > MOST_BYTES - len {
            return None;
        }
        len += LENGTH_LEN + message.len();
    }
    Some(len)
}

// How many bytes the payload of a body takes; none where they are more than a datagram carries.
fn payload_len(body: Body<&[&[u8]]>) -> Option<usize>
    ensures len { MatchOption result (most_bytes < length (payload_of (parts_body body.entry)))
        (λ n. (n ≡ length (payload_of (parts_body body.entry))) × (n ≤ most_bytes)) }
    ensures widths { BodyHasWidths body.entry }
{
    match body {
        Body::Opening { .. } => Some(OPENING_LEN),
        Body::Bye { .. } => Some(BYE_LEN),
        Body::Messages(messages) => messages_len(messages),
        Body::Empty => Some(0),
    }
}

// How many bytes the datagram takes; none where they are more than a datagram carries.
fn datagram_len(params: &Params, parts: PduParts) -> Option<usize>
    ensures len { MatchOption result (most_bytes < length_of params.now (value_of_parts parts.entry))
        (λ n. (n ≡ length_of params.now (value_of_parts parts.entry)) × (n ≤ most_bytes)) }
    ensures numbers { HaveWidths parts.entry }
{
    let codes = usize::from(params.code_length()) + parts.check_bytes.len();
    let len = PAYLOAD_AT + codes + payload_len(parts.body)?;
    if len <= MOST_BYTES { Some(len) } else { None }
}

// Appends bytes for which there is room.
fn put(out: &mut Vec<u8>, bytes: &[u8])
    requires { vec_len out.old + length bytes.now ≤ vec_capacity out.old }
    ensures items { out.new.items ≡ out.old.items ++ bytes.now }
    ensures len { vec_len out.new ≡ vec_len out.old + length bytes.now }
    ensures capacity { vec_capacity out.old ≤ vec_capacity out.new }
{
    if out.extend_from_slice(bytes).is_err() {
        unreachable!()
    }
}

fn put_u16(out: &mut Vec<u8>, number: u16)
    requires { vec_len out.old + 2 ≤ vec_capacity out.old }
    ensures items { out.new.items ≡ out.old.items ++ little_bytes 2 number }
    ensures len { vec_len out.new ≡ vec_len out.old + 2 }
    ensures capacity { vec_capacity out.old ≤ vec_capacity out.new }
{
    put(out, &number.to_le_bytes());
}

fn put_u32(out: &mut Vec<u8>, number: u32)
    requires { vec_len out.old + 4 ≤ vec_capacity out.old }
    ensures items { out.new.items ≡ out.old.items ++ little_bytes 4 number }
    ensures len { vec_len out.new ≡ vec_len out.old + 4 }
    ensures capacity { vec_capacity out.old ≤ vec_capacity out.new }
{
    put(out, &number.to_le_bytes());
}

// Appends a message: its length and its bytes.
fn put_message(out: &mut Vec<u8>, message: &[u8])
    requires short { length message.now < 2 ^ 16 }
    requires room { vec_len out.old + 2 + length message.now ≤ vec_capacity out.old }
    ensures items { out.new.items ≡ out.old.items ++ (little_bytes 2 (length message.now) ++ message.now) }
    ensures len { vec_len out.new ≡ vec_len out.old + 2 + length message.now }
    ensures capacity { vec_capacity out.old ≤ vec_capacity out.new }
{
    put_u16(out, message.len() as u16);
    put(out, message);
}

fn put_messages(out: &mut Vec<u8>, messages: &[&[u8]])
    requires short { length (payload_of_messages (lists_of messages.now)) ≤ most_bytes }
    requires room { vec_len out.old + length (payload_of_messages (lists_of messages.now)) ≤ vec_capacity out.old }
    ensures items { out.new.items ≡ out.old.items ++ payload_of_messages (lists_of messages.now) }
    ensures len { vec_len out.new ≡ vec_len out.old + length (payload_of_messages (lists_of messages.now)) }
    ensures capacity { vec_capacity out.old ≤ vec_capacity out.new }
{
    for message in messages {
        put_message(out, message);
    }
}

fn put_opening(out: &mut Vec<u8>, version: [u8; 4], sendmax: u16, reserved: [u8; 8])
    requires { vec_len out.old + 14 ≤ vec_capacity out.old }
    ensures items { out.new.items ≡ out.old.items ++ (version ++ (little_bytes 2 sendmax ++ reserved)) }
    ensures len { vec_len out.new ≡ vec_len out.old + 14 }
    ensures capacity { vec_capacity out.old ≤ vec_capacity out.new }
{
    put(out, &version);
    put_u16(out, sendmax);
    put(out, &reserved);
}

fn put_body(out: &mut Vec<u8>, body: Body<&[&[u8]]>)
    requires short { length (payload_of (parts_body body)) ≤ most_bytes }
    requires room { vec_len out.old + length (payload_of (parts_body body)) ≤ vec_capacity out.old }
    ensures items { out.new.items ≡ out.old.items ++ payload_of (parts_body body.entry) }
    ensures len { vec_len out.new ≡ vec_len out.old + length (payload_of (parts_body body.entry)) }
    ensures capacity { vec_capacity out.old ≤ vec_capacity out.new }
{
    match body {
        Body::Opening {
            version,
            sendmax,
            reserved,
        } => put_opening(out, version, sendmax, reserved),
        Body::Bye { detail, reason } => {
            put_u16(out, detail);
            put_u16(out, reason);
        }
        Body::Messages(messages) => put_messages(out, messages),
        Body::Empty => (),
    }
}

// Appends the eight bytes before the safety PDU.
fn put_redundancy_fields(out: &mut Vec<u8>, len: u16, reserve: u16, number: u32)
    requires { vec_len out.old + 8 ≤ vec_capacity out.old }
    ensures items { out.new.items ≡ out.old.items ++ (little_bytes 2 len ++ (little_bytes 2 reserve ++ little_bytes 4 number)) }
    ensures len { vec_len out.new ≡ vec_len out.old + 8 }
    ensures capacity { vec_capacity out.old ≤ vec_capacity out.new }
{
    put_u16(out, len);
    put_u16(out, reserve);
    put_u32(out, number);
}

// Appends the length, the type and the ids of a safety PDU.
fn put_ids(out: &mut Vec<u8>, params: &Params, side: Side, kind: Kind, len: u16)
    requires { vec_len out.old + 12 ≤ vec_capacity out.old }
    ensures items { out.new.items ≡ out.old.items ++ (little_bytes 2 len ++ (little_bytes 2 (type_of kind)
        ++ (little_bytes 4 (receiver_of params.now side) ++ little_bytes 4 (sender_of params.now side)))) }
    ensures len { vec_len out.new ≡ vec_len out.old + 12 }
    ensures capacity { vec_capacity out.old ≤ vec_capacity out.new }
{
    let (receiver, sender) = recorded_ids(params, side);
    put_u16(out, len);
    put_u16(out, kind.number());
    put_u32(out, receiver);
    put_u32(out, sender);
}

// Appends the sequence numbers and the time stamps.
fn put_stamps(out: &mut Vec<u8>, parts: &PduParts)
    requires { vec_len out.old + 16 ≤ vec_capacity out.old }
    ensures items { out.new.items ≡ out.old.items ++ (little_bytes 4 parts.now.sn ++ (little_bytes 4 parts.now.cs
        ++ (little_bytes 4 parts.now.ts ++ little_bytes 4 parts.now.cts))) }
    ensures len { vec_len out.new ≡ vec_len out.old + 16 }
    ensures capacity { vec_capacity out.old ≤ vec_capacity out.new }
{
    put_u32(out, parts.sn);
    put_u32(out, parts.cs);
    put_u32(out, parts.ts);
    put_u32(out, parts.cts);
}

// Appends the safety PDU up to its payload's end.
fn put_uncoded(out: &mut Vec<u8>, params: &Params, side: Side, parts: &PduParts, len: u16)
    requires len { len ≡ 28 + length (payload_of (parts_body parts.now.body)) + params.now.code_length }
    requires short { length (payload_of (parts_body parts.now.body)) ≤ most_bytes }
    requires room { vec_len out.old + 28 + length (payload_of (parts_body parts.now.body)) ≤ vec_capacity out.old }
    ensures items { out.new.items ≡ out.old.items ++ uncoded_bytes params.now side (value_of_parts parts.now).safety }
    ensures len { vec_len out.new ≡ vec_len out.old + 28 + length (payload_of (parts_body parts.now.body)) }
    ensures capacity { vec_capacity out.old ≤ vec_capacity out.new }
{
    put_ids(out, params, side, parts.kind, len);
    put_stamps(out, parts);
    put_body(out, parts.body);
}

// Appends the safety code over the bytes from there on.
fn put_code(out: &mut Vec<u8>, params: &Params, from: usize)
    requires from { from ≤ vec_len out.old }
    requires room { vec_len out.old + params.now.code_length ≤ vec_capacity out.old }
    ensures items { out.new.items ≡ out.old.items ++ code_over params.now (drop from out.old.items) }
    ensures len { vec_len out.new ≡ vec_len out.old + params.now.code_length }
    ensures capacity { vec_capacity out.old ≤ vec_capacity out.new }
{
    let digest = digest(params, &out[from..]);
    put(out, &digest[..usize::from(params.code_length())]);
}

// Appends the datagram, of so many bytes, for which there is room.
fn append(out: &mut Vec<u8>, params: &Params, side: Side, parts: &PduParts, len: usize)
    requires fits { IsTrue (parts_fit params.now parts.now) }
    requires len { len ≡ length_of params.now (value_of_parts parts.now) }
    requires short { len ≤ most_bytes }
    requires room { vec_len out.old + len ≤ vec_capacity out.old }
    ensures items { out.new.items ≡ out.old.items ++ redundancy_bytes params.now side (value_of_parts parts.now) }
{
    let start = out.len();
    put_redundancy_fields(out, len as u16, parts.reserve, parts.number);
    let safety_len = len - SAFETY_AT - parts.check_bytes.len();
    put_uncoded(out, params, side, parts, safety_len as u16);
    put_code(out, params, start + SAFETY_AT);
    put(out, parts.check_bytes);
}

/// Appends the datagram of these parts, as this side sends it.
///
/// Refused by [`Fault::TOO_LONG`] where it would have more than 65,507 bytes, and else by
/// [`Fault::NO_MEMORY`] where `out` can't grow. After a refusal `out` has the bytes that it had.
pub fn encode(params: &Params, side: Side, parts: &PduParts, out: &mut Vec<u8>) -> Result<(), Fault>
    requires { IsTrue (parts_fit params.now parts.now) }

    // The one spelling of the value is appended.
    ensures appended { OnOk result (out.new.items ≡ out.old.items ++ redundancy_bytes params.now side (value_of_parts parts.now)) }

    // It is the spelling of a value that is read back.
    ensures spelled { OnOk result (IsRedundancyPdu params.now (value_of_parts parts.now)) }
    ensures unchanged { OnErr result (out.new.items ≡ out.old.items) }
    ensures faults { MatchResult result (λ _. length_of params.now (value_of_parts parts.now) ≤ most_bytes)
        (λ f. ((f ≡ fault_at too_long 0) × (most_bytes < length_of params.now (value_of_parts parts.now)))
        ⊎ ((f ≡ no_memory) × (length_of params.now (value_of_parts parts.now) ≤ most_bytes))) }
{
    let Some(len) = datagram_len(params, *parts) else {
        return Err(Fault::at(Fault::TOO_LONG, 0));
    };
    out.try_reserve(len)?;
    append(out, params, side, parts, len);
    Ok(())
}
