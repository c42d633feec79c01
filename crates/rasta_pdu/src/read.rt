//! Reading a datagram.
ghost use Rattle.std.specs.Prelude.{true, ◌≡◌, ◌≤◌, ◌+◌, ◌-◌, ◌<◌, ◌^◌, ◌==◌, ◌&&◌, length, slice_range, Ok, Err, IfOk, MatchResult, IsOkAnd};
ghost use Rattle.rasta_udp.specs.Fault.{fault_at};
ghost use Rattle.rasta_pdu.specs.Params.{AreParameters};
ghost use Rattle.rasta_pdu.specs.Lengths.{has_payload_length};
ghost use Rattle.rasta_pdu.specs.Pdu.{RedundancyPdu, IsRedundancyPdu, redundancy_bytes, decode_of, receiver_of, sender_of, value_of, body_at, layout_of, read_code, code_of, pdu_with_body, has_length, has_fields, has_safety_length, has_code, code_at, check_at, little_at};

use crate::body::has_body;
use crate::code::is_code;
use crate::fields::{u16_at, u32_at};
use crate::ids::recorded_ids;
use crate::kind::Kind;
use crate::layout::{
    LENGTH_AT, LENGTH_LEN, PAYLOAD_AT, RECEIVER_AT, SAFETY_AT, SENDER_AT, TYPE_AT,
};
use crate::params::Params;
use crate::pdu::Pdu;
use crate::ranges::{Coded, coded_by, codes_at, has_fields, safety_length};
use rasta_udp::{Fault, Side};

// The fault of this number. It has no place and no end.
fn refused(number: u8) -> Fault
    ensures { result ≡ fault_at number 0 }
{
    Fault::at(number, 0)
}

fn has_length(bytes: &[u8]) -> bool
    ensures value { result ≡ has_length bytes.now }
    ensures short { result ≡ true → length bytes.now < 2 ^ 16 }
{
    bytes.len() >= LENGTH_LEN && usize::from(u16_at(bytes, LENGTH_AT)) == bytes.len()
}

// Whether the safety PDU ends where the check code begins.
fn has_safety_length(params: &Params, bytes: &[u8]) -> bool
    requires { 36 + params.now.code_length + params.now.check_length ≤ length bytes.now }
    ensures { result ≡ has_safety_length params.now bytes.now }
{
    usize::from(u16_at(bytes, SAFETY_AT)) == safety_length(params, bytes)
}

// Whether the safety code is that of the safety PDU's other bytes.
fn has_code(params: &Params, bytes: &[u8]) -> bool
    requires { 36 + params.now.code_length + params.now.check_length ≤ length bytes.now }
    ensures { result ≡ has_code params.now bytes.now }
{
    let Coded { covered, code } = coded_by(params, bytes);
    is_code(params, covered, code)
}

fn has_id(bytes: &[u8], at: usize, id: u32) -> bool
    requires { at + 4 ≤ length bytes.now }
    ensures { result ≡ (little_at 4 at bytes.now == id) }
{
    u32_at(bytes, at) == id
}

// Whether these are the receiver and the sender.
fn are_ids(bytes: &[u8], receiver: u32, sender: u32) -> bool
    requires { 36 ≤ length bytes.now }
    ensures { result ≡ (little_at 4 12 bytes.now == receiver && little_at 4 16 bytes.now == sender) }
{
    has_id(bytes, RECEIVER_AT, receiver) && has_id(bytes, SENDER_AT, sender)
}

// The PDU of this kind in a datagram whose codes begin there.
#[inline]
#[tactic(auto, unfolding(crate::specs::Pdu::value_of, crate::specs::Pdu::read_code))]
fn view<'a>(kind: Kind, bytes: &'a [u8], code_at: usize, check_at: usize) -> Pdu<'a>
    requires fields { 36 ≤ code_at }
    requires payload { has_payload_length kind (code_at - 36) ≡ true }
    requires code { code_at ≤ check_at }
    requires check { check_at ≤ length bytes.now }
    requires short { check_at < 2 ^ 16 }
    ensures value { value_of result ≡ pdu_with_body kind (body_at (layout_of kind) (slice_range bytes.now 36 code_at)) check_at bytes.now }
    ensures code { read_code result ≡ slice_range bytes.now code_at check_at }
{
    Pdu {
        bytes,
        code_at: code_at as u16,
        check_at: check_at as u16,
        kind,
    }
}

#[inline(always)]
#[tactic(auto, unfolding(crate::specs::Pdu::decode_of))]
fn read<'a>(params: &Params, side: Side, bytes: &'a [u8]) -> Result<Pdu<'a>, Fault>
    ensures value { MatchResult result (λ d. decode_of params.now side bytes.now ≡ Ok (value_of d))
        (λ f. decode_of params.now side bytes.now ≡ Err f) }
    ensures code { IfOk result (λ d. read_code d ≡ slice_range bytes.now (code_at params.now bytes.now) (check_at params.now bytes.now)) }
    ensures valid { AreParameters params.now }
    ensures receiver { receiver_of params.now side < 2 ^ 32 }
    ensures sender { sender_of params.now side < 2 ^ 32 }
{
    let (receiver, sender) = recorded_ids(params, side);
    if !has_length(bytes) {
        return Err(refused(Fault::REDUNDANCY_LENGTH));
    }
    if !has_fields(params, bytes) {
        return Err(refused(Fault::TOO_SHORT));
    }
    if !has_safety_length(params, bytes) {
        return Err(refused(Fault::SAFETY_LENGTH));
    }
    let Some(kind) = Kind::of(u16_at(bytes, TYPE_AT)) else {
        return Err(refused(Fault::TYPE));
    };
    let (code_at, check_at) = codes_at(params, bytes);
    if !has_body(kind, &bytes[PAYLOAD_AT..code_at]) {
        return Err(refused(Fault::PAYLOAD));
    }
    if !has_code(params, bytes) {
        return Err(refused(Fault::CODE));
    }
    if !are_ids(bytes, receiver, sender) {
        return Err(refused(Fault::IDS));
    }
    Ok(view(kind, bytes, code_at, check_at))
}

/// Reads the datagram that this side sent. No memory is taken.
///
/// Refused, in this order, by [`Fault::REDUNDANCY_LENGTH`], [`Fault::TOO_SHORT`],
/// [`Fault::SAFETY_LENGTH`], [`Fault::TYPE`], [`Fault::PAYLOAD`], [`Fault::CODE`] and [`Fault::IDS`],
/// at place 0.
#[inline(always)]
pub fn decode<'a>(params: &Params, side: Side, bytes: &'a [u8]) -> Result<Pdu<'a>, Fault>
    ensures value { MatchResult result (λ d. decode_of params.now side bytes.now ≡ Ok (value_of d))
        (λ f. decode_of params.now side bytes.now ≡ Err f) }

    // What is read is spelled so.
    ensures spelled { IfOk result (λ d. IsRedundancyPdu params.now (value_of d)
        × (bytes.now ≡ redundancy_bytes params.now side (value_of d))) }

    // What is spelled for the side is read as that value.
    ensures read_back { (r : RedundancyPdu) → IsRedundancyPdu params.now r
        → bytes.now ≡ redundancy_bytes params.now side r → IsOkAnd result (λ d. value_of d ≡ r) }

    // The code that is lent is that of the value, and stands between the payload and the check code.
    ensures code { IfOk result (λ d. read_code d ≡ code_of params.now side (value_of d).safety) }
    ensures code_place { IfOk result (λ d. read_code d
        ≡ slice_range bytes.now (code_at params.now bytes.now) (check_at params.now bytes.now)) }
{
    read(params, side, bytes)
}

/// Reads a datagram of this side that [`decode`] answers, without computing its safety code again. No
/// memory is taken.
pub fn read_decoded<'a>(params: &Params, side: Side, bytes: &'a [u8]) -> Pdu<'a>
    requires decodes { (d : RedundancyPdu) × (decode_of params.now side bytes.now ≡ Ok d) }
    ensures value { decode_of params.now side bytes.now ≡ Ok (value_of result) }

    // What is read is spelled so.
    ensures spelled { IsRedundancyPdu params.now (value_of result)
        × (bytes.now ≡ redundancy_bytes params.now side (value_of result)) }

    // The code that is lent is that of the value, and stands between the payload and the check code.
    ensures code { read_code result ≡ code_of params.now side (value_of result).safety }
    ensures code_place { read_code result
        ≡ slice_range bytes.now (code_at params.now bytes.now) (check_at params.now bytes.now) }
{
    let (code_at, check_at) = codes_at(params, bytes);
    let Some(kind) = Kind::of(u16_at(bytes, TYPE_AT)) else {
        unreachable!()
    };
    view(kind, bytes, code_at, check_at)
}
