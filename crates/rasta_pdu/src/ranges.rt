//! Where payload and codes stand in a datagram.
ghost use Rattle.std.specs.Prelude.{◌≡◌, ◌+◌, ◌-◌, ◌≤◌, length, option_map, is_some, IfSome};
ghost use Rattle.rasta_pdu.specs.Fields.{IsCoded, payload_in};
ghost use Rattle.rasta_pdu.specs.Params.{AreParameters};
ghost use Rattle.rasta_pdu.specs.Pdu.{check_at, code_at, has_fields};

use crate::layout::{PAYLOAD_AT, SAFETY_AT};
use crate::params::Params;

/// The fewest bytes of a datagram with codes of the recorded lengths.
#[inline]
pub fn least_length(params: &Params) -> usize
    ensures { result ≡ 36 + params.now.code_length + params.now.check_length }
{
    PAYLOAD_AT + usize::from(params.code_length()) + usize::from(params.check_length())
}

/// The length of the safety PDU that reaches to the check code; 0 where the datagram is too short for one.
#[inline]
pub fn safety_length(params: &Params, bytes: &[u8]) -> usize
    ensures { result ≡ check_at params.now bytes.now - 8 }
{
    bytes
        .len()
        .saturating_sub(SAFETY_AT + usize::from(params.check_length()))
}

// Whether there is room for the fields and both codes.
#[inline]
pub fn has_fields(params: &Params, bytes: &[u8]) -> bool
    ensures { result ≡ has_fields params.now bytes.now }
{
    bytes.len() >= least_length(params)
}

// Where the safety code begins, and where the check code begins.
#[inline]
pub fn codes_at(params: &Params, bytes: &[u8]) -> (usize, usize)
    requires { 36 + params.now.code_length + params.now.check_length ≤ length bytes.now }
    ensures code { result.0 ≡ code_at params.now bytes.now }
    ensures check { result.1 ≡ check_at params.now bytes.now }
    ensures valid { AreParameters params.now }
{
    let check_at = bytes.len() - usize::from(params.check_length());
    (check_at - usize::from(params.code_length()), check_at)
}

/// The payload of a datagram, if there is room for its fields and for both codes.
pub fn payload_in<'a>(params: &Params, bytes: &'a [u8]) -> Option<&'a [u8]>
    ensures { option_map (λ payload. payload.now) result ≡ payload_in params.now bytes.now }
{
    if !has_fields(params, bytes) {
        return None;
    }
    let (code_at, _) = codes_at(params, bytes);
    Some(&bytes[PAYLOAD_AT..code_at])
}

/// A safety code, and the bytes of its datagram that a code covers: the safety PDU up to there.
#[derive(Clone, Copy)]
pub struct Coded<'a> {
    pub covered: &'a [u8],
    pub code: &'a [u8],
}

// The safety code of a datagram, and what it covers.
#[inline]
pub fn coded_by<'a>(params: &Params, bytes: &'a [u8]) -> Coded<'a>
    requires { 36 + params.now.code_length + params.now.check_length ≤ length bytes.now }
    ensures { IsCoded params.now bytes.now result }
{
    let (code_at, check_at) = codes_at(params, bytes);
    Coded {
        covered: &bytes[SAFETY_AT..code_at],
        code: &bytes[code_at..check_at],
    }
}

/// The safety code of a datagram, and what it covers, if there is room for its fields and for both codes.
pub fn coded_in<'a>(params: &Params, bytes: &'a [u8]) -> Option<Coded<'a>>
    ensures coded { IfSome result (IsCoded params.now bytes.now) }
    ensures some { is_some result ≡ has_fields params.now bytes.now }
{
    if !has_fields(params, bytes) {
        return None;
    }
    Some(coded_by(params, bytes))
}
