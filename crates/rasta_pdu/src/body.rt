//! The bodies of safety PDUs.
ghost use Rattle.std.specs.Prelude.{◌≡◌, Some, None, true, length, if◌then◌else◌};
ghost use Rattle.std.specs.List.{list_all};
ghost use Rattle.rasta_pdu.specs.Lengths.{has_payload_length};
ghost use Rattle.rasta_pdu.specs.Pdu.{body_in, body_at, body_of, is_digit, is_version, layout_of, payload_of, OpeningFields, ByeFields};

use crate::fields::u16_at;
use crate::kind::Kind;
use crate::layout::{BYE_LEN, OPENING_LEN, REASON_AT, RESERVED_AT, SENDMAX_AT, VERSION_LEN};
use crate::messages::are_messages;

/// What a safety PDU has after its time stamps. `M` is what holds the messages.
#[derive(Clone, Copy, Debug, PartialEq, Eq)]
pub enum Body<M> {
    /// Of a connection request or response. The version is four ASCII digits.
    Opening {
        version: [u8; 4],
        sendmax: u16,
        reserved: [u8; 8],
    },
    /// Of a disconnection request.
    Bye {
        detail: u16,
        reason: u16,
    },
    /// Of data and retransmitted data.
    Messages(M),
    /// Of the other types.
    Empty,
}

fn is_digit(byte: u8) -> bool
    ensures { result ≡ is_digit byte }
{
    matches!(byte, b'0'..=b'9')
}

fn are_digits(bytes: &[u8]) -> bool
    ensures { result ≡ list_all is_digit bytes.now }
{
    bytes.iter().all(|byte| is_digit(*byte))
}

// Whether these are four ASCII digits.
pub fn is_version(version: &[u8]) -> bool
    ensures { result ≡ is_version version.now }
{
    version.len() == VERSION_LEN && are_digits(version)
}

// Whether a payload spells a version, N_sendmax and reserved bytes.
fn is_opening(payload: &[u8]) -> bool
    ensures value { body_in OpeningFields payload.now ≡ if result then Some (body_at OpeningFields payload.now) else None }
    ensures length { result ≡ true → length payload.now ≡ 14 }
{
    payload.len() == OPENING_LEN && is_version(&payload[..VERSION_LEN])
}

// Whether a payload spells a body of this kind.
#[inline(always)]
pub fn has_body(kind: Kind, payload: &[u8]) -> bool
    ensures value { body_in (layout_of kind) payload.now ≡ if result then Some (body_at (layout_of kind) payload.now) else None }
    ensures length { result ≡ true → has_payload_length kind (length payload.now) ≡ true }
{
    match kind {
        Kind::ConnectionRequest => is_opening(payload),
        Kind::ConnectionResponse => is_opening(payload),
        Kind::DisconnectionRequest => payload.len() == BYE_LEN,
        Kind::Data => are_messages(payload),
        Kind::RetransmittedData => are_messages(payload),
        Kind::RetransmissionRequest => payload.is_empty(),
        Kind::RetransmissionResponse => payload.is_empty(),
        Kind::Heartbeat => payload.is_empty(),
    }
}

fn opening<'a>(payload: &'a [u8]) -> Body<&'a [u8]>
    requires { length payload.now ≡ 14 }
    ensures { body_of result ≡ body_at OpeningFields payload.now }
{
    let mut version = [0; 4];
    version.copy_from_slice(&payload[..VERSION_LEN]);
    let mut reserved = [0; 8];
    reserved.copy_from_slice(&payload[RESERVED_AT..]);
    Body::Opening {
        version,
        sendmax: u16_at(payload, SENDMAX_AT),
        reserved,
    }
}

fn bye<'a>(payload: &'a [u8]) -> Body<&'a [u8]>
    requires { length payload.now ≡ 4 }
    ensures { body_of result ≡ body_at ByeFields payload.now }
{
    Body::Bye {
        detail: u16_at(payload, 0),
        reason: u16_at(payload, REASON_AT),
    }
}

// The body of this kind that stands in a payload.
#[inline]
pub fn body_at<'a>(kind: Kind, payload: &'a [u8]) -> Body<&'a [u8]>
    requires { has_payload_length kind (length payload.now) ≡ true }
    ensures { body_of result ≡ body_at (layout_of kind) payload.now }
{
    match kind {
        Kind::ConnectionRequest => opening(payload),
        Kind::ConnectionResponse => opening(payload),
        Kind::DisconnectionRequest => bye(payload),
        Kind::Data => Body::Messages(payload),
        Kind::RetransmittedData => Body::Messages(payload),
        Kind::RetransmissionRequest => Body::Empty,
        Kind::RetransmissionResponse => Body::Empty,
        Kind::Heartbeat => Body::Empty,
    }
}

// The payload, which is the spelling of the body that stands in it.
#[inline]
pub fn spelling<'a>(kind: Kind, spelled: &'a [u8]) -> &'a [u8]
    requires { has_payload_length kind (length spelled.now) ≡ true }
    ensures { result.now ≡ payload_of (body_at (layout_of kind) spelled.now) }
{
    spelled
}
