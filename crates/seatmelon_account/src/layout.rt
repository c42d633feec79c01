//! What a payload is, and what the type of its datagram has in its place.
ghost use Rattle.std.specs.Prelude.{◌≡◌, Some, option_map};
ghost use Rattle.rasta_pdu.specs.Pdu.{layout_of, OpeningFields};
ghost use Rattle.seatmelon_account.specs.Layouts.{IsLayout, TellsCut, TellsMessages, payload_of, version_by};

use rasta_pdu::fields::u16_in;
use rasta_pdu::layout::{LENGTH_LEN, OPENING_LEN, VERSION_LEN};
use rasta_pdu::{Fields, Kind, Params, behind_messages, payload_in};

/// A message of a payload that ends too soon for it: where it begins, its length where the payload goes so far,
/// and how many bytes are left for it.
#[derive(Clone, Copy)]
pub struct CutMessage {
    pub at: usize,
    pub len: Option<u16>,
    pub left: usize,
}

/// The payload of a datagram.
#[derive(Clone, Copy)]
pub struct Layout<'a> {
    /// The type of its datagram, if it is one that PDUs have.
    pub kind: Option<Kind>,

    pub len: usize,

    /// The version, where it is that of an opening.
    pub version: Option<&'a [u8]>,

    pub cut: Option<CutMessage>,
}

// The payload of a datagram, empty where it is too short for codes of these lengths.
fn payload_of<'a>(params: &Params, datagram: &'a [u8]) -> &'a [u8]
    ensures { result.now ≡ payload_of params.now datagram.now }
{
    match payload_in(params, datagram) {
        Some(payload) => payload,
        None => &[],
    }
}

// The message for which a payload ends too soon, if there is one.
fn cut_message(payload: &[u8]) -> Option<CutMessage>
    ensures { TellsCut payload.now result }
{
    let rest = behind_messages(payload);
    if rest.is_empty() {
        return None;
    }
    Some(CutMessage {
        at: payload.len() - rest.len(),
        len: u16_in(rest, 0),
        left: rest.len().saturating_sub(LENGTH_LEN),
    })
}

// The version of an opening whose payload has the length of one.
fn version_of_opening<'a>(payload: &'a [u8]) -> Option<&'a [u8]>
    ensures { option_map (λ v. v.now) result ≡ version_by (Some OpeningFields) payload.now }
{
    if payload.len() == OPENING_LEN {
        Some(&payload[..VERSION_LEN])
    } else {
        None
    }
}

// The version in a payload of this type.
fn version_in<'a>(kind: Option<Kind>, payload: &'a [u8]) -> Option<&'a [u8]>
    ensures { option_map (λ v. v.now) result ≡ version_by (option_map layout_of kind) payload.now }
{
    match kind? {
        Kind::ConnectionRequest | Kind::ConnectionResponse => version_of_opening(payload),
        Kind::RetransmissionRequest
        | Kind::RetransmissionResponse
        | Kind::DisconnectionRequest
        | Kind::Heartbeat
        | Kind::Data
        | Kind::RetransmittedData => None,
    }
}

// The message for which a payload of this type ends too soon, if there is one.
fn cut_in(kind: Option<Kind>, payload: &[u8]) -> Option<CutMessage>
    ensures { TellsMessages (option_map layout_of kind) payload.now result }
{
    match kind? {
        Kind::Data | Kind::RetransmittedData => cut_message(payload),
        Kind::ConnectionRequest
        | Kind::ConnectionResponse
        | Kind::RetransmissionRequest
        | Kind::RetransmissionResponse
        | Kind::DisconnectionRequest
        | Kind::Heartbeat => None,
    }
}

/// The payload of a datagram.
pub fn layout_in<'a>(params: &Params, datagram: &'a [u8]) -> Layout<'a>
    ensures { IsLayout params.now datagram.now result }
{
    let kind = Fields::of(datagram).kind();
    let payload = payload_of(params, datagram);
    Layout {
        kind,
        len: payload.len(),
        version: version_in(kind, payload),
        cut: cut_in(kind, payload),
    }
}
