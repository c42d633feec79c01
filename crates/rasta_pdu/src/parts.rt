//! What a datagram is made of.
ghost use Rattle.std.specs.Prelude.{◌≡◌};
ghost use Rattle.rasta_pdu.specs.Pdu.{layout_of, OpeningFields, ByeFields, MessageList, Nothing};
ghost use Rattle.rasta_pdu.specs.Parts.{body_fits, parts_fit};

use crate::body::{Body, is_version};
use crate::kind::Kind;
use crate::params::Params;

/// The parts of a datagram: a PDU of the redundancy layer, with the PDU of the safety and retransmission
/// layer in it. Ids and safety code are those of the parameters and the sending side.
#[derive(Clone, Copy, PartialEq, Eq)]
pub struct PduParts<'a> {
    /// The redundancy layer's sequence number.
    pub number: u32,
    /// The redundancy layer's reserved field.
    pub reserve: u16,
    /// The type.
    pub kind: Kind,
    /// The sequence number.
    pub sn: u32,
    /// The confirmed sequence number.
    pub cs: u32,
    /// The time stamp, in milliseconds, modulo 2^32.
    pub ts: u32,
    /// The confirmed time stamp, in milliseconds, modulo 2^32.
    pub cts: u32,
    /// The body, with one slice for each message.
    pub body: Body<&'a [&'a [u8]]>,
    /// The check code of the redundancy layer.
    pub check_bytes: &'a [u8],
}

impl<'a> PduParts<'a> {
    /// Whether the body is that of the type, the version has four ASCII digits, data have at least one
    /// message, and the check bytes have the recorded length.
    pub fn fits(&self, params: &Params) -> bool
        ensures { result ≡ parts_fit params.now self.now }
    {
        is_body_of(self.kind, self.body)
            && self.check_bytes.len() == usize::from(params.check_length())
    }
}

fn is_opening(body: Body<&[&[u8]]>) -> bool
    ensures { result ≡ body_fits OpeningFields body.entry }
{
    matches!(body, Body::Opening { version, .. } if is_version(&version))
}

fn is_bye(body: Body<&[&[u8]]>) -> bool
    ensures { result ≡ body_fits ByeFields body.entry }
{
    matches!(body, Body::Bye { .. })
}

fn has_messages(body: Body<&[&[u8]]>) -> bool
    ensures { result ≡ body_fits MessageList body.entry }
{
    matches!(body, Body::Messages(messages) if !messages.is_empty())
}

fn is_empty(body: Body<&[&[u8]]>) -> bool
    ensures { result ≡ body_fits Nothing body.entry }
{
    matches!(body, Body::Empty)
}

fn is_body_of(kind: Kind, body: Body<&[&[u8]]>) -> bool
    ensures { result ≡ body_fits (layout_of kind) body.entry }
{
    match kind {
        Kind::ConnectionRequest | Kind::ConnectionResponse => is_opening(body),
        Kind::DisconnectionRequest => is_bye(body),
        Kind::Data | Kind::RetransmittedData => has_messages(body),
        Kind::RetransmissionRequest | Kind::RetransmissionResponse | Kind::Heartbeat => {
            is_empty(body)
        }
    }
}
