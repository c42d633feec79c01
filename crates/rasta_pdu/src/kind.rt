//! The types of safety PDUs.
ghost use Rattle.std.specs.Prelude.{◌≡◌};
ghost use Rattle.rasta_pdu.specs.Pdu.{type_of, is_kind, kind_of};
ghost use Rattle.rasta_pdu.specs.Pdu as pdus;

/// The type of a PDU of the safety and retransmission layer.
#[derive(Clone, Copy, Debug, PartialEq, Eq)]
pub enum Kind {
    ConnectionRequest,
    ConnectionResponse,
    RetransmissionRequest,
    RetransmissionResponse,
    DisconnectionRequest,
    Heartbeat,
    Data,
    RetransmittedData,
}

impl Kind {
    /// All types, in the order of their numbers.
    pub const ALL: [Kind; 8] = [
        Kind::ConnectionRequest,
        Kind::ConnectionResponse,
        Kind::RetransmissionRequest,
        Kind::RetransmissionResponse,
        Kind::DisconnectionRequest,
        Kind::Heartbeat,
        Kind::Data,
        Kind::RetransmittedData,
    ];

    /// The type with this number, as it stands in the PDU.
    pub fn of(number: u16) -> Option<Kind>
        ensures { result ≡ kind_of number }
    {
        match number {
            6200 => Some(Kind::ConnectionRequest),
            6201 => Some(Kind::ConnectionResponse),
            6212 => Some(Kind::RetransmissionRequest),
            6213 => Some(Kind::RetransmissionResponse),
            6216 => Some(Kind::DisconnectionRequest),
            6220 => Some(Kind::Heartbeat),
            6240 => Some(Kind::Data),
            6241 => Some(Kind::RetransmittedData),
            _ => None,
        }
    }

    /// The type number, as it stands in the PDU.
    pub fn number(self) -> u16
        ensures { result ≡ type_of self }
    {
        match self {
            Kind::ConnectionRequest => 6200,
            Kind::ConnectionResponse => 6201,
            Kind::RetransmissionRequest => 6212,
            Kind::RetransmissionResponse => 6213,
            Kind::DisconnectionRequest => 6216,
            Kind::Heartbeat => 6220,
            Kind::Data => 6240,
            Kind::RetransmittedData => 6241,
        }
    }

    /// Whether it is the wanted kind.
    pub fn is(self, wanted: Kind) -> bool
        ensures { result ≡ is_kind wanted self }
    {
        self.number() == wanted.number()
    }

    /// Whether PDUs of this type are time-relevant: deadlines are set by them.
    pub fn is_timed(self) -> bool
        ensures { result ≡ pdus.is_timed self }
    {
        matches!(self, Kind::Heartbeat | Kind::Data | Kind::RetransmittedData)
    }

    /// Whether PDUs of this type carry a unit: data, for the first time or again.
    pub fn carries_unit(self) -> bool
        ensures { result ≡ pdus.carries_unit self }
    {
        matches!(self, Kind::Data | Kind::RetransmittedData)
    }

    /// The name of the type, in words.
    pub fn name(self) -> &'static str {
        match self {
            Kind::ConnectionRequest => "connection request",
            Kind::ConnectionResponse => "connection response",
            Kind::RetransmissionRequest => "retransmission request",
            Kind::RetransmissionResponse => "retransmission response",
            Kind::DisconnectionRequest => "disconnection request",
            Kind::Heartbeat => "heartbeat",
            Kind::Data => "data",
            Kind::RetransmittedData => "retransmitted data",
        }
    }
}
