//! What is kept of captured PDUs, and what they show.
use rasta_pdu::Kind;

/// The first PDU of a side that was captured with an SN.
#[derive(Clone, Copy)]
pub(crate) struct Sight {
    /// How far its SN lies ahead of a base, modulo 2^32.
    pub(crate) key: u32,
    /// The place of its packet among those of the connection, counted from 0.
    pub(crate) place: u32,
    pub(crate) kind: Kind,
    /// How many messages it has; none where it isn't data or retransmitted data.
    pub(crate) messages: u16,
}

/// What a captured PDU confirms.
#[derive(Clone, Copy)]
pub(crate) struct Confirmation {
    /// The confirmed SN.
    pub(crate) cs: u32,
    /// The place of its packet.
    pub(crate) place: u32,
}

/// Captured data.
#[derive(Clone, Copy)]
pub struct ShownUnit {
    /// The place of the first packet of the data.
    pub data_place: u32,
    /// The place of the first packet that shows them to be surely taken, if one does.
    pub proof_place: Option<u32>,
    /// How many messages they are.
    pub messages: u16,
}
