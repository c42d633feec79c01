//! The reasons for which an end makes a PDU.

/// Why an end makes a PDU: the row of the make table that it follows.
#[derive(Clone, Copy, PartialEq, Eq)]
pub enum Why {
    /// The client opens the connection.
    Open,
    /// What a taken PDU wants is answered: a connection request, a connection response or a
    /// retransmission request.
    Reply,
    /// A heartbeat.
    Beat,
    /// Data that weren't sent before.
    Fresh,
    /// The data of the unit of this number, retransmitted.
    Again(u32),
    /// Retransmission is requested.
    Ask,
    /// The connection is ended.
    Bye,
    /// The connection is ended, since nothing came in time.
    Expired,
}
