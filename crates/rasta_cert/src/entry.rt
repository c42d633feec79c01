//! The entries of a script.
use rasta_end::Why;

/// One step of an end, as a certificate names it. Packets are those of the connection, in the order of
/// the file, counted from 0.
#[derive(Clone, Copy, PartialEq, Eq)]
pub enum Entry {
    /// The end takes the PDU of this redundancy number of its peer, after `slot` packets have crossed.
    Take { slot: u32, number: u32 },
    /// The end makes the PDU of the packet at this place, at this clock (whole milliseconds), for this
    /// reason.
    Make { index: u32, clock: u64, why: Why },
}
