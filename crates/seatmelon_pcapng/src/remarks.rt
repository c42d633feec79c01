//! What is told of a pcapng file beside its packets.
use crate::refusal::Refusal;

/// What is told of a pcapng file beside its packets.
#[derive(Clone, Copy, Debug, PartialEq, Eq)]
pub struct Remarks {
    /// Why it is refused, if it is.
    pub refusal: Option<Refusal>,

    /// The link type of the interface of its first packet of which no bytes are told, if it has any.
    pub other_link_type: Option<u16>,

    /// That of its first packet with a cooked header, which is told as a frame of Ethernet, if it has any.
    pub cooked_link_type: Option<u16>,
}
