//! A packet of the connection.
ghost use Rattle.rasta_show.specs.Codes.{HasShortCodes};

use rasta_pdu::{Pdu, Side};

/// A packet of the connection, with its record's number and its channel's, both from 1.
#[derive(Clone, Copy)]
pub struct ShownPacket<'a> {
    pub record: u32,
    pub channel: u8,
    pub side: Side,
    pub pdu: Pdu<'a>,
    ghost short: { HasShortCodes pdu },
}
