//! What a record of the window holds.
ghost use Rattle.std.specs.Prelude.{◌≡◌, option_map};
ghost use Rattle.seatmelon_show.specs.Sighted.{seen_of, sighted_in};

use rasta_pcap::{Fault, Record};
use rasta_pdu::{Datagram, Params, recorded_packet};

/// What a frame between the recorded hosts holds.
#[derive(Clone, Copy)]
pub enum Found<'a> {
    /// A datagram of a recorded channel.
    Datagram(Datagram<'a>),

    /// A datagram that can't be read, and why: a fragment, one that was cut, or one whose lengths are wrong.
    Unreadable(Fault),
}

/// A frame between the recorded hosts, in a record of the window.
#[derive(Clone, Copy)]
pub struct Sight<'a> {
    /// The number of the record, from 1.
    pub number: u32,
    pub found: Found<'a>,
}

/// What a record holds: none where it stands before the window or holds nothing of the recorded channels.
pub fn sight_in<'a>(params: &Params, record: &Record<'a>) -> Option<Sight<'a>>
    ensures { option_map seen_of result ≡ sighted_in params.now («record».now.number, «record».now.bytes.now) }
{
    let found = match recorded_packet(params, record) {
        Ok(found) => Found::Datagram(found?),
        Err(fault) => Found::Unreadable(fault),
    };
    Some(Sight {
        number: record.number,
        found,
    })
}
