//! Packets that crossed.
ghost use Rattle.std.specs.Prelude.{◌≡◌, option_map};
ghost use Rattle.rasta_pdu.specs.Pdu.{value_of};
ghost use Rattle.seatmelon_account.specs.Crossed.{IsCrossedAt, has_opening, pdu_at};

use rasta_check::{SentList, SpanList, Store};
use rasta_pcap::Side;
use rasta_pdu::{Kind, Pdu};

/// A packet that crossed at a place, and its PDU where it is a first copy of this end.
#[derive(Drop)]
pub struct Crossed<'a> {
    pub side: Side,
    pub place: u32,
    pub pdu: Option<Pdu<'a>>,
}

/// The PDU of an end at a place, if a first copy crossed there.
pub fn pdu_at<'a>(list: &SpanList<'a>, place: u32) -> Option<Pdu<'a>>
    ensures { option_map value_of result ≡ pdu_at list.now place }
{
    let position = list.at_place(place)?;
    let (_, pdu) = list.get(position)?;
    Some(pdu)
}

/// The packet of an end that has a redundancy number first.
pub fn first_with(store: &Store, side: Side, number: u32) -> Option<Crossed<'_>> {
    let list = store.list_of(side);
    let (place, pdu) = list.get(list.position_of(number)?)?;
    let pdu = Some(pdu);
    Some(Crossed { side, place, pdu })
}

/// The packet at a place.
pub fn packet_at(store: &Store, place: u32) -> Option<Crossed<'_>>
    ensures { IsCrossedAt store.now place result }
{
    let (side, _) = store.packet(place)?;
    let pdu = pdu_at(&store.list_of(side), place);
    Some(Crossed { side, place, pdu })
}

/// Whether the first packet that crossed opens the connection.
pub fn has_opening(store: &Store) -> bool
    ensures { result ≡ has_opening store.now }
{
    match packet_at(store, 0).and_then(|first| first.pdu) {
        Some(pdu) => pdu.kind().is(Kind::ConnectionRequest),
        None => false,
    }
}
