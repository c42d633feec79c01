//! Entries of scripts that the checker refuses.
ghost use Rattle.std.specs.Prelude.{◌≡◌, Some};
ghost use Rattle.rasta_pcap.specs.declared.fault.Side.{Side};
ghost use Rattle.seatmelon_account.specs.Entries.{IsEntry, line_of};

use crate::crossed::{Crossed, first_with, pdu_at};
use rasta_cert::{Certificate, Entry};
use rasta_check::{SentList, Store};
use rasta_pcap::{Fault, Side};

/// The packet of which the refusal of an entry speaks.
#[derive(Drop)]
pub enum NamedPacket<'a> {
    /// The first packet of the end that no entry before makes, if there is one.
    Unmade(Option<Crossed<'a>>),

    /// The one that the entry names; none where no packet has the number that it takes.
    Named(Option<Crossed<'a>>),

    /// There is no such entry.
    NoEntry,
}

/// An entry that is refused.
#[derive(Drop)]
pub struct RefusedEntry<'a> {
    /// Its number in the script, from 1.
    pub number: u32,

    /// Whose script it stands in.
    pub side: Side,

    /// Its line in the text of the certificate, from 1.
    pub line: u64,

    pub packet: NamedPacket<'a>,
}

// The script of an end.
fn script_of(certificate: &Certificate, side: Side) -> &[Entry] {
    match side {
        Side::Client => certificate.client(),
        Side::Server => certificate.server(),
    }
}

// How many makes a script has before its entry of that number, from 1.
fn makes_before(script: &[Entry], number: u32) -> u32 {
    let mut count: u32 = 0;
    for entry in script.iter().take(number.saturating_sub(1) as usize) {
        if matches!(entry, Entry::Make { .. }) {
            count = count.saturating_add(1);
        }
    }
    count
}

// The first packet of an end that no entry before the one of that number makes.
fn unmade_before<'a>(
    store: &'a Store,
    script: &[Entry],
    side: Side,
    number: u32,
) -> Option<Crossed<'a>> {
    let (place, pdu) = store.list_of(side).get(makes_before(script, number))?;
    let pdu = Some(pdu);
    Some(Crossed { side, place, pdu })
}

// The packet that an entry of this end names.
fn named_by(store: &Store, side: Side, entry: Entry) -> Option<Crossed<'_>> {
    match entry {
        Entry::Take { number, .. } => first_with(store, side.other(), number),
        Entry::Make { index, .. } => Some(Crossed {
            side,
            place: index,
            pdu: pdu_at(&store.list_of(side), index),
        }),
    }
}

// The line of the entry of that number in an end's script.
fn line_of(certificate: &Certificate, side: Side, number: u32) -> u64
    ensures { result ≡ line_of certificate.now side number }
{
    let before: u64 = match side {
        Side::Client => 2,
        Side::Server => certificate.client().len() as u64 + 3,
    };
    u64::from(number) + before
}

// The packet of which the refusal of an entry speaks.
fn packet_of<'a>(store: &'a Store, script: &[Entry], side: Side, fault: Fault) -> NamedPacket<'a> {
    let number = fault.place;
    if fault.number == Fault::MAKE_MISSING {
        return NamedPacket::Unmade(unmade_before(store, script, side, number));
    }
    let place = number.wrapping_sub(1) as usize;
    match script.get(place) {
        Some(entry) => NamedPacket::Named(named_by(store, side, *entry)),
        None => NamedPacket::NoEntry,
    }
}

/// The entry that the checker refuses by a fault.
pub fn refused_entry<'a>(
    store: &'a Store,
    certificate: &Certificate,
    fault: Fault,
) -> RefusedEntry<'a>
    requires { (side : Side) × (fault.end ≡ Some side) }
    ensures { IsEntry certificate.now fault result }
{
    let side = fault.end.unwrap_or(Side::Client);
    RefusedEntry {
        number: fault.place,
        side,
        line: line_of(certificate, side, fault.place),
        packet: packet_of(store, script_of(certificate, side), side, fault),
    }
}
