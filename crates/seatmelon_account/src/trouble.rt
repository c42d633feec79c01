//! What is wrong with a packet.
ghost use Rattle.rasta_udp.specs.Frame.{packet_of};
ghost use Rattle.seatmelon_account.specs.Troubles.{TellsGap, TellsOther, TellsTrouble};

use crate::differences::{Codes, Differences, codes_in, differences};
use crate::gap::{Gap, gap_of};
use crate::layout::{Layout, layout_in};
use rasta_check::Store;
use rasta_pcap::{Fault, Side};
use rasta_pdu::{Fields, Params, least_length, recorded_ids, safety_length};
use rasta_udp::Datagram;
use seatmelon_reading::{CaptureRefusal, Sighting};

/// Another packet with the number of the refused one, and how the refused one differs from it.
#[derive(Drop)]
pub struct FirstCopy<'a> {
    pub sighting: Sighting,
    pub bytes: &'a [u8],
    pub differences: Differences,
}

/// What is wrong with a packet.
#[derive(Drop)]
pub enum Trouble<'a> {
    /// The safety code is wrong. There may be another packet with the same number.
    Code(Option<Codes<'a>>, Option<FirstCopy<'a>>),

    /// It differs from another packet with its number.
    Copy(Option<FirstCopy<'a>>),

    /// Its number leaves a gap; none where its end sent nothing before.
    Gap(Option<Gap>),

    /// The ids that are due.
    Ids { receiver: u32, sender: u32 },

    /// The length field that is due.
    Length(u64),

    /// The fewest bytes that are due.
    TooShort(u64),

    /// The length field of the safety layer that is due.
    SafetyLength(u64),

    /// The number that was found as the type.
    Type(u16),

    /// The payload that was found.
    Payload(Layout<'a>),

    /// What the fault means.
    Other,
}

// The other packet with the number of a refused one, if there is one.
fn first_copy<'a>(refusal: &'a CaptureRefusal, datagram: &[u8]) -> Option<FirstCopy<'a>>
    ensures { TellsOther refusal.now datagram.now result }
{
    match &refusal.beside {
        Some(beside) => Some(FirstCopy {
            sighting: beside.sighting,
            bytes: &beside.bytes,
            differences: differences(datagram, &beside.bytes),
        }),
        None => None,
    }
}

// The gap that the packet of a refused record shows.
fn gap(store: &Store, refusal: &CaptureRefusal, packet: &Datagram<'_>) -> Option<Gap>
    ensures { TellsGap store.now refusal.now (packet_of packet.now) result }
{
    let later = refusal.beside.as_ref().map(|beside| beside.sighting);
    gap_of(store, packet.side, packet.payload, later)
}

/// What is wrong with the packet of a refused record, behind what crossed.
pub fn trouble_of<'a>(
    params: &Params,
    store: &Store,
    refusal: &'a CaptureRefusal,
    packet: &Datagram<'a>,
) -> Trouble<'a>
    ensures { TellsTrouble params.now store.now refusal.now (packet_of packet.now) result }
{
    let datagram = packet.payload;
    match refusal.fault.number {
        Fault::CODE => Trouble::Code(codes_in(params, datagram), first_copy(refusal, datagram)),
        Fault::COPY_DIFFERS => Trouble::Copy(first_copy(refusal, datagram)),
        Fault::NUMBER_GAP => Trouble::Gap(gap(store, refusal, packet)),
        Fault::IDS => {
            let (receiver, sender) = recorded_ids(params, packet.side);
            Trouble::Ids { receiver, sender }
        }
        Fault::REDUNDANCY_LENGTH => Trouble::Length(datagram.len() as u64),
        Fault::TOO_SHORT => Trouble::TooShort(least_length(params) as u64),
        Fault::SAFETY_LENGTH => { Trouble::SafetyLength(safety_length(params, datagram) as u64) }
        Fault::TYPE => Trouble::Type(Fields::of(datagram).type_number.unwrap_or(0)),
        Fault::PAYLOAD => Trouble::Payload(layout_in(params, datagram)),
        _ => Trouble::Other,
    }
}
