//! Gaps in the numbers of an end.
ghost use Rattle.std.specs.Prelude.{◌≡◌};

use crate::mending::Mended;
use crate::supposed::Fields;
use rasta_check::SentList;
use rasta_pcap::{Fault, Side};
use rasta_pdu::{Params, Pdu, decode};
use seatmelon_reading::Taped;

/// A gap in the numbers of an end: as many SNs are missing as redundancy numbers.
#[derive(Clone, Copy)]
pub struct Gap {
    /// The place of the captured packet behind it.
    pub place: usize,

    pub sender: Side,

    /// How many PDUs are missing.
    pub missing: u32,

    /// What the PDUs before it and behind it say.
    pub before: Fields,
    pub behind: Fields,

    /// The place, among all that crossed, of the PDU before it.
    pub crossed_at: u32,
}

/// What a PDU says.
pub fn fields_of(pdu: &Pdu<'_>) -> Fields {
    Fields {
        kind: pdu.kind(),
        number: pdu.number(),
        sn: pdu.sn(),
        cs: pdu.cs(),
        ts: pdu.ts(),
        cts: pdu.cts(),
    }
}

/// The gap at which packets stop to cross, if it is one; at most so many PDUs may be missing.
pub fn gap_at(params: &Params, packets: &[Taped], mended: &Mended, most: u32) -> Option<Gap> {
    let stop = mended.stop?;
    let sender = match stop.fault.end {
        Some(side) if stop.fault.number == Fault::NUMBER_GAP => side,
        _ => return None,
    };
    let list = mended.store.list_of(sender);
    let (crossed_at, last) = list.get(list.len().checked_sub(1)?)?;
    let taped = packets.get(stop.place)?;
    let behind = match decode(params, sender, &taped.datagram) {
        Ok(pdu) => fields_of(&pdu),
        Err(_) => return None,
    };
    let before = fields_of(&last);
    let missing = behind.number.wrapping_sub(before.number).wrapping_sub(1);
    let sns = behind.sn.wrapping_sub(before.sn).wrapping_sub(1);
    if missing != sns || missing == 0 || missing > most {
        return None;
    }
    Some(Gap {
        place: stop.place,
        sender,
        missing,
        before,
        behind,
        crossed_at,
    })
}
