//! A gap in the redundancy numbers of an end.
ghost use Rattle.std.specs.Prelude.{◌≡◌, ◌⊎◌, length, None, IfSome};
ghost use Rattle.rasta_pdu.specs.Fields.{field_at};
ghost use Rattle.rasta_check.specs.Capture.Crossing.{sent_by};
ghost use Rattle.seatmelon_account.specs.Crossed.{has_opening};
ghost use Rattle.seatmelon_account.specs.Gaps.{IsGap, IsLastOf};

use crate::crossed::has_opening;
use rasta_check::{SentList, SpanList, Store};
use rasta_pcap::Side;
use rasta_pdu::Fields;
use seatmelon_reading::Sighting;

/// The two numbers of a PDU: that of the redundancy layer, and SN.
#[derive(Clone, Copy)]
pub struct Numbers {
    pub redundancy: u32,
    pub sn: u32,
}

/// The first packet of an end with its last number before a gap.
#[derive(Clone, Copy)]
pub struct LastBefore {
    pub place: u32,
    pub numbers: Numbers,
}

/// A gap in the numbers of an end.
#[derive(Clone, Copy)]
pub struct Gap {
    pub last: LastBefore,

    /// The numbers behind the gap; SN is none where the datagram is too short for it.
    pub found: u32,
    pub sn_found: Option<u32>,

    /// Where the first packet with the number that was due crosses later.
    pub later: Option<Sighting>,

    /// Whether the connection was opened by the first packet that crossed.
    pub has_opening: bool,
}

impl Numbers {
    ghost use Rattle.seatmelon_account.specs.Gaps.{next_numbers};

    // Those of the next PDU.
    fn next(self) -> Numbers
        ensures { result ≡ next_numbers self }
    {
        Numbers {
            redundancy: self.redundancy.wrapping_add(1),
            sn: self.sn.wrapping_add(1),
        }
    }
}

impl Gap {
    ghost use Rattle.seatmelon_account.specs.Gaps.{due_at, numbers_skipped, sns_skipped};

    /// The numbers that were due.
    pub fn due(&self) -> Numbers
        ensures { result ≡ due_at self.now }
    {
        self.last.numbers.next()
    }

    /// How many redundancy numbers are skipped, modulo 2^32.
    pub fn skipped(&self) -> u32
        ensures { result ≡ numbers_skipped self.now }
    {
        self.found.wrapping_sub(self.due().redundancy)
    }

    /// How many SNs are skipped, modulo 2^32.
    pub fn sn_skipped(&self) -> Option<u32>
        ensures { result ≡ sns_skipped self.now }
    {
        Some(self.sn_found?.wrapping_sub(self.due().sn))
    }
}

// What an end sent last.
fn last_of(list: &SpanList<'_>) -> Option<LastBefore>
    ensures last { IfSome result (IsLastOf list.now) }
    ensures none { result ≡ None → length list.now ≡ 0 }
{
    let (place, pdu) = list.get(list.len().checked_sub(1)?)?;
    Some(LastBefore {
        place,
        numbers: Numbers {
            redundancy: pdu.number(),
            sn: pdu.sn(),
        },
    })
}

/// The gap that the datagram of an end shows, behind what crossed; none where this end sent nothing before it.
pub fn gap_of(store: &Store, side: Side, datagram: &[u8], later: Option<Sighting>) -> Option<Gap>
    ensures gap { IfSome result (IsGap (sent_by store.now side) (has_opening store.now) datagram.now) }
    ensures later { IfSome result (λ gap. gap.later ≡ later) }
    ensures none { result ≡ None → (length (sent_by store.now side) ≡ 0) ⊎ (field_at 4 4 datagram.now ≡ None) }
{
    let fields = Fields::of(datagram);
    Some(Gap {
        last: last_of(&store.list_of(side))?,
        found: fields.number?,
        sn_found: fields.sn,
        later,
        has_opening: has_opening(store),
    })
}
