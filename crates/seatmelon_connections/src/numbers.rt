//! The redundancy layer's numbers of an end.
ghost use Rattle.std.specs.Prelude.{◌≡◌, ◌%◌, ◌==◌, IfErr, is_some};
ghost use Rattle.rasta_pcap.specs.Fault.{no_memory};
ghost use Rattle.seatmelon_connections.specs.Numbers.{IsOffset};
ghost use Rattle.seatmelon_connections.specs.Sightings.{can_confirm, can_have_sent, compared, expected_number, has_sent, is_ahead, is_behind, is_copy, is_differing, is_near, lead_of, precedes, remembered_at, sighting_in, offset_in};

use rasta_pcap::Fault;
use seatmelon_packets::Packet;
use std::alloc::Global;

// With how many of an end's numbers a copy is compared.
const REMEMBERED: u32 = 256;

/// Half of the numbers: a number that is so far from the expected one or further is behind it.
pub const HALF: u32 = 0x8000_0000;

/// What a packet is among those of its end.
#[derive(Clone, Copy)]
pub enum Sighting {
    /// The first one of its number.
    First,

    /// The first one of its number, after a later number.
    Late,

    /// One that repeats the packet of an earlier record byte for byte.
    Copy { first: u32 },

    /// One of the number of an earlier record's packet that differs from it.
    DifferingCopy { first: u32 },

    /// One too far behind to be compared.
    TooOld,
}

impl Sighting {
    /// Whether the packet repeats an earlier one byte for byte.
    pub(crate) fn is_copy(&self) -> bool
        ensures { result ≡ is_copy self.now }
    {
        matches!(self, Sighting::Copy { .. })
    }

    // Whether the packet differs from an earlier one of its number.
    fn is_differing(&self) -> bool
        ensures { result ≡ is_differing self.now }
    {
        matches!(self, Sighting::DifferingCopy { .. })
    }
}

// Where a number stands beside the one that is expected.
#[derive(Clone, Copy)]
enum Offset {
    Expected,
    Ahead(u32),
    Behind(u32),
}

impl Offset {
    // Whether the number is ahead.
    fn is_ahead(&self) -> bool
        ensures { result ≡ is_ahead self.now }
    {
        matches!(self, Offset::Ahead(_))
    }

    // Whether the number is behind.
    fn is_behind(&self) -> bool
        ensures { result ≡ is_behind self.now }
    {
        matches!(self, Offset::Behind(_))
    }

    // Whether the number is ahead or behind by no more than are remembered.
    fn is_near(&self) -> bool
        ensures { result ≡ is_near self.now }
    {
        match self {
            Offset::Expected => true,
            Offset::Ahead(distance) | Offset::Behind(distance) => *distance <= REMEMBERED,
        }
    }
}

fn offset_of(number: u32, expected: u32) -> Offset
    ensures offset { IsOffset result number expected }
    ensures value { result ≡ offset_in number expected }
{
    let ahead = number.wrapping_sub(expected);
    if ahead == 0 {
        Offset::Expected
    } else if ahead < HALF {
        Offset::Ahead(ahead)
    } else {
        Offset::Behind(expected.wrapping_sub(number))
    }
}

// A packet that is remembered.
#[derive(Clone, Copy)]
struct Remembered {
    record: u32,
    number: u32,
    hash: u64,
}

fn remembered_of(packet: &Packet) -> Remembered {
    Remembered {
        record: packet.record,
        number: packet.number,
        hash: packet.hash,
    }
}

// What an end's packet of the highest number says: how far its SN is ahead of its number, and its TS.
#[derive(Clone, Copy)]
struct Latest {
    lead: u32,
    ts: u32,
}

// How far the SN of a packet is ahead of its number: an end counts both up by one for each packet.
fn lead_of(packet: &Packet) -> u32
    ensures { result ≡ lead_of packet.now }
{
    packet.sn.wrapping_sub(packet.number)
}

/// A gap: the first number that is missing, and the record that shows it.
#[derive(Clone, Copy)]
pub struct Gap {
    pub missing: u32,
    pub record: u32,
}

/// What the numbers of an end show.
#[derive(Clone, Copy)]
pub struct NumberCounts {
    pub gaps: u64,

    /// How many numbers were missing in all gaps, also those that came late.
    pub missing: u64,
    pub first_gap: Option<Gap>,

    /// Packets that repeat an earlier one byte for byte.
    pub copies: u64,

    /// Packets that have an earlier one's number and differ from it.
    pub differing: u64,

    /// Packets that came after a later number, the first ones of their numbers.
    pub late: u64,

    /// Packets too far behind to be compared.
    pub too_old: u64,
}

const NOTHING: NumberCounts = NumberCounts {
    gaps: 0,
    missing: 0,
    first_gap: None,
    copies: 0,
    differing: 0,
    late: 0,
    too_old: 0,
};

/// The redundancy layer's numbers of an end, of which the last 256 are remembered.
#[derive(Drop)]
pub struct Numbers {
    expected: Option<u32>,
    latest: Option<Latest>,
    remembered: Vec<Option<Remembered>>,
    counts: NumberCounts,
}

fn slot_of(number: u32) -> usize
    ensures { result ≡ number % 256 }
{
    (number % REMEMBERED) as usize
}

impl Numbers {
    /// None yet.
    ///
    /// Refused by [`Fault::NO_MEMORY`].
    pub(crate) fn new(alloc: Global) -> Result<Numbers, Fault>
        ensures err { IfErr result (λ f. f ≡ no_memory) }
    {
        let mut remembered = Vec::new(alloc);
        remembered.resize(REMEMBERED as usize, None)?;
        Ok(Numbers {
            expected: None,
            latest: None,
            remembered,
            counts: NOTHING,
        })
    }

    /// What the numbers show.
    pub fn counts(&self) -> NumberCounts {
        self.counts
    }

    // The number that is expected; before the first packet, that of any.
    fn expected_at(&self, packet: &Packet) -> u32
        ensures { result ≡ expected_number self.now packet.now }
    {
        self.expected.unwrap_or(packet.number)
    }

    /// Whether a packet has the number that is expected. Before the first packet any number is.
    pub(crate) fn is_expected(&self, packet: &Packet) -> bool
        ensures { result ≡ (packet.now.number == expected_number self.now packet.now) }
    {
        packet.number == self.expected_at(packet)
    }

    /// What a packet is beside those that were taken in.
    pub(crate) fn sighting_of(&self, packet: &Packet) -> Sighting
        ensures { result ≡ sighting_in self.now packet.now }
    {
        match offset_of(packet.number, self.expected_at(packet)) {
            Offset::Expected | Offset::Ahead(_) => Sighting::First,
            Offset::Behind(distance) if distance > REMEMBERED => Sighting::TooOld,
            Offset::Behind(_) => self.compare(packet),
        }
    }

    /// Whether a packet was taken in.
    pub(crate) fn has_sent(&self) -> bool
        ensures { result ≡ has_sent self.now }
    {
        self.latest.is_some()
    }

    /// Whether the end can have sent a packet in the course of those that were taken in: the packet repeats one of them
    /// byte for byte; or it is near them by its number, differs from none of that number, and its SN is as far ahead of
    /// its number as before. Before the first packet it can have sent any.
    pub(crate) fn can_have_sent(&self, packet: &Packet) -> bool
        ensures { result ≡ can_have_sent self.now packet.now }
    {
        let Some(latest) = self.latest else {
            return true;
        };
        let sighting = self.sighting_of(packet);
        let offset = offset_of(packet.number, self.expected_at(packet));
        sighting.is_copy()
            || (offset.is_near() && !sighting.is_differing() && lead_of(packet) == latest.lead)
    }

    /// Whether a packet of the other end can confirm one of this end: the PDU of the SN that it confirms is near those
    /// that were taken in.
    pub(crate) fn can_confirm(&self, packet: &Packet) -> bool
        ensures { result ≡ can_confirm self.now packet.now }
    {
        match (self.latest, self.expected) {
            (Some(latest), Some(expected)) => {
                offset_of(packet.cs.wrapping_sub(latest.lead), expected).is_near()
            }
            _ => false,
        }
    }

    /// Whether the end sent a packet before the latest one that was taken in: its number is behind, none of that number
    /// differs from it, its SN is as far ahead of its number, and its TS isn't later.
    pub(crate) fn precedes(&self, packet: &Packet) -> bool
        ensures { result ≡ precedes self.now packet.now }
    {
        let Some(latest) = self.latest else {
            return false;
        };
        offset_of(packet.number, self.expected_at(packet)).is_behind()
            && !self.sighting_of(packet).is_differing()
            && lead_of(packet) == latest.lead
            && !offset_of(packet.ts, latest.ts).is_ahead()
    }

    /// Takes the number of a packet in, and says what the packet is.
    pub(crate) fn add(&mut self, packet: &Packet) -> Sighting
        ensures { result ≡ sighting_in self.old packet.now }
    {
        let sighting = self.sighting_of(packet);
        match sighting {
            Sighting::First => self.go_on(packet),
            Sighting::Late => {
                self.counts.late = self.counts.late.saturating_add(1);
                self.remember(packet);
            }
            Sighting::Copy { .. } => self.counts.copies = self.counts.copies.saturating_add(1),
            Sighting::DifferingCopy { .. } => {
                self.counts.differing = self.counts.differing.saturating_add(1);
            }
            Sighting::TooOld => self.counts.too_old = self.counts.too_old.saturating_add(1),
        }
        sighting
    }

    // Takes in a packet that is not behind the others.
    fn go_on(&mut self, packet: &Packet) {
        let expected = self.expected_at(packet);
        if let Offset::Ahead(missing) = offset_of(packet.number, expected) {
            self.add_gap(packet, expected, missing);
        }
        self.expected = Some(packet.number.wrapping_add(1));
        self.latest = Some(Latest {
            lead: lead_of(packet),
            ts: packet.ts,
        });
        self.remember(packet);
    }

    fn remember(&mut self, packet: &Packet) {
        if let Some(slot) = self.remembered.get_mut(slot_of(packet.number)) {
            *slot = Some(remembered_of(packet));
        }
    }

    fn add_gap(&mut self, packet: &Packet, expected: u32, missing: u32) {
        self.counts.gaps = self.counts.gaps.saturating_add(1);
        self.counts.missing = self.counts.missing.saturating_add(u64::from(missing));
        if self.counts.first_gap.is_none() {
            self.counts.first_gap = Some(Gap {
                missing: expected,
                record: packet.record,
            });
        }
    }

    // The packet of this number that is remembered.
    fn recall(&self, number: u32) -> Option<Remembered>
        ensures { result ≡ remembered_at self.now number }
    {
        let earlier = self.remembered.get(slot_of(number)).copied()??;
        if earlier.number == number {
            Some(earlier)
        } else {
            None
        }
    }

    // What a packet is beside the one of its number.
    fn compare(&self, packet: &Packet) -> Sighting
        ensures { result ≡ compared packet.now.hash (remembered_at self.now packet.now.number) }
    {
        match self.recall(packet.number) {
            Some(earlier) if packet.hash == earlier.hash => Sighting::Copy {
                first: earlier.record,
            },
            Some(earlier) => Sighting::DifferingCopy {
                first: earlier.record,
            },
            None => Sighting::Late,
        }
    }
}
