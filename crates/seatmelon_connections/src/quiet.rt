//! Points at which a connection seems to be quiet.
ghost use Rattle.std.specs.Prelude.{◌≡◌, ℕ, ◌≤◌, true, not, All, Option, IfErr, IfOk, IfSome, vec_capacity};
ghost use Rattle.rasta_pcap.specs.Fault.{no_memory};
ghost use Rattle.seatmelon_connections.specs.Quiet.{StandsFrom, is_found, is_from};

use crate::channel::End;
use crate::numbers::{HALF, Sighting};
use rasta_pcap::Fault;
use rasta_pdu::Kind;
use seatmelon_packets::Packet;
use std::alloc::Global;

// How many candidates are kept. The earliest of those that can still be found are always among them.
const MOST_CANDIDATES: usize = 24;

/// A time stamp, and the record in which it was seen.
#[derive(Clone, Copy)]
pub struct Stamp {
    pub ts: u32,
    pub record: u32,
}

/// The time stamp of an end's last data, and how it is known.
#[derive(Clone, Copy)]
pub enum LastData {
    /// The data was captured in this record.
    Sent(Stamp),

    /// It was not: in this record the other end confirms a time stamp that is from before the capture.
    Confirmed(Stamp),
}

/// What an end sent last: the type, the sequence number, the time stamp, and the time stamp of its last data.
#[derive(Clone, Copy)]
pub struct LastSent {
    pub kind: Kind,
    pub sn: u32,
    pub stamp: Stamp,
    pub data: Option<LastData>,
}

impl LastSent {
    // The other end has maybe confirmed a time stamp from before the capture.
    fn note_older(&mut self, older: Option<Stamp>) {
        if let Some(confirmed) = older
            && self.data.is_none()
            && confirmed.ts != self.stamp.ts
        {
            self.data = Some(LastData::Confirmed(confirmed));
        }
    }
}

/// A point of a connection: after which record, and what each end had sent last.
#[derive(Clone, Copy)]
pub struct Point {
    pub record: u32,
    pub first: LastSent,
    pub second: LastSent,
}

/// A point that may be quiet, and which ends have still to confirm what the other one sent before it.
#[derive(Clone, Copy)]
pub struct Candidate {
    pub point: Point,
    awaits_first: bool,
    awaits_second: bool,
}

impl Candidate {
    /// Whether both ends have confirmed it.
    pub fn is_found(&self) -> bool
        ensures { result ≡ is_found self.now }
    {
        !self.awaits_first && !self.awaits_second
    }

    /// Whether the end has still to confirm what the other one sent before it.
    pub fn awaits(&self, sender: End) -> bool {
        match sender {
            End::First => self.awaits_first,
            End::Second => self.awaits_second,
        }
    }

    // The sequence number that the next PDU of this end has to confirm.
    fn due(&self, sender: End) -> u32 {
        match sender {
            End::First => self.point.second.sn,
            End::Second => self.point.first.sn,
        }
    }

    // Whether this PDU of an end leaves the candidate in place.
    fn stands_after(&self, sender: End, packet: &Packet) -> bool {
        !self.awaits(sender) || reaches(packet.cs, self.due(sender))
    }

    // The end has sent a PDU that confirms what is due, and maybe a time stamp from before the capture.
    fn note(&mut self, sender: End, older: Option<Stamp>)
        ensures { self.new.point.«record» ≡ self.old.point.«record» }
    {
        match sender {
            End::First => {
                self.awaits_first = false;
                self.point.second.note_older(older);
            }
            End::Second => {
                self.awaits_second = false;
                self.point.first.note_older(older);
            }
        }
    }
}

// The end has sent a PDU that confirms what is due at each of these points, and maybe a time stamp from before the capture.
fn note_all(candidates: &mut [Candidate], sender: End, older: Option<Stamp>)
    ensures { (from : Option ℕ) → All (StandsFrom from) candidates.old → All (StandsFrom from) candidates.new }
{
    for candidate in candidates.iter_mut() {
        candidate.note(sender, older);
    }
}

// Whether a number, which wraps around, is another one or one after it.
fn reaches(number: u32, earlier: u32) -> bool {
    number.wrapping_sub(earlier) < HALF
}

/// How far an end is in what it has to send.
#[derive(Clone, Copy)]
pub struct Progress {
    first_ts: Option<u32>,
    pub last: Option<LastSent>,

    /// The record in which it asked for a retransmission, if the other end hasn't responded.
    pub asked: Option<u32>,
}

const NOTHING_SENT: Progress = Progress {
    first_ts: None,
    last: None,
    asked: None,
};

impl Progress {
    // The end sends a PDU.
    fn send(&mut self, packet: &Packet) {
        let stamp = Stamp {
            ts: packet.ts,
            record: packet.record,
        };
        let data = match packet.kind {
            Kind::Data | Kind::RetransmittedData => Some(LastData::Sent(stamp)),
            _ => self.last.and_then(|last| last.data),
        };
        if self.first_ts.is_none() {
            self.first_ts = Some(packet.ts);
        }
        self.last = Some(LastSent {
            kind: packet.kind,
            sn: packet.sn,
            stamp,
            data,
        });
        if packet.kind == Kind::RetransmissionRequest {
            self.asked = Some(packet.record);
        }
    }

    // The other end sends a PDU.
    fn hear(&mut self, packet: &Packet) {
        if packet.kind == Kind::RetransmissionResponse {
            self.asked = None;
        }
    }

    // The time stamp that the other end's PDU confirms, if none that was captured is earlier.
    fn older(&self, packet: &Packet) -> Option<Stamp> {
        let first = self.first_ts?;
        if !reaches(first, packet.cts) {
            return None;
        }
        Some(Stamp {
            ts: packet.cts,
            record: packet.record,
        })
    }

    /// What the end sent last, if it is connected, and no retransmission is asked for or under way.
    pub fn at_rest(&self) -> Option<LastSent> {
        let last = self.last?;
        let rests = matches!(
            last.kind,
            Kind::Heartbeat | Kind::Data | Kind::RetransmissionRequest
        );
        if rests && self.asked.is_none() {
            Some(last)
        } else {
            None
        }
    }
}

/// Why a packet rules out a point before it.
#[derive(Clone, Copy)]
pub enum Reason {
    /// It is no PDU that confirms the last one of the other end before the point.
    ConfirmsNothing,

    /// It is a retransmission response, and the request is from before the record from which packets are looked at.
    RespondsToEarlier,

    /// It has the number of the packet of an earlier record, which stands before the point.
    Repeats { first: u32 },

    /// Its number comes late.
    Late,
}

/// Which point was ruled out, by the record that it stands after, in which record, and why.
#[derive(Clone, Copy)]
pub struct RuledOut {
    pub point: u32,
    pub record: u32,
    pub reason: Reason,
}

/// The points at which a connection seems to be quiet.
///
/// After such a point each end's first PDU confirms the last one that the other sent before it, or a later one. No
/// request for a retransmission is unanswered, no retransmission is under way, and no copy of an earlier packet
/// crosses later.
#[derive(Drop)]
pub struct QuietPoints {
    // The record from which packets stand before a point; none where all do.
    from: Option<u32>,
    first: Progress,
    second: Progress,
    candidates: Vec<Candidate>,
    last_ruled_out: Option<RuledOut>,
    ghost has_room: { 24 ≤ vec_capacity candidates },
    ghost behind: { All (StandsFrom from) candidates.items },
}

impl QuietPoints {
    ghost use Rattle.seatmelon_connections.specs.QuietPoints.{earliest_in, from_in, lacks_point_in};

    /// None yet, with room for all that are kept. Only packets from a record on stand before a point, if one is given.
    ///
    /// Refused by [`Fault::NO_MEMORY`].
    pub fn new(alloc: Global, from: Option<u32>) -> Result<QuietPoints, Fault>
        ensures from { IfOk result (λ q. from_in q ≡ from) }
        ensures err { IfErr result (λ f. f ≡ no_memory) }
    {
        Ok(QuietPoints {
            from,
            first: NOTHING_SENT,
            second: NOTHING_SENT,
            candidates: Vec::with_capacity(alloc, MOST_CANDIDATES)?,
            last_ruled_out: None,
        })
    }

    /// The record from which packets stand before a point; none where all do.
    pub fn from(&self) -> Option<u32>
        ensures { result ≡ from_in self.now }
    {
        self.from
    }

    /// How far the end is, from that record on.
    pub fn progress(&self, end: End) -> &Progress {
        match end {
            End::First => &self.first,
            End::Second => &self.second,
        }
    }

    /// The candidates, in their order.
    pub fn candidates(&self) -> &[Candidate] {
        self.candidates.as_slice()
    }

    /// Which candidate was ruled out last.
    pub fn last_ruled_out(&self) -> Option<RuledOut> {
        self.last_ruled_out
    }

    /// The earliest point that was found.
    pub fn earliest(&self) -> Option<Point>
        ensures value { result ≡ earliest_in self.now }
        ensures behind { IfSome result (λ p. is_from (from_in self.now) p.«record» ≡ true) }
    {
        let candidate = self
            .candidates
            .iter()
            .find(|candidate| candidate.is_found())?;
        Some(candidate.point)
    }

    /// Whether a point is wanted behind a record, and none was found.
    pub fn lacks_point(&self) -> bool
        ensures { result ≡ lacks_point_in self.now }
    {
        self.from.is_some() && self.earliest().is_none()
    }

    // Whether a record stands before those whose packets are looked at.
    fn is_before(&self, record: u32) -> bool
        ensures { result ≡ not (is_from (from_in self.now) «record») }
    {
        match self.from {
            Some(from) => record < from,
            None => false,
        }
    }

    /// Takes a packet in that this end sent. No memory is taken.
    pub fn add(&mut self, sender: End, packet: &Packet, sighting: Sighting)
        ensures { from_in self.new ≡ from_in self.old }
    {
        if self.is_before(packet.record) {
            return;
        }
        match sighting {
            Sighting::First => self.send(sender, packet),
            Sighting::Copy { first } | Sighting::DifferingCopy { first } => {
                self.forget_from(first, packet.record);
            }
            Sighting::Late | Sighting::TooOld => self.forget(packet.record, Reason::Late),
        }
        self.propose(packet.record);
    }

    fn other(&self, sender: End) -> &Progress {
        match sender {
            End::First => &self.second,
            End::Second => &self.first,
        }
    }

    // Whether a PDU of this end responds to a request that was made before the record from which packets are looked at.
    fn responds_to_earlier(&self, sender: End, packet: &Packet) -> bool {
        self.from.is_some()
            && packet.kind == Kind::RetransmissionResponse
            && self.other(sender).asked.is_none()
    }

    // A PDU crosses for the first time.
    fn send(&mut self, sender: End, packet: &Packet)
        ensures { from_in self.new ≡ from_in self.old }
    {
        if self.responds_to_earlier(sender, packet) {
            self.forget(packet.record, Reason::RespondsToEarlier);
        }
        self.forget_unconfirmed(sender, packet);
        let older = self.other(sender).older(packet);
        note_all(&mut self.candidates, sender, older);
        match sender {
            End::First => {
                self.first.send(packet);
                self.second.hear(packet);
            }
            End::Second => {
                self.second.send(packet);
                self.first.hear(packet);
            }
        }
    }

    // Keeps that a point was ruled out, if one was.
    fn note_ruled_out(&mut self, point: Option<u32>, record: u32, reason: Reason)
        ensures { from_in self.new ≡ from_in self.old }
    {
        if let Some(point) = point {
            self.last_ruled_out = Some(RuledOut {
                point,
                record,
                reason,
            });
        }
    }

    // The record of the last candidate.
    fn last_point(&self) -> Option<u32> {
        Some(self.candidates.last()?.point.record)
    }

    // No point before this record is quiet.
    fn forget(&mut self, record: u32, reason: Reason)
        ensures { from_in self.new ≡ from_in self.old }
    {
        self.note_ruled_out(self.last_point(), record, reason);
        self.candidates.clear();
    }

    // The record of the last candidate that a PDU of this end doesn't leave in place.
    fn last_unconfirmed(&self, sender: End, packet: &Packet) -> Option<u32> {
        let candidate = self
            .candidates
            .iter()
            .rev()
            .find(|candidate| !candidate.stands_after(sender, packet))?;
        Some(candidate.point.record)
    }

    // A PDU of this end leaves only those candidates in place that it confirms, or that another one has.
    fn forget_unconfirmed(&mut self, sender: End, packet: &Packet)
        ensures { from_in self.new ≡ from_in self.old }
    {
        if self.from.is_some() {
            let point = self.last_unconfirmed(sender, packet);
            self.note_ruled_out(point, packet.record, Reason::ConfirmsNothing);
        }
        self.candidates
            .retain(|candidate| candidate.stands_after(sender, packet));
    }

    // A packet crosses again in this record that was first seen in another one: no point between the two is quiet.
    fn forget_from(&mut self, first: u32, record: u32)
        ensures { from_in self.new ≡ from_in self.old }
    {
        let point = self.last_point().filter(|point| *point >= first);
        self.note_ruled_out(point, record, Reason::Repeats { first });
        self.candidates
            .retain(|candidate| candidate.point.record < first);
    }

    // Makes the point after this record a candidate, if both ends are at rest.
    fn propose(&mut self, record: u32)
        requires { is_from (from_in self.old) «record» ≡ true }
        ensures { from_in self.new ≡ from_in self.old }
    {
        let (Some(first), Some(second)) = (self.first.at_rest(), self.second.at_rest()) else {
            return;
        };
        if self.candidates.len() >= MOST_CANDIDATES {
            return;
        }
        let point = Point {
            record,
            first,
            second,
        };
        let candidate = Candidate {
            point,
            awaits_first: true,
            awaits_second: true,
        };
        self.candidates.push_reserved(candidate);
    }
}
