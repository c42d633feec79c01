//! A connection that a capture seems to hold.
ghost use Rattle.std.specs.Prelude.{◌≡◌, IfErr, IfOk, IsSome};
ghost use Rattle.rasta_pcap.specs.Fault.{no_memory};
ghost use Rattle.rasta_pcap.specs.Devices.{AsWritten};
ghost use Rattle.seatmelon_connections.specs.Comparing.{request_in};

use crate::channel::{Channels, End};
use crate::draft::write_draft;
use crate::kept_draft::write_kept_draft;
use crate::late_copies::{Arrival, LateCopies, with_copy};
use crate::numbers::Sighting;
use crate::party::Party;
use crate::quiet::QuietPoints;
use rasta_pcap::{CaptureTime, Fault, Sink};
use rasta_pdu::{Kind, Params};
use seatmelon_packets::{Lengths, Packet};
use std::alloc::Global;

// A connection request: its numbers, and the hash of its bytes.
#[derive(Clone, Copy)]
struct Request {
    number: u32,
    sn: u32,
    hash: u64,
}

fn request_in(packet: &Packet) -> Option<Request>
    ensures { result ≡ request_in packet.now }
{
    if !matches!(packet.kind, Kind::ConnectionRequest) {
        return None;
    }
    Some(Request {
        number: packet.number,
        sn: packet.sn,
        hash: packet.hash,
    })
}

/// A connection that a capture seems to hold.
#[derive(Drop)]
pub struct Connection {
    request: Option<Request>,

    // Whether a late copy of a request from before the capture was taken in.
    is_opened_before: bool,
    pub(crate) first: Party,
    pub(crate) second: Party,
    pub(crate) channels: Channels,
    pub(crate) lengths: Lengths,

    /// Of a connection whose opening was not captured, or where they are wanted behind a record.
    pub(crate) quiet: Option<QuietPoints>,
    first_record: u32,
    last_record: u32,
    first_time: Option<CaptureTime>,
    last_time: Option<CaptureTime>,
    pub(crate) is_last_late_copy: bool,
    late_copies: Option<LateCopies>,

    // The place of the connection between its ends whose opening crossed late last, since this one began.
    repeated: Option<usize>,
}

impl Connection {
    ghost use Rattle.seatmelon_connections.specs.Comparing.{HasSameOpening, can_be_of, can_have, goes_on_with, is_claimed, is_copy_in, is_followed_by, is_late_copy, is_late_opening, is_opened_by, late_copies_with, last_record_with, numbers_of, opened_before_with, sender_in, sighting_by};
    ghost use Rattle.seatmelon_connections.specs.Noted.{first_id_in, first_record_in, has_ending_in, has_opening_in, lacks_quiet_point_in, last_record_in, late_copies_in, opened_before_in, quiet_from_in, repeated_in, request_of, second_id_in, with_repeated};

    /// A connection that begins with this packet, which is still to be taken in ([`Connection::add`]). If a record is
    /// given, its draft has a quiet point behind that record, where only packets from there on are looked at.
    ///
    /// Refused by [`Fault::NO_MEMORY`].
    pub fn new(alloc: Global, packet: &Packet, from: Option<u32>) -> Result<Connection, Fault>
        ensures first { IfOk result (λ c. first_id_in c ≡ packet.now.way.sender) }
        ensures second { IfOk result (λ c. second_id_in c ≡ packet.now.way.receiver) }
        ensures request { IfOk result (λ c. request_of c ≡ request_in packet.now) }
        ensures quiet { IfOk result (λ c. quiet_from_in c ≡ from) }
        ensures err { IfErr result (λ f. f ≡ no_memory) }
    {
        let request = request_in(packet);
        let quiet = match (request, from) {
            (Some(_), None) => None,
            (_, from) => Some(QuietPoints::new(alloc, from)?),
        };
        Ok(Connection {
            request,
            is_opened_before: false,
            first: Party::new(alloc, packet.way.sender)?,
            second: Party::new(alloc, packet.way.receiver)?,
            channels: Channels::new(alloc)?,
            lengths: Lengths::new(),
            quiet,
            first_record: packet.record,
            last_record: packet.record,
            first_time: packet.time,
            last_time: packet.time,
            is_last_late_copy: false,
            late_copies: None,
            repeated: None,
        })
    }

    /// The number of its first record, from 1.
    pub fn first_record(&self) -> u32
        ensures { result ≡ first_record_in self.now }
    {
        self.first_record
    }

    /// The number of its last record.
    pub fn last_record(&self) -> u32
        ensures { result ≡ last_record_in self.now }
    {
        self.last_record
    }

    /// The ids of its ends, first that of the end that sent its first captured packet.
    pub fn ids(&self) -> (u32, u32)
        ensures first { result.0 ≡ first_id_in self.now }
        ensures second { result.1 ≡ second_id_in self.now }
    {
        (self.first.id, self.second.id)
    }

    /// The end that sent its first captured packet.
    pub fn first(&self) -> &Party {
        &self.first
    }

    /// The other end.
    pub fn second(&self) -> &Party {
        &self.second
    }

    /// The channels on which its packets crossed.
    pub fn channels(&self) -> &Channels {
        &self.channels
    }

    /// How many of its packets fit each length of the codes.
    pub fn lengths(&self) -> &Lengths {
        &self.lengths
    }

    /// When its first record was captured, if the capture has times.
    pub fn first_time(&self) -> Option<CaptureTime> {
        self.first_time
    }

    /// When its last record was captured, if the capture has times.
    pub fn last_time(&self) -> Option<CaptureTime> {
        self.last_time
    }

    /// The late copies of its opening and of what came behind it.
    pub fn late_copies(&self) -> Option<LateCopies>
        ensures { result ≡ late_copies_in self.now }
    {
        self.late_copies
    }

    /// Whether its connection request was captured. The first end is the client then.
    pub fn has_opening(&self) -> bool
        ensures { result ≡ has_opening_in self.now }
    {
        self.request.is_some()
    }

    /// Whether it was opened before the capture began: of its connection request only late copies were captured.
    pub fn was_opened_before(&self) -> bool
        ensures { result ≡ opened_before_in self.now }
    {
        self.is_opened_before
    }

    /// Whether a disconnection request was captured.
    pub fn has_ending(&self) -> bool
        ensures { result ≡ has_ending_in self.now }
    {
        self.first.ending.is_some() || self.second.ending.is_some()
    }

    /// Writes a draft of the connection's parameter file, which can be read as it is. Comments say in which record
    /// a value was seen, and which values are placeholders.
    ///
    /// Refused by [`Fault::WRITE_FAILED`] alone.
    pub fn write_draft<W: Sink>(&self, writer: &mut W) -> Result<(), Fault>
        ensures written { AsWritten W.failure_count result writer.old writer.new }
    {
        write_draft(writer, self)
    }

    /// Writes a parameter file with recorded parameters of the connection, in which only the window and the quiet point are
    /// new. A connection that has no quiet points has no such file, and its own draft is written.
    ///
    /// Refused by [`Fault::WRITE_FAILED`] alone.
    pub fn write_kept_draft<W: Sink>(&self, writer: &mut W, params: &Params) -> Result<(), Fault>
        ensures written { AsWritten W.failure_count result writer.old writer.new }
    {
        match &self.quiet {
            Some(quiet) => write_kept_draft(writer, self, quiet, params),
            None => write_draft(writer, self),
        }
    }

    /// Whether its draft has a quiet point behind a record, where one is wanted.
    pub fn lacks_quiet_point(&self) -> bool
        ensures { result ≡ lacks_quiet_point_in self.now }
    {
        match &self.quiet {
            Some(quiet) => quiet.lacks_point(),
            None => false,
        }
    }

    // Which end sent the packet, if it is between these two ends.
    fn sender_of(&self, packet: &Packet) -> Option<End>
        ensures { result ≡ sender_in self.now packet.now }
    {
        if packet.way.sender == self.first.id && packet.way.receiver == self.second.id {
            Some(End::First)
        } else if packet.way.sender == self.second.id && packet.way.receiver == self.first.id {
            Some(End::Second)
        } else {
            None
        }
    }

    // Whether a packet between these ends can be one of those of this end: the end can have sent it in its course, and
    // where it sent nothing yet, the packet can confirm one of the other end.
    fn can_be_of(&self, sender: End, packet: &Packet) -> bool
        ensures { result ≡ can_be_of self.now sender packet.now }
    {
        let own = &self.party(sender).numbers;
        let others = &self.party(sender.other()).numbers;
        own.can_have_sent(packet) && (own.has_sent() || others.can_confirm(packet))
    }

    /// Whether a packet can be of this connection: it is between its ends, and either goes between hosts of which one
    /// has an address that its end has here, or repeats the connection's opening, or can be of the course of its end.
    pub fn can_have(&self, packet: &Packet) -> bool
        ensures { result ≡ can_have self.now packet.now }
    {
        match self.sender_of(packet) {
            Some(sender) => {
                self.channels.knows_host(sender, &packet.way.route)
                    || self.is_opened_by(packet)
                    || self.can_be_of(sender, packet)
            }
            None => false,
        }
    }

    // Whether a packet between these ends is a connection request from before the capture, where none was captured: its
    // end sent it before what it sent here.
    fn is_late_opening(&self, packet: &Packet) -> bool
        ensures { result ≡ is_late_opening self.now packet.now }
    {
        if self.has_opening() || request_in(packet).is_none() {
            return false;
        }
        match self.sender_of(packet) {
            Some(sender) => self.party(sender).numbers.precedes(packet),
            None => false,
        }
    }

    /// Whether a packet between these ends, which opened no earlier connection, begins another one: a connection
    /// request after the end of this one, or one that has other numbers than its own. Where its own wasn't captured, one
    /// that its end sent before what it sent here is a late copy of it, and begins none.
    pub fn is_followed_by(&self, packet: &Packet) -> bool
        ensures { result ≡ is_followed_by self.now packet.now }
    {
        let Some(request) = request_in(packet) else {
            return false;
        };
        let has_own_numbers = match self.request {
            Some(own) => own.number == request.number && own.sn == request.sn,
            None => self.is_late_opening(packet),
        };
        self.has_ending() || !has_own_numbers
    }

    /// Whether a packet repeats the request that opened this connection, byte for byte.
    pub fn is_opened_by(&self, packet: &Packet) -> bool
        ensures { result ≡ is_opened_by self.now packet.now }
    {
        match (request_in(packet), self.request) {
            (Some(request), Some(own)) => request.hash == own.hash,
            _ => false,
        }
    }

    /// The place of the connection between these ends whose opening crossed late last, since this one began.
    pub fn repeated(&self) -> Option<usize>
        ensures { result ≡ repeated_in self.now }
    {
        self.repeated
    }

    /// Sets that place.
    pub fn set_repeated(&mut self, place: Option<usize>)
        ensures { self.new ≡ with_repeated self.old place }
    {
        self.repeated = place;
    }

    fn party(&self, end: End) -> &Party
        ensures { result.now.numbers ≡ numbers_of self.now «end» }
    {
        match end {
            End::First => &self.first,
            End::Second => &self.second,
        }
    }

    /// What a packet between these ends is beside the others of its end.
    pub fn sighting_of(&self, packet: &Packet) -> Option<Sighting>
        ensures { result ≡ sighting_by self.now packet.now }
    {
        let sender = self.sender_of(packet)?;
        Some(self.party(sender).numbers.sighting_of(packet))
    }

    /// Whether a packet between these ends has the next number of its end, or repeats one of its end byte for byte.
    pub fn goes_on_with(&self, packet: &Packet) -> bool
        ensures { result ≡ goes_on_with self.now packet.now }
    {
        match self.sender_of(packet) {
            Some(sender) => self.party(sender).goes_on_with(packet),
            None => false,
        }
    }

    /// Whether a packet between these ends belongs to this connection, whose opening crossed late, and not to the last
    /// one between them: it repeats one of this connection, or is too old to be compared and doesn't go on with the
    /// last one.
    pub fn claims(&self, packet: &Packet, last: &Connection) -> bool
        ensures { result ≡ is_claimed self.now last.now packet.now }
    {
        match self.sighting_of(packet) {
            Some(Sighting::Copy { .. }) => true,
            Some(Sighting::TooOld) => !last.goes_on_with(packet),
            _ => false,
        }
    }

    // Whether a packet between these ends repeats one of its end byte for byte.
    fn is_copy(&self, packet: &Packet) -> bool
        ensures { result ≡ is_copy_in self.now packet.now }
    {
        match self.sighting_of(packet) {
            Some(sighting) => sighting.is_copy(),
            None => false,
        }
    }

    // Whether a packet between these ends that comes so is a late copy.
    fn is_late_copy(&self, packet: &Packet, arrival: Arrival) -> bool
        ensures { result ≡ is_late_copy self.now packet.now arrival }
    {
        arrival.is_late() && (self.is_copy(packet) || self.is_opened_by(packet))
    }

    /// Takes a packet in that comes so. No memory is taken.
    pub fn add(&mut self, packet: &Packet, arrival: Arrival)
        ensures late_copies { IsSome (sender_in self.old packet.now)
            → late_copies_in self.new ≡ late_copies_with self.old packet.now arrival }
        ensures last_record { IsSome (sender_in self.old packet.now)
            → last_record_in self.new ≡ last_record_with self.old packet.now arrival }
        ensures same { HasSameOpening self.old self.new }
        ensures repeated { repeated_in self.new ≡ repeated_in self.old }
        ensures quiet { quiet_from_in self.new ≡ quiet_from_in self.old }
        ensures opened_before { IsSome (sender_in self.old packet.now)
            → opened_before_in self.new ≡ opened_before_with self.old packet.now }
    {
        let Some(sender) = self.sender_of(packet) else {
            return;
        };
        self.channels.add(sender, &packet.way.route, packet.record);
        self.lengths.add(&packet.fits);
        self.note_record(packet, arrival);
        self.note_opening(packet);
        let sighting = self.add_to_party(sender, packet);
        if let Some(quiet) = &mut self.quiet {
            quiet.add(sender, packet, sighting);
        }
    }

    // Keeps the record of a packet that comes so.
    fn note_record(&mut self, packet: &Packet, arrival: Arrival)
        ensures late_copies { self.new.late_copies ≡ late_copies_with self.old packet.now arrival }
        ensures last_record { last_record_in self.new ≡ last_record_with self.old packet.now arrival }
        ensures same { HasSameOpening self.old self.new }
        ensures repeated { self.new.repeated ≡ self.old.repeated }
        ensures quiet { self.new.quiet ≡ self.old.quiet }
        ensures opened_before { opened_before_with self.new packet.now ≡ opened_before_with self.old packet.now }
    {
        let is_late_copy = self.is_late_copy(packet, arrival);
        if is_late_copy {
            self.late_copies = Some(with_copy(self.late_copies, packet.record));
        }
        if !matches!(arrival, Arrival::LateBehindAnother) {
            self.last_record = packet.record;
            self.last_time = packet.time;
            self.is_last_late_copy = is_late_copy;
        }
    }

    // Keeps whether a packet is a late copy of an opening from before the capture.
    fn note_opening(&mut self, packet: &Packet)
        ensures { self.new ≡ record self.old { is_opened_before = opened_before_with self.old packet.now } }
    {
        self.is_opened_before = self.is_opened_before || self.is_late_opening(packet);
    }

    fn add_to_party(&mut self, sender: End, packet: &Packet) -> Sighting
        ensures late_copies { self.new.late_copies ≡ self.old.late_copies }
        ensures last_record { last_record_in self.new ≡ last_record_in self.old }
        ensures same { HasSameOpening self.old self.new }
        ensures repeated { self.new.repeated ≡ self.old.repeated }
        ensures quiet { self.new.quiet ≡ self.old.quiet }
        ensures opened_before { opened_before_in self.new ≡ opened_before_in self.old }
    {
        match sender {
            End::First => self.first.add(packet),
            End::Second => self.second.add(packet),
        }
    }
}
