//! What was found in a capture.
ghost use Rattle.std.specs.Prelude.{◌≡◌, false, Some, None, IfErr, OnErr, OnOk, slice_get, take};
ghost use Rattle.std.specs.Option.{option_and_then, option_map_or};
ghost use Rattle.rasta_pcap.specs.Fault.{no_memory};
ghost use Rattle.rasta_pcap.specs.Devices.{AsWritten};
ghost use Rattle.seatmelon_survey.specs.Belonging.{opening_in};

use crate::cut_report::{write_cut_of, write_cut_pairs, write_cuts};
use crate::cuts::Cuts;
use crate::json_report::write_found;
use crate::places::{Ends, Opening, Places};
use crate::report::{write_connection, write_summary};
use rasta_pcap::{CaptureTime, Fault, Record, Sink};
use rasta_pdu::Kind;
use seatmelon_capture::{FileHeader, write_fault, write_fault_json};
use seatmelon_connections::{Arrival, Connection};
use seatmelon_packets::{Packet, Recognizer, Sight, Way, sight_in};
use seatmelon_pcapng::Format;
use seatmelon_text::write_words;
use std::alloc::Global;
use std::marker::Model;

/// How many connections are told apart: packets that would begin further ones are left out.
pub const MOST_CONNECTIONS: usize = 1024;

// Where a packet between two ends belongs.
#[derive(Clone, Copy)]
enum Destination {
    // To another connection, which it begins.
    Another,

    // To the last connection that can have it, in its course.
    Last(usize),

    // To the connection whose opening it repeats late, beside the last one that can have it.
    Repeated { place: usize, last: usize },

    // To a connection behind a late copy of its opening, beside the last one that can have it.
    BehindRepeated { place: usize, last: usize },
}

// What a packet opens, if it's a connection request.
fn opening_in(packet: &Packet) -> Option<Opening>
    ensures { result ≡ opening_in packet.now }
{
    if !matches!(packet.kind, Kind::ConnectionRequest) {
        return None;
    }
    Some(Opening {
        ends: Ends::of(&packet.way),
        hash: packet.hash,
    })
}

// How a packet comes to a connection whose opening crossed late, where the last one that can have it stands there.
fn late_arrival(place: usize, last: usize) -> Arrival {
    if place == last {
        Arrival::Late
    } else {
        Arrival::LateBehindAnother
    }
}

/// Behind which record a connection's quiet points are wanted; its place is that among all, from 0.
#[derive(Clone, Copy)]
pub struct Behind {
    pub place: usize,
    pub record: u32,
}

/// The connections that a capture seems to hold.
#[derive(Drop)]
pub struct Survey {
    behind: Option<Behind>,
    recognizer: Recognizer,
    connections: Vec<Connection>,
    places: Places,
    records: u32,
    packets: u64,
    left_out: u64,
    cuts: Cuts,
    fault: Option<Fault>,
    header: Option<FileHeader>,
    format: Format,
}

impl Model for Survey {
    ghost use Rattle.seatmelon_survey.specs.Findings.{Findings};

    ghost Value = { Findings };

    ghost view = { λ s. record { connections = s.connections.items; records = s.records; packets = s.packets; left_out = s.left_out; cuts = s.cuts; fault = s.fault; header = s.header; format = s.format } };

    ghost use Rattle.seatmelon_survey.specs.Belonging.{ArePlaced};

    ghost invariant = { λ s. ArePlaced s.connections.items s.places };
}

impl Survey {
    ghost use Rattle.seatmelon_connections.specs.Comparing.{can_have, is_claimed};
    ghost use Rattle.seatmelon_connections.specs.Noted.{repeated_in};
    ghost use Rattle.seatmelon_survey.specs.Belonging.{destination_after, destination_behind, destination_of, ends_of, last_between, last_for, opened_among, opening_in};
    ghost use Rattle.seatmelon_survey.specs.Survey.{connections_in, cuts_of, fault_in, format_of_survey, header_of, records_in};
    ghost use Rattle.seatmelon_survey.specs.CutNotes.{no_cuts};
    ghost use Rattle.seatmelon_survey.specs.Cuts.{TakesCutIf};
    ghost use Rattle.seatmelon_packets.specs.Cut.{cut_in};

    /// Nothing found yet. The quiet points of one connection may be wanted behind a record.
    pub fn new(alloc: Global, behind: Option<Behind>) -> Survey
        ensures records { records_in result ≡ 0 }
        ensures fault { fault_in result ≡ None }
        ensures cuts { cuts_of result ≡ no_cuts }
        ensures format { format_of_survey result ≡ Format.Classic }
    {
        Survey {
            behind,
            recognizer: Recognizer::new(alloc),
            connections: Vec::new(alloc),
            places: Places::new(alloc),
            records: 0,
            packets: 0,
            left_out: 0,
            cuts: Cuts::new(alloc),
            fault: None,
            header: None,
            format: Format::Classic,
        }
    }

    /// The connections, in the order of their first records.
    pub fn connections(&self) -> &[Connection]
        ensures { result.now ≡ connections_in self.now }
    {
        self.connections.as_slice()
    }

    /// How many records were taken in.
    pub fn records(&self) -> u32
        ensures { result ≡ records_in self.now }
    {
        self.records
    }

    /// How many of these hold a packet that has the form of RaSTA.
    pub fn packets(&self) -> u64
        ensures { result ≡ self.now.packets }
    {
        self.packets
    }

    /// How many of these packets were left out, since they would have begun further connections.
    pub fn left_out(&self) -> u64
        ensures { result ≡ self.now.left_out }
    {
        self.left_out
    }

    /// The fault of the record behind those that were taken in; none where the capture was whole.
    pub fn fault(&self) -> Option<Fault>
        ensures { result ≡ fault_in self.now }
    {
        self.fault
    }

    /// The datagrams that weren't captured whole.
    pub fn cuts(&self) -> &Cuts
        ensures { result.now ≡ cuts_of self.now }
    {
        &self.cuts
    }

    /// What the header of the capture says, where that was kept.
    pub fn header(&self) -> Option<FileHeader>
        ensures { result ≡ header_of self.now }
    {
        self.header
    }

    /// Keeps what the header of the capture says.
    pub fn set_header(&mut self, header: Option<FileHeader>)
        ensures { self.new ≡ record self.old { header = header } }
    {
        self.header = header;
    }

    /// In which format the file of the capture was read, where that was kept; else as a classic one.
    pub fn format(&self) -> Format
        ensures { result ≡ format_of_survey self.now }
    {
        self.format
    }

    /// Keeps in which format the file of the capture was read.
    pub fn set_format(&mut self, format: Format)
        ensures { self.new ≡ record self.old { format = format } }
    {
        self.format = format;
    }

    /// Keeps the fault of the record behind those that were taken in.
    pub fn set_fault(&mut self, fault: Fault)
        ensures { self.new ≡ record self.old { fault = Some fault } }
    {
        self.fault = Some(fault);
    }

    /// Takes the next record in, which was captured at this time. If memory is refused, nothing has changed.
    ///
    /// Refused by [`Fault::NO_MEMORY`] alone.
    pub fn add_record(
        &mut self,
        alloc: Global,
        found: &Record<'_>,
        time: Option<CaptureTime>,
    ) -> Result<(), Fault>
        ensures counted { OnOk result (records_in self.new ≡ found.now.number) }
        ensures fault { fault_in self.new ≡ fault_in self.old }
        ensures unchanged { OnErr result (self.new ≡ self.old) }
        ensures err { IfErr result (λ f. f ≡ no_memory) }
        ensures cuts { OnOk result (TakesCutIf (cut_in found.now.bytes.now) (cuts_of self.old) (cuts_of self.new)) }
    {
        match sight_in(&mut self.recognizer, found, time) {
            Sight::Packet(packet) => {
                self.add_packet(alloc, &packet)?;
                self.packets = self.packets.saturating_add(1);
            }
            Sight::Cut(cut) => self.cuts.add(&cut)?,
            Sight::Other => {}
        }
        self.records = found.number;
        Ok(())
    }

    fn add_packet(&mut self, alloc: Global, packet: &Packet) -> Result<(), Fault>
        ensures fault { fault_in self.new ≡ fault_in self.old }
        ensures cuts { cuts_of self.new ≡ cuts_of self.old }
        ensures unchanged { OnErr result (self.new ≡ self.old) }
        ensures err { IfErr result (λ f. f ≡ no_memory) }
    {
        match self.destination_of(packet) {
            Destination::Another => return self.begin(alloc, packet),
            Destination::Last(place) => self.add_at(place, packet, Arrival::InCourse),
            Destination::Repeated { place, last } => {
                self.set_repeated(last, Some(place));
                self.add_at(place, packet, late_arrival(place, last));
            }
            Destination::BehindRepeated { place, last } => {
                self.add_at(place, packet, late_arrival(place, last));
            }
        }
        Ok(())
    }

    /// The place, among [`Survey::connections`], of the last one between the ends of a PDU that goes this way. What was
    /// found is remembered, so that the same ends are found sooner the next time.
    pub fn last_between(&mut self, way: &Way) -> Option<usize>
        ensures value { result ≡ last_between (ends_of way.now.sender way.now.receiver) (connections_in self.old) }
        ensures unchanged { self.new ≡ self.old }
    {
        self.places.find(Ends::of(way))
    }

    // The place of the last connection that can have a packet: mostly that of the last one between its ends.
    fn last_for(&mut self, packet: &Packet) -> Option<usize>
        ensures value { result ≡ last_for packet.now (connections_in self.old) }
        ensures unchanged { self.new ≡ self.old }
    {
        let last = self.last_between(&packet.way)?;
        if self.can_have(last, packet) {
            return Some(last);
        }
        self.last_before(last, packet)
    }

    // The place of the last connection before this place that can have a packet.
    fn last_before(&self, end: usize, packet: &Packet) -> Option<usize>
        ensures { result ≡ last_for packet.now (take end (connections_in self.now)) }
    {
        let mut place = end;
        while place > 0 {
            place -= 1;
            if self.can_have(place, packet) {
                return Some(place);
            }
        }
        None
    }

    // Whether the connection at this place can have a packet.
    fn can_have(&self, place: usize, packet: &Packet) -> bool
        ensures { result ≡ option_map_or (λ c. can_have c packet.now) (slice_get (connections_in self.now) place) false }
    {
        match self.connections.get(place) {
            Some(connection) => connection.can_have(packet),
            None => false,
        }
    }

    // Where a packet belongs.
    fn destination_of(&mut self, packet: &Packet) -> Destination
        ensures value { result ≡ destination_of (connections_in self.old) packet.now }
        ensures unchanged { self.new ≡ self.old }
    {
        match self.last_for(packet) {
            Some(last) => self.destination_beside(last, packet),
            None => Destination::Another,
        }
    }

    // Where a packet belongs, where the last connection that can have it stands there.
    fn destination_beside(&self, last: usize, packet: &Packet) -> Destination
        ensures { result ≡ destination_after (connections_in self.now) packet.now (Some last) }
    {
        let Some(connection) = self.connections.get(last) else {
            return Destination::Another;
        };
        if let Some(place) = self.find_opened(packet) {
            return if place == last && !connection.has_ending() {
                Destination::Last(last)
            } else {
                Destination::Repeated { place, last }
            };
        }
        if connection.is_followed_by(packet) {
            return Destination::Another;
        }
        self.destination_behind(last, connection, packet)
    }

    // The place of the connection that a packet opened, if it's a connection request that did.
    fn find_opened(&self, packet: &Packet) -> Option<usize>
        ensures { result ≡ option_and_then (λ o. opened_among o (connections_in self.now)) (opening_in packet.now) }
    {
        let opening = opening_in(packet)?;
        self.places.find_opened(opening)
    }

    // Where a packet belongs that opened no connection and begins none, where the last connection that can have it, which
    // is this one, stands there.
    fn destination_behind(
        &self,
        last: usize,
        connection: &Connection,
        packet: &Packet,
    ) -> Destination
        ensures { result ≡ destination_behind (connections_in self.now) last connection.now packet.now (repeated_in connection.now) }
    {
        match connection.repeated() {
            Some(place) if place == last || self.is_claimed(place, connection, packet) => {
                Destination::BehindRepeated { place, last }
            }
            _ => Destination::Last(last),
        }
    }

    // Whether the connection at this place, whose opening crossed late, claims a packet from the last one that can have
    // it.
    fn is_claimed(&self, place: usize, last: &Connection, packet: &Packet) -> bool
        ensures { result ≡ option_map_or (λ c. is_claimed c last.now packet.now) (slice_get (connections_in self.now) place) false }
    {
        match self.connections.get(place) {
            Some(repeated) => repeated.claims(packet, last),
            None => false,
        }
    }

    fn set_repeated(&mut self, last: usize, place: Option<usize>)
        ensures fault { fault_in self.new ≡ fault_in self.old }
        ensures cuts { cuts_of self.new ≡ cuts_of self.old }
    {
        let Some(connection) = self.connections.get_mut(last) else {
            return;
        };
        connection.set_repeated(place);
    }

    fn add_at(&mut self, place: usize, packet: &Packet, arrival: Arrival)
        ensures fault { fault_in self.new ≡ fault_in self.old }
        ensures cuts { cuts_of self.new ≡ cuts_of self.old }
    {
        let Some(connection) = self.connections.get_mut(place) else {
            return;
        };
        connection.add(packet, arrival);
    }

    // The record behind which the quiet points of the connection at this place are wanted.
    fn quiet_from(&self, place: usize) -> Option<u32> {
        let behind = self.behind.filter(|behind| behind.place == place)?;
        Some(behind.record)
    }

    // Begins a connection with this packet, once there is memory for all of it.
    fn begin(&mut self, alloc: Global, packet: &Packet) -> Result<(), Fault>
        ensures fault { fault_in self.new ≡ fault_in self.old }
        ensures cuts { cuts_of self.new ≡ cuts_of self.old }
        ensures unchanged { OnErr result (self.new ≡ self.old) }
        ensures err { IfErr result (λ f. f ≡ no_memory) }
    {
        let place = self.connections.len();
        if place >= MOST_CONNECTIONS {
            self.leave_out(packet);
            return Ok(());
        }
        let mut connection = Connection::new(alloc, packet, self.quiet_from(place))?;
        connection.add(packet, Arrival::InCourse);
        self.connections.try_reserve(1)?;
        self.places.reserve()?;
        self.places
            .set(Ends::of(&packet.way), opening_in(packet), place);
        self.connections.push_reserved(connection);
        Ok(())
    }

    // Leaves a packet out that begins a connection. From it on the last connection that can have it is followed by
    // another one.
    fn leave_out(&mut self, packet: &Packet)
        ensures fault { fault_in self.new ≡ fault_in self.old }
        ensures cuts { cuts_of self.new ≡ cuts_of self.old }
    {
        self.left_out = self.left_out.saturating_add(1);
        if let Some(last) = self.last_for(packet) {
            self.set_repeated(last, None);
        }
    }

    /// Writes what was found, as plain text: how much was read, a block for each connection, and the fault, if there is
    /// one.
    ///
    /// Refused by [`Fault::WRITE_FAILED`] alone.
    pub fn write<W: Sink>(&self, writer: &mut W) -> Result<(), Fault>
        ensures written { AsWritten W.failure_count result writer.old writer.new }
    {
        write_summary(writer, self)?;
        write_cuts(writer, self)?;
        for (place, connection) in self.connections.iter().enumerate() {
            write_connection(writer, place as u64, connection)?;
            write_cut_of(writer, self, connection)?;
        }
        write_cut_pairs(writer, self)?;
        let Some(fault) = self.fault else {
            return Ok(());
        };
        write_words(writer, "\n")?;
        write_fault(writer, fault, self.format)
    }

    /// Writes the same as one JSON object and a line feed.
    ///
    /// Refused by [`Fault::WRITE_FAILED`] alone.
    pub fn write_json<W: Sink>(&self, writer: &mut W) -> Result<(), Fault>
        ensures written { AsWritten W.failure_count result writer.old writer.new }
    {
        write_found(writer, self)?;
        write_words(writer, ",\"fault\":")?;
        write_fault_json(writer, self.fault, self.format)?;
        write_words(writer, "}\n")
    }
}
