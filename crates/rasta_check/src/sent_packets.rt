//! What each side sent, by a capture.
ghost use Rattle.std.specs.Prelude.{◌≡◌, [], ◌∷◌, ◌++◌, List, map, length, option_map, slice_get, None, Some, Ok, Err, MatchOption, MatchResult, OnOk, OnErr, IfOk, ◌⊎◌};
ghost use Rattle.rasta_pcap.specs.Fault.{no_memory};
ghost use Rattle.rasta_udp.specs.Frame.{Packet, packet_of};
ghost use Rattle.rasta_check.specs.Capture.SentLists.{FirstCopy, Spells, number_in_bytes};
ghost use Rattle.rasta_check.specs.Capture.PacketFaults.{packet_fault};
ghost use Rattle.rasta_pdu.specs.Pdu.{RedundancyPdu, decode_of};
ghost use Rattle.rasta_check.specs.Capture.Lists.{copy_of};
ghost use Rattle.rasta_check.specs.Capture.Crossing.{Crossing, IsCrossing, sent_by, nothing_crossed};
ghost use Rattle.rasta_check.specs.Capture.Reading.{with_packet, sent_after, after_packet, after_record};
ghost use Rattle.std.specs.Prelude.{◌<◌, ◌≤◌, IfSome, bytes_eq, nat_lt, not, ◌&&◌, ◌||◌};
ghost use Rattle.rasta_check.specs.Capture.PacketFaults.{is_next_number};
ghost use Rattle.rasta_check.specs.Capture.SentLists.{IsRecorded};
ghost use Rattle.rasta_check.specs.Model.World.{most_sent};
ghost use Rattle.rasta_check.specs.Model.Theorem.{most_packets};
ghost use Rattle.rasta_check.specs.Internals.Packets.{with_new};

use crate::map_list::MapList;
use crate::sent_list::{FirstCopy, SentList};
use rasta_pcap::{Fault, Record, Side};
use rasta_pdu::{Datagram, Params, Pdu, decode, recorded_packet};
use std::alloc::{AllocError, Global};
use std::marker::Model;

/// The most packets of a connection.
pub(crate) const MOST_PACKETS: usize = 16_000_000;

/// The most PDUs that one side may have sent.
pub(crate) const MOST_SENT: u32 = 1_000_000;

// The redundancy number in a datagram.
pub(crate) fn number_in(bytes: &[u8]) -> u32
    requires { 8 ≤ length bytes.now }
    ensures { result ≡ number_in_bytes bytes.now }
{
    u32::from_le_bytes([bytes[4], bytes[5], bytes[6], bytes[7]])
}

/// The packets of a connection that crossed, in their order, and the sent list of each side.
#[derive(Drop)]
pub struct Sent<'a> {
    params: Params,
    packets: Vec<Datagram<'a>>,
    client: MapList<'a>,
    server: MapList<'a>,
}

impl<'a> Model for Sent<'a> {
    ghost Value = { Crossing };

    ghost view = { λ s. record {
      params = s.params;
      packets = map packet_of s.packets.items;
      client = s.client;
      server = s.server;
    } };

    ghost invariant = { λ s. IsCrossing (record {
      params = s.params;
      packets = map packet_of s.packets.items;
      client = s.client;
      server = s.server;
    }) };
}

impl<'a> Sent<'a> {
    // Nothing has crossed.
    #[tactic(auto, using(crate::proofs::Capture::Readings::nothing_is))]
    pub(crate) fn new(alloc: Global, params: Params) -> Sent<'a>
        ensures value { result ≡ nothing_crossed params }
        ensures crossing { IsCrossing result }
    {
        // The ids are read, so it is known that they have 32 bits.
        prove!(params.client_id() != params.server_id());
        Sent {
            params,
            packets: Vec::new(alloc),
            client: MapList::new(alloc),
            server: MapList::new(alloc),
        }
    }

    /// The parameters by which the capture was read.
    pub fn params(&self) -> Params
        ensures value { result ≡ self.now.params }
        ensures crossing { IsCrossing self.now }
    {
        self.params
    }

    // Its parameters, where it keeps them.
    fn kept_params(&self) -> &Params
        ensures value { result.now ≡ self.now.params }
        ensures crossing { IsCrossing self.now }
    {
        &self.params
    }

    /// How many packets crossed.
    pub fn len(&self) -> u32
        ensures value { result ≡ length self.now.packets }
        ensures crossing { IsCrossing self.now }
    {
        self.packets.len() as u32
    }

    /// The sender and the redundancy number of the packet at a place.
    #[tactic(auto, using(crate::proofs::Capture::Crossings::spelled_at, crate::proofs::Capture::Crossings::number_spelled, crate::proofs::Capture::Crossings::length_spelled))]
    pub fn packet(&self, place: u32) -> Option<(Side, u32)>
        ensures value { MatchOption result (slice_get self.now.packets place ≡ None)
            (λ r. (k : Packet) × (d : RedundancyPdu) × (slice_get self.now.packets place ≡ Some k)
            × Spells self.now.params k.side d k.payload × (r ≡ (k.side, d.number))) }
        ensures crossing { IsCrossing self.now }
    {
        let packet = self.packet_at(place)?;
        Some((packet.side, number_in(packet.payload)))
    }

    // The packet at a place.
    fn packet_at(&self, place: u32) -> Option<Datagram<'a>>
        ensures value { option_map packet_of result ≡ slice_get self.now.packets place }
        ensures crossing { IsCrossing self.now }
    {
        self.packets.get(place as usize).copied()
    }

    /// The sent list of the client.
    pub fn client(&self) -> &MapList<'a>
        ensures value { result.now ≡ self.now.client }
        ensures crossing { IsCrossing self.now }
    {
        &self.client
    }

    /// The sent list of the server.
    pub fn server(&self) -> &MapList<'a>
        ensures value { result.now ≡ self.now.server }
        ensures crossing { IsCrossing self.now }
    {
        &self.server
    }

    // The sent list of a side.
    fn list(&self, side: Side) -> &MapList<'a>
        ensures value { result.now ≡ sent_by self.now side }
        ensures crossing { IsCrossing self.now }
    {
        match side {
            Side::Client => &self.client,
            Side::Server => &self.server,
        }
    }

    /// The place and the PDU at a position of a side's sent list.
    pub fn first(&self, side: Side, position: u32) -> Option<FirstCopy<'a>>
        ensures value { option_map copy_of result ≡ slice_get (sent_by self.now side) position }
        ensures crossing { IsCrossing self.now }
    {
        self.list(side).get(position)
    }

    // Whether these are the bytes of the packet at a place.
    fn has_bytes(&self, place: u32, bytes: &[u8]) -> bool
        requires { place < length self.now.packets }
        ensures { IfSome (slice_get self.now.packets place) (λ k. result ≡ bytes_eq k.payload bytes.now) }
    {
        self.packets[place as usize].payload == bytes
    }

    // Whether a number is the next of a side; the first is free.
    fn is_next(&self, side: Side, number: u32) -> bool
        ensures { result ≡ is_next_number (sent_by self.now side) number }
    {
        let list = self.list(side);
        match list.get(0) {
            Some((_, first)) => number == first.number().wrapping_add(list.len()),
            None => true,
        }
    }

    // The PDU of a packet, where its number is new, or the number of its fault.
    fn judge(&self, found: Datagram<'a>) -> Result<Option<Pdu<'a>>, u8>
        ensures spelled { OnOk result ((d : RedundancyPdu) × (decode_of self.now.params found.entry.side found.entry.payload.now ≡ Ok d)
            × Spells self.now.params found.entry.side d found.entry.payload.now) }
        ensures value { MatchResult result
            (λ new. (packet_fault self.now.params (sent_by self.now found.entry.side) (packet_of found.entry) ≡ None)
            × (sent_after self.now (packet_of found.entry) ≡ with_new (sent_by self.now found.entry.side) (length self.now.packets) new))
            (λ f. packet_fault self.now.params (sent_by self.now found.entry.side) (packet_of found.entry) ≡ Some f) }
    {
        let p = self.kept_params();
        let pdu = match decode(p, found.side, found.payload) {
            Ok(pdu) => pdu,
            Err(fault) => return Err(fault.number),
        };
        let number = pdu.number();
        // The next number is no known one, so the map isn't asked.
        if self.is_next(found.side, number) {
            return Ok(Some(pdu));
        }
        match self.list(found.side).place_of(number) {
            Some(place) => {
                if self.has_bytes(place, found.payload) {
                    Ok(None)
                } else {
                    Err(Fault::COPY_DIFFERS)
                }
            }
            None => Err(Fault::NUMBER_GAP),
        }
    }

    // Whether one more packet keeps the limits, and where its number is new one more PDU of its side.
    fn has_room(&self, side: Side, is_new: bool) -> bool
        ensures value { result ≡ (nat_lt (length self.now.packets) most_packets && (not is_new || nat_lt (length (sent_by self.now side)) most_sent)) }
        ensures crossing { IsCrossing self.now }
    {
        self.packets.len() < MOST_PACKETS && (!is_new || self.list(side).len() < MOST_SENT)
    }

    // Adds a packet, and its PDU where its number is new. Without memory for it all stays as it was.
    fn push(&mut self, found: Datagram<'a>, new: Option<Pdu<'a>>) -> Result<(), AllocError>
        requires judged { sent_after self.old (packet_of found) ≡ with_new (sent_by self.old found.side) (length self.old.packets) new }
        requires crossing { IsCrossing (with_packet self.old (packet_of found)) }
        ensures ok { OnOk result (self.new ≡ with_packet self.old (packet_of found.entry)) }
        ensures err { OnErr result (self.new ≡ self.old) }
    {
        self.packets.try_reserve(1)?;
        if let Some(pdu) = new {
            let place = self.packets.len() as u32;
            match found.side {
                Side::Client => self.client.push(place, pdu)?,
                Side::Server => self.server.push(place, pdu)?,
            }
        }
        self.packets.push_reserved(found);
        Ok(())
    }

    // Adds the packet of a record.
    #[tactic(auto, unfolding(crate::specs::Capture::Reading::after_packet))]
    fn add_packet(&mut self, number: u32, found: Datagram<'a>) -> Result<(), Fault>
        requires { IsRecorded self.old.params found.channel }
        ensures { MatchResult result
            (λ _. after_packet self.old number (packet_of found.entry) ≡ Ok self.new)
            (λ f. (f ≡ no_memory) ⊎ (after_packet self.old number (packet_of found.entry) ≡ Err f)) }
    {
        let new = match self.judge(found) {
            Ok(new) => new,
            Err(fault) => return Err(Fault::of_end(fault, number, found.side)),
        };
        if !self.has_room(found.side, new.is_some()) {
            return Err(Fault::at(Fault::TOO_MANY, number));
        }
        self.push(found, new)?;
        Ok(())
    }

    // Adds the packet of a record, if it holds one.
    #[tactic(auto, unfolding(crate::specs::Capture::Reading::after_record))]
    pub(crate) fn add_record(&mut self, record: &Record<'a>) -> Result<(), Fault>
        ensures { MatchResult result
            (λ _. after_record self.old («record».now.number, «record».now.bytes.now) ≡ Ok self.new)
            (λ f. (f ≡ no_memory) ⊎ (after_record self.old («record».now.number, «record».now.bytes.now) ≡ Err f)) }
    {
        match recorded_packet(&self.params, record)? {
            Some(found) => self.add_packet(record.number, found),
            None => Ok(()),
        }
    }
}
