//! What each side sent, with the bytes of first copies alone.
ghost use Rattle.std.specs.Prelude.{◌≡◌, ℕ, ◌∷◌, ◌++◌, [], ◌<◌, length, map, is_some, is_none, option_map, slice_get, None, Some, Ok, Err, IfSome, MatchOption, MatchResult, OnOk, OnErr, ◌⊎◌, nat_lt, not, ◌&&◌, ◌||◌, bytes_eq};
ghost use Rattle.rasta_pcap.specs.Fault.{no_memory};
ghost use Rattle.rasta_udp.specs.Frame.{Packet, map_found, packet_of};
ghost use Rattle.rasta_pdu.specs.Pdu.{RedundancyPdu, decode_of, redundancy_bytes, value_of};
ghost use Rattle.rasta_pdu.specs.Records.{recorded_packet};
ghost use Rattle.rasta_check.specs.Capture.SentLists.{FirstCopy, Spells, number_in_bytes};
ghost use Rattle.rasta_check.specs.Capture.PacketFaults.{is_next_number, packet_fault};
ghost use Rattle.rasta_check.specs.Internals.Datagrams.{kept_by};
ghost use Rattle.rasta_check.specs.Capture.Lists.{copy_of, position_of_number, position_of_place};
ghost use Rattle.rasta_check.specs.Capture.Crossing.{Crossing, IsCrossing, sent_by, nothing_crossed};
ghost use Rattle.rasta_check.specs.Capture.Reading.{with_packet, after_packet, after_record, packet_at};
ghost use Rattle.rasta_check.specs.Capture.Passages.{passage_in};
ghost use Rattle.rasta_check.specs.Internals.Stored.{HasPosition, IsStore, crossing_by, first_copy_bytes};
ghost use Rattle.rasta_check.specs.Model.Theorem.{most_packets};
ghost use Rattle.rasta_check.specs.Capture.SentLists.{IsRecorded};
ghost use Rattle.rasta_check.specs.Model.World.{most_sent};

use crate::datagrams::Datagrams;
use crate::passage::Passage;
use crate::sent_list::FirstCopy;
use crate::sent_packets::{MOST_PACKETS, MOST_SENT, number_in};
use crate::span_list::SpanList;
use rasta_pcap::{Fault, Record, Side};
use rasta_pdu::{Datagram, Params, Pdu, decode, read_decoded, recorded_packet};
use std::alloc::{AllocError, Global};
use std::marker::Model;

/// A packet: its bytes are those of its side's first copy at this position.
#[derive(Clone, Copy)]
pub(crate) struct StoredPacket {
    position: u32,
    channel: u8,
    side: Side,
}

fn packet_at(packets: &[StoredPacket], place: u32) -> Option<StoredPacket>
    ensures { result ≡ slice_get packets.now place }
{
    packets.get(place as usize).copied()
}

// The packet of a record of the window, if it holds one. Inlined into what judges and keeps it, this costs more
// instructions a packet than the call does.
#[inline(never)]
fn packet_in<'a>(params: &Params, record: &Record<'a>) -> Result<Option<Datagram<'a>>, Fault>
    ensures packet { map_found packet_of result ≡ recorded_packet params.now («record».now.number, «record».now.bytes.now) }
{
    recorded_packet(params, record)
}

/// What crossed, as [`Sent`](crate::Sent) has it, apart from the capture: of packets that repeat another
/// byte for byte, only the first copy's bytes are kept.
#[derive(Drop)]
pub struct Store {
    params: Params,
    datagrams: Datagrams,
    packets: Vec<StoredPacket>,
}

impl Model for Store {
    ghost Value = { Crossing };

    ghost view = { λ s. crossing_by s.params s.datagrams s.packets.items };

    ghost invariant = { λ s. IsStore s.params s.datagrams s.packets.items };
}

impl Store {
    // Nothing has crossed.
    #[tactic(auto, using(crate::proofs::Internals::StoreGrowth::empty_store))]
    pub(crate) fn new(alloc: Global, params: Params) -> Store
        ensures value { result ≡ nothing_crossed params }
        ensures crossing { IsCrossing result }
    {
        // The ids are read, so it is known that they have 32 bits.
        prove!(params.client_id() != params.server_id());
        Store {
            params,
            datagrams: Datagrams::new(alloc),
            packets: Vec::new(alloc),
        }
    }

    /// The parameters by which the capture was read.
    pub fn params(&self) -> Params
        ensures value { result ≡ self.now.params }
        ensures crossing { IsCrossing self.now }
    {
        self.params
    }

    // Its parameters, where it keeps them.
    fn kept_params(&self) -> &Params
        ensures value { result.now ≡ self.now.params }
        ensures crossing { IsCrossing self.now }
    {
        &self.params
    }

    /// How many packets crossed.
    pub fn len(&self) -> u32
        ensures value { result ≡ length self.now.packets }
        ensures crossing { IsCrossing self.now }
    {
        self.packets.len() as u32
    }

    /// The first copies' datagrams of both sides, one after the other in the order in which they crossed.
    pub fn bytes(&self) -> &[u8]
        ensures value { result.now ≡ first_copy_bytes self.now }
        ensures crossing { IsCrossing self.now }
    {
        self.datagrams.bytes()
    }

    /// The sent list of the client.
    pub fn client(&self) -> SpanList<'_>
        ensures value { result ≡ self.now.client }
        ensures crossing { IsCrossing self.now }
    {
        // A field is read, so what a store holds is known.
        let _ = &self.params;
        SpanList::new(self, Side::Client)
    }

    /// The sent list of the server.
    pub fn server(&self) -> SpanList<'_>
        ensures value { result ≡ self.now.server }
        ensures crossing { IsCrossing self.now }
    {
        // A field is read, so what a store holds is known.
        let _ = &self.params;
        SpanList::new(self, Side::Server)
    }

    /// The sent list of an end.
    pub fn list_of(&self, side: Side) -> SpanList<'_>
        ensures { result ≡ sent_by self.now side }
    {
        match side {
            Side::Client => self.client(),
            Side::Server => self.server(),
        }
    }

    /// The sender and the redundancy number of the packet at a place.
    #[tactic(auto, using(crate::proofs::Internals::StoreLists::packet_read, crate::proofs::Internals::StoreLists::stored_packet))]
    pub fn packet(&self, place: u32) -> Option<(Side, u32)>
        ensures value { MatchOption result (slice_get self.now.packets place ≡ None)
            (λ r. (k : Packet) × (d : RedundancyPdu) × (slice_get self.now.packets place ≡ Some k)
            × Spells self.now.params k.side d k.payload × (r ≡ (k.side, d.number))) }
        ensures crossing { IsCrossing self.now }
    {
        let packet = packet_at(&self.packets, place)?;
        let number = self.number_at(packet.side, packet.position)?;
        Some((packet.side, number))
    }

    /// The sender and the PDU of the packet at a place.
    #[tactic(auto, using(crate::proofs::Internals::StoreLists::packet_read, crate::proofs::Internals::StoreLists::stored_pdu))]
    pub fn pdu_at(&self, place: u32) -> Option<(Side, Pdu<'_>)>
        ensures value { MatchOption result (slice_get self.now.packets place ≡ None)
            (λ r. (k : Packet) × (slice_get self.now.packets place ≡ Some k) × (r.0 ≡ k.side)
            × Spells self.now.params k.side (value_of r.1) k.payload) }
        ensures crossing { IsCrossing self.now }
    {
        let packet = packet_at(&self.packets, place)?;
        let (_, pdu) = self.get(packet.side, packet.position)?;
        Some((packet.side, pdu))
    }

    // How many PDUs a side sent.
    pub(crate) fn count(&self, side: Side) -> u32
        ensures value { result ≡ length (sent_by self.now side) }
        ensures crossing { IsCrossing self.now }
    {
        self.datagrams.len(side) as u32
    }

    // The place and the PDU at a position of a side's sent list.
    pub(crate) fn get(&self, side: Side, position: u32) -> Option<FirstCopy<'_>>
        ensures value { option_map copy_of result ≡ slice_get (sent_by self.now side) position }
        ensures crossing { IsCrossing self.now }
    {
        let (place, bytes) = self.datagrams.get(side, position)?;
        Some((place, read_decoded(&self.params, side, bytes)))
    }

    /// The place and the datagram at a position of a side's sent list.
    #[tactic(auto, using(crate::proofs::Internals::StoreLists::kept_at))]
    pub fn datagram(&self, side: Side, position: u32) -> Option<(u32, &[u8])>
        ensures value { MatchOption result (slice_get (sent_by self.now side) position ≡ None)
            (λ x. (copy : FirstCopy) × (slice_get (sent_by self.now side) position ≡ Some copy) × (x.0 ≡ copy.place)
            × (x.1.now ≡ redundancy_bytes self.now.params side copy.pdu)) }
        ensures crossing { IsCrossing self.now }
    {
        // A field is read, so what a store holds is known.
        let _ = &self.params;
        self.datagrams.get(side, position)
    }

    // The redundancy number at a position of a side's sent list.
    #[tactic(auto, using(crate::proofs::Internals::StoreLists::kept_at, crate::proofs::Capture::Crossings::length_spelled))]
    fn number_at(&self, side: Side, position: u32) -> Option<u32>
        ensures value { result ≡ option_map (λ (c : FirstCopy). c.pdu.number) (slice_get (sent_by self.now side) position) }
        ensures crossing { IsCrossing self.now }
    {
        let (_, bytes) = self.datagrams.get(side, position)?;
        Some(number_in(bytes))
    }

    // The position of the PDU with a redundancy number in a side's sent list.
    #[tactic(auto, using(crate::proofs::Internals::StoreLists::distances))]
    pub(crate) fn position_of(&self, side: Side, number: u32) -> Option<u32>
        ensures value { result ≡ position_of_number (sent_by self.now side) number }
        ensures crossing { IsCrossing self.now }
    {
        let first = self.number_at(side, 0)?;
        let position = number.wrapping_sub(first);
        if position < self.count(side) {
            Some(position)
        } else {
            None
        }
    }

    // The position of the PDU at a place in a side's sent list.
    #[tactic(auto, using(crate::proofs::Internals::StoreLists::places))]
    pub(crate) fn at_place(&self, side: Side, place: u32) -> Option<u32>
        ensures value { result ≡ position_of_place (sent_by self.now side) place }
        ensures crossing { IsCrossing self.now }
    {
        let packet = packet_at(&self.packets, place)?;
        if packet.side != side {
            return None;
        }
        let (first_place, _) = self.datagrams.get(side, packet.position)?;
        if first_place == place {
            Some(packet.position)
        } else {
            None
        }
    }

    // Whether these are the bytes at a position of a side's sent list.
    fn has_bytes(&self, side: Side, position: u32, bytes: &[u8]) -> bool
        requires { position < length (sent_by self.now side) }
        ensures { IfSome (slice_get (sent_by self.now side) position)
            (λ c. result ≡ bytes_eq (redundancy_bytes self.now.params side c.pdu) bytes.now) }
    {
        match self.datagrams.get(side, position) {
            Some((_, kept)) => kept == bytes,
            None => false,
        }
    }

    // Whether a number is the next of a side; the first is free.
    fn is_next(&self, side: Side, number: u32) -> bool
        ensures { result ≡ is_next_number (sent_by self.now side) number }
    {
        match self.number_at(side, 0) {
            Some(first) => number == first.wrapping_add(self.count(side)),
            None => true,
        }
    }

    // The position of the first copy whose bytes a packet has: what they spell needn't be read again.
    #[tactic(auto, using(crate::proofs::Internals::StoreLists::same_copies))]
    fn repeated(&self, found: &Datagram<'_>) -> Option<u32>
        ensures value { MatchOption result
            ((position : ℕ) (copy : FirstCopy) → slice_get (sent_by self.now found.now.side) position ≡ Some copy
            → found.now.payload.now ≡ redundancy_bytes self.now.params found.now.side copy.pdu → ⊥)
            (λ position. (copy : FirstCopy) × (slice_get (sent_by self.now found.now.side) position ≡ Some copy)
            × (found.now.payload.now ≡ redundancy_bytes self.now.params found.now.side copy.pdu)) }
        ensures crossing { IsCrossing self.now }
    {
        // A field is read, so what a store holds is known.
        let _ = &self.params;
        // No first copy is so short.
        if found.payload.len() < 8 {
            return None;
        }
        let position = self.position_of(found.side, number_in(found.payload))?;
        let is_same = self.has_bytes(found.side, position, found.payload);
        is_same.then_some(position)
    }

    // The position of the first copy that a packet repeats, none where its number is new; or the number of
    // its fault.
    fn judge(&self, found: &Datagram<'_>) -> Result<Option<u32>, u8>
        ensures spelled { OnOk result ((d : RedundancyPdu) × (decode_of self.now.params found.now.side found.now.payload.now ≡ Ok d)
            × Spells self.now.params found.now.side d found.now.payload.now) }
        ensures value { MatchResult result
            (λ known. (packet_fault self.now.params (sent_by self.now found.now.side) (packet_of found.now) ≡ None)
            × HasPosition self.now (packet_of found.now) known)
            (λ f. packet_fault self.now.params (sent_by self.now found.now.side) (packet_of found.now) ≡ Some f) }
        ensures crossing { IsCrossing self.now }
    {
        if let Some(position) = self.repeated(found) {
            return Ok(Some(position));
        }
        let p = self.kept_params();
        let number = match decode(p, found.side, found.payload) {
            Ok(pdu) => pdu.number(),
            Err(fault) => return Err(fault.number),
        };
        if self.is_next(found.side, number) {
            return Ok(None);
        }
        match self.position_of(found.side, number) {
            Some(_) => Err(Fault::COPY_DIFFERS),
            None => Err(Fault::NUMBER_GAP),
        }
    }

    // Whether one more packet keeps the limits, and where its number is new one more PDU of its side.
    fn has_room(&self, side: Side, is_new: bool) -> bool
        ensures value { result ≡ (nat_lt (length self.now.packets) most_packets && (not is_new || nat_lt (length (sent_by self.now side)) most_sent)) }
        ensures crossing { IsCrossing self.now }
    {
        self.packets.len() < MOST_PACKETS && (!is_new || self.count(side) < MOST_SENT)
    }

    // Adds a packet, and its datagram where its number is new. Without memory for it all stays as it was.
    #[tactic(auto, using(crate::proofs::Internals::StoreGrowth::datagram_fits))]
    fn push(&mut self, found: &Datagram<'_>, known: Option<u32>) -> Result<(), AllocError>
        requires judged { HasPosition self.old (packet_of found.now) known }
        requires crossing { IsCrossing (with_packet self.old (packet_of found.now)) }
        ensures ok { OnOk result (self.new ≡ with_packet self.old (packet_of found.now)) }
        ensures err { OnErr result (self.new ≡ self.old) }
    {
        self.packets.try_reserve(1)?;
        let position = match known {
            Some(position) => position,
            None => {
                let position = self.datagrams.len(found.side) as u32;
                let place = self.packets.len() as u32;
                self.datagrams.push(found.side, place, found.payload)?;
                position
            }
        };
        self.packets.push_reserved(StoredPacket {
            position,
            channel: found.channel,
            side: found.side,
        });
        Ok(())
    }

    // Adds the packet of a record.
    #[tactic(auto, unfolding(crate::specs::Capture::Reading::after_packet))]
    pub(crate) fn add_packet(&mut self, number: u32, found: &Datagram<'_>) -> Result<(), Fault>
        requires { IsRecorded self.old.params found.now.channel }
        ensures value { MatchResult result
            (λ _. after_packet self.old number (packet_of found.now) ≡ Ok self.new)
            (λ f. (f ≡ no_memory) ⊎ (after_packet self.old number (packet_of found.now) ≡ Err f)) }
        ensures kept { OnErr result (self.new ≡ self.old) }
    {
        let known = match self.judge(found) {
            Ok(known) => known,
            Err(fault) => return Err(Fault::of_end(fault, number, found.side)),
        };
        if !self.has_room(found.side, known.is_none()) {
            return Err(Fault::at(Fault::TOO_MANY, number));
        }
        self.push(found, known)?;
        Ok(())
    }

    // Adds the packet of a record, and says where it crossed, if it holds one.
    #[tactic(auto, unfolding(crate::specs::Capture::Reading::after_record))]
    pub(crate) fn add_record(&mut self, record: &Record<'_>) -> Result<Option<Passage>, Fault>
        ensures value { MatchResult result
            (λ o. (after_record self.old («record».now.number, «record».now.bytes.now) ≡ Ok self.new)
            × (o ≡ passage_in (packet_at self.old.params («record».now.number, «record».now.bytes.now))))
            (λ f. (f ≡ no_memory) ⊎ (after_record self.old («record».now.number, «record».now.bytes.now) ≡ Err f)) }
        ensures kept { OnErr result (self.new ≡ self.old) }
    {
        let Some(found) = packet_in(&self.params, record)? else {
            return Ok(None);
        };
        self.add_packet(record.number, &found)?;
        Ok(Some(Passage::of(&found)))
    }
}
