//! Two ends and a network, moved step by step as it is defined: plainly, and slowly.
ghost use Rattle.std.specs.Prelude.{◌≡◌, ℕ, ◌+◌, ◌≤◌, ◌<◌, ◌^◌, ◌↔◌, IsTrue, List, map, length, Some, None, IfOk, OnErr, MatchOption, slice_get, Contains};
ghost use Rattle.rasta_udp.specs.Frame.{Packet, packet_of};
ghost use Rattle.rasta_pdu.specs.Pdu.{RedundancyPdu, value_of};
ghost use Rattle.rasta_end.specs.State.{Made, wrapped};
ghost use Rattle.rasta_end.specs.TakeRule.{take_fault};
ghost use Rattle.rasta_end.specs.Starts.{start_of};
ghost use Rattle.rasta_check.specs.Capture.SentLists.{Spells};
ghost use Rattle.rasta_check.specs.Capture.SentLists.{IsRecorded};
ghost use Rattle.rasta_check.specs.Model.World.{Station, Step, first_station, first_world, other_side, station_of};
ghost use Rattle.trials_plain.specs.Moving.{Answers, IsBelow};

use rasta_end::{End, Why};
use rasta_pcap::Side;
use rasta_pdu::{Params, Pdu, decode};
use rasta_udp::Datagram;
use std::alloc::{AllocError, Global};
use std::marker::Model;

/// What a station may do, or what may happen to it.
#[derive(Clone, Copy)]
pub enum Move<'a> {
    /// It makes the PDU that the payload spells, which crosses on this channel, from 1.
    Make {
        channel: u8,
        payload: &'a [u8],
        why: Why,
    },
    /// Its packet at this place, from 0, crosses again on this channel.
    Repeat {
        place: u32,
        channel: u8,
    },
    /// The PDU at this position of the peer arrives.
    Arrive {
        position: u32,
    },
    /// It takes the PDU at this position of the peer.
    Take {
        position: u32,
    },
    /// Its clock rises to this, in whole milliseconds.
    Wait {
        clock: u64,
    },
}

// An end with its clock and what the network brought it.
#[derive(Drop)]
struct PlainStation<'a> {
    params: Params,
    side: Side,
    // The position of the first PDU that is made since the start.
    base: u32,
    end: End<'a>,
    clock: u64,
    arrived: Vec<u32>,
    mark: u64,
    first_number: u32,
}

impl<'a> Model for PlainStation<'a> {
    ghost use Rattle.trials_plain.specs.Moving.{JudgedStation, judged_station, IsPlainStation};

    ghost Value = { JudgedStation };

    ghost view = { judged_station };

    ghost invariant = { IsPlainStation };
}

fn clock_at_start(params: &Params, side: Side) -> u64
    ensures { result ≡ (start_of params.now side).clock }
{
    match params.quiet() {
        None => 0,
        Some(quiet) => quiet.of(side).clock,
    }
}

fn base(params: &Params, side: Side) -> u32
    ensures value { result ≡ (start_of params.now side).base }
    ensures small { result ≤ 1 }
    ensures accepted { (start_of params.now side).accepted ≡ result }
{
    match (params.quiet(), side) {
        (None, _) => 0,
        (Some(_), _) => 1,
    }
}

impl<'a> PlainStation<'a> {
    fn start(alloc: Global, params: &Params, side: Side, first_number: u32) -> PlainStation<'a>
        ensures { result ≡ record { params = params.now; station = first_station params.now side first_number } }
    {
        let base = base(params, side);
        PlainStation {
            params: *params,
            side,
            base,
            end: End::start(alloc, params, side),
            clock: clock_at_start(params, side),
            arrived: Vec::new(alloc),
            mark: u64::from(base),
            first_number,
        }
    }

    fn has_channel(&self, channel: u8) -> bool
        ensures { IsTrue result ↔ IsRecorded self.now.params channel }
    {
        channel >= 1 && usize::from(channel) <= self.params.channel().len()
    }

    // The redundancy number of the next PDU.
    fn next_number(&self) -> u32
        ensures { result ≡ wrapped (self.now.station.first_number + length self.now.station.state.made) }
    {
        let made = (self.end.made() % (1 << 32)) as u32;
        self.first_number.wrapping_add(self.base).wrapping_add(made)
    }

    // The PDU that the payload spells, under the next number.
    fn spelled(&self, payload: &'a [u8]) -> Option<Pdu<'a>>
        ensures { MatchOption result
            ((r : RedundancyPdu) → Spells self.now.params self.now.station.state.side r payload.now → r.number ≡ wrapped (self.now.station.first_number + length self.now.station.state.made) → ⊥)
            (λ d. Spells self.now.params self.now.station.state.side (value_of d) payload.now
            × ((value_of d).number ≡ wrapped (self.now.station.first_number + length self.now.station.state.made))
            × ((r : RedundancyPdu) → Spells self.now.params self.now.station.state.side r payload.now → value_of d ≡ r)) }
    {
        match decode(&self.params, self.side, payload) {
            Ok(pdu) if pdu.number() == self.next_number() => Some(pdu),
            _ => None,
        }
    }

    // The PDU at a position, of those made since the start.
    fn made_at(&self, position: u32) -> Option<Pdu<'a>>
        ensures { MatchOption result
            (self.now.station.state.base ≤ position → position < length self.now.station.state.made → ⊥)
            (λ d. (self.now.station.state.base ≤ position)
            × ((m : Made) × (slice_get self.now.station.state.made position ≡ Some m) × (m.pdu ≡ (value_of d).safety))) }
    {
        match position.checked_sub(self.base) {
            Some(index) => self.end.made_at(index as usize),
            None => None,
        }
    }

    fn has_arrived(&self, position: u32) -> bool
        ensures { IsTrue result ↔ Contains self.now.station.arrived position }
    {
        self.arrived.contains(&position)
    }

    // The PDU of the peer at this position, where it may be taken.
    fn takeable(&self, peer: &PlainStation<'a>, position: u32) -> Option<Pdu<'a>>
        requires base { peer.now.station.state.base ≡ self.now.station.state.base }
        ensures { MatchOption result
            ((m : Made) → Contains self.now.station.arrived position → self.now.station.mark ≤ position
            → slice_get peer.now.station.state.made position ≡ Some m
            → take_fault self.now.params self.now.station.state self.now.station.clock ≡ None → ⊥)
            (λ d. Contains self.now.station.arrived position × (self.now.station.mark ≤ position)
            × ((m : Made) × (slice_get peer.now.station.state.made position ≡ Some m) × (m.pdu ≡ (value_of d).safety))
            × (take_fault self.now.params self.now.station.state self.now.station.clock ≡ None)) }
    {
        if !self.has_arrived(position) || u64::from(position) < self.mark {
            return None;
        }
        match self.end.take_fault(self.clock) {
            Some(_) => None,
            None => peer.made_at(position),
        }
    }

    // The own packet at a place.
    fn old_packet(&self, crossed: &[Datagram<'a>], place: u32) -> Option<Datagram<'a>>
        ensures { MatchOption result
            ((old : Packet) → slice_get (map packet_of crossed.now) place ≡ Some old → old.side ≡ self.now.station.state.side → ⊥)
            (λ d. (slice_get (map packet_of crossed.now) place ≡ Some (packet_of d)) × (d.side ≡ self.now.station.state.side)) }
    {
        match crossed.get(place as usize) {
            Some(old) if old.side == self.side => Some(*old),
            _ => None,
        }
    }

    fn makes(
        &mut self,
        crossed: &mut Vec<Datagram<'a>>,
        channel: u8,
        payload: &'a [u8],
        why: Why,
    ) -> Result<bool, AllocError>
        ensures answer { IfOk result (λ moved. (peer : Station) → Answers self.old.params peer (map packet_of crossed.old.items) self.old.station (Move.Make channel payload.entry why)
            moved self.new.station (map packet_of crossed.new.items)) }
        ensures params { self.new.params ≡ self.old.params }
        ensures station { OnErr result (self.new ≡ self.old) }
        ensures packets { OnErr result (crossed.new.items ≡ crossed.old.items) }
    {
        let Some(pdu) = self.spelled(payload) else {
            return Ok(false);
        };
        if !self.has_channel(channel) {
            return Ok(false);
        }
        crossed.try_reserve(1)?;
        if let Err(fault) = self.end.make(&pdu, self.clock, why) {
            if fault.end.is_none() {
                return Err(AllocError);
            }
            return Ok(false);
        }
        crossed.push_reserved(Datagram {
            channel,
            side: self.side,
            payload,
        });
        Ok(true)
    }

    fn repeats(
        &self,
        crossed: &mut Vec<Datagram<'a>>,
        place: u32,
        channel: u8,
    ) -> Result<bool, AllocError>
        ensures answer { IfOk result (λ moved. (peer : Station) → Answers self.now.params peer (map packet_of crossed.old.items) self.now.station (Move.Repeat place channel)
            moved self.now.station (map packet_of crossed.new.items)) }
        ensures packets { OnErr result (crossed.new.items ≡ crossed.old.items) }
    {
        let Some(old) = self.old_packet(crossed.as_slice(), place) else {
            return Ok(false);
        };
        if !self.has_channel(channel) {
            return Ok(false);
        }
        crossed.try_reserve(1)?;
        crossed.push_reserved(Datagram {
            channel,
            side: old.side,
            payload: old.payload,
        });
        Ok(true)
    }

    fn arrives(&mut self, peer: &PlainStation<'a>, position: u32) -> Result<bool, AllocError>
        requires base { peer.now.station.state.base ≡ self.old.station.state.base }
        ensures answer { IfOk result (λ moved. (crossed : List Packet) → Answers self.old.params peer.now.station crossed self.old.station (Move.Arrive position)
            moved self.new.station crossed) }
        ensures params { self.new.params ≡ self.old.params }
        ensures station { OnErr result (self.new ≡ self.old) }
    {
        let Some(_) = peer.made_at(position) else {
            return Ok(false);
        };
        if self.arrived.insert(0, position).is_err() {
            return Err(AllocError);
        }
        Ok(true)
    }

    fn takes(&mut self, peer: &PlainStation<'a>, position: u32) -> Result<bool, AllocError>
        requires base { peer.now.station.state.base ≡ self.old.station.state.base }
        requires few { position < 2 ^ 31 }
        ensures answer { IfOk result (λ moved. (crossed : List Packet) → Answers self.old.params peer.now.station crossed self.old.station (Move.Take position)
            moved self.new.station crossed) }
        ensures params { self.new.params ≡ self.old.params }
        ensures station { OnErr result (self.new ≡ self.old) }
    {
        let Some(pdu) = self.takeable(peer, position) else {
            return Ok(false);
        };
        if let Err(fault) = self.end.take(&pdu) {
            // Only a lack of memory is left.
            prove!(fault.end.is_none());
            return Err(AllocError);
        }
        self.mark = u64::from(position) + 1;
        Ok(true)
    }

    fn waits(&mut self, clock: u64) -> bool
        ensures answer { (peer : Station) (crossed : List Packet) → Answers self.old.params peer crossed self.old.station (Move.Wait clock) result self.new.station crossed }
        ensures params { self.new.params ≡ self.old.params }
    {
        if clock < self.clock {
            return false;
        }
        self.clock = clock;
        true
    }

    fn moves(
        &mut self,
        peer: &PlainStation<'a>,
        crossed: &mut Vec<Datagram<'a>>,
        what: Move<'a>,
    ) -> Result<bool, AllocError>
        requires base { peer.now.station.state.base ≡ self.old.station.state.base }
        requires few { IsBelow what }
        ensures answer { IfOk result (λ moved. Answers self.old.params peer.now.station (map packet_of crossed.old.items) self.old.station what.entry
            moved self.new.station (map packet_of crossed.new.items)) }
        ensures params { self.new.params ≡ self.old.params }
        ensures station { OnErr result (self.new ≡ self.old) }
        ensures packets { OnErr result (crossed.new.items ≡ crossed.old.items) }
    {
        match what {
            Move::Make {
                channel,
                payload,
                why,
            } => self.makes(crossed, channel, payload, why),
            Move::Repeat { place, channel } => self.repeats(crossed, place, channel),
            Move::Arrive { position } => self.arrives(peer, position),
            Move::Take { position } => self.takes(peer, position),
            Move::Wait { clock } => Ok(self.waits(clock)),
        }
    }
}

/// The two ends of a connection, and the packets that crossed so far.
#[derive(Drop)]
pub struct PlainWorld<'a> {
    client: PlainStation<'a>,
    server: PlainStation<'a>,
    crossed: Vec<Datagram<'a>>,
}

impl<'a> Model for PlainWorld<'a> {
    ghost use Rattle.std.specs.Prelude.{◌≡◌, map};
    ghost use Rattle.rasta_udp.specs.Frame.{packet_of};
    ghost use Rattle.trials_plain.specs.Moving.{JudgedWorld};

    ghost Value = { JudgedWorld };

    ghost view = { λ w. record {
      params = w.client.params;
      world = record { client = w.client.station; server = w.server.station; crossed = map packet_of w.crossed.items };
    } };

    ghost invariant = { λ w. (w.server.params ≡ w.client.params) × (w.server.station.state.base ≡ w.client.station.state.base) };
}

impl<'a> PlainWorld<'a> {
    /// The world at the start: nothing has crossed. The redundancy number of each end's first position is
    /// free.
    pub fn start(
        alloc: Global,
        params: &Params,
        client_number: u32,
        server_number: u32,
    ) -> PlainWorld<'a>
        ensures { result ≡ record { params = params.now; world = first_world params.now client_number server_number } }
    {
        PlainWorld {
            client: PlainStation::start(alloc, params, Side::Client, client_number),
            server: PlainStation::start(alloc, params, Side::Server, server_number),
            crossed: Vec::new(alloc),
        }
    }

    /// Moves the station of this side while its peer stands still: true where the move is allowed, else
    /// false, and nothing changes. The only error is out of memory; the world is then as before.
    pub fn moves(&mut self, side: Side, what: Move<'a>) -> Result<bool, AllocError>
        requires few { IsBelow what }
        // The move was made, or it isn't allowed and nothing happened.
        ensures answer { IfOk result (λ moved. Answers self.old.params (station_of self.old.world (other_side side)) self.old.world.crossed (station_of self.old.world side) what.entry
            moved (station_of self.new.world side) self.new.world.crossed) }
        ensures step { IfOk result (λ moved. IsTrue moved → Step self.old.params self.old.world self.new.world) }
        ensures peer { station_of self.new.world (other_side side) ≡ station_of self.old.world (other_side side) }
        ensures params { self.new.params ≡ self.old.params }
        ensures err { OnErr result (self.new ≡ self.old) }
    {
        match side {
            Side::Client => self.client.moves(&self.server, &mut self.crossed, what),
            Side::Server => self.server.moves(&self.client, &mut self.crossed, what),
        }
    }

    /// The packets that crossed so far, in order.
    pub fn crossed(&self) -> &[Datagram<'a>]
        ensures { map packet_of result.now ≡ self.now.world.crossed }
    {
        self.crossed.as_slice()
    }
}
