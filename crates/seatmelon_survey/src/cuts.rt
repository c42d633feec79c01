//! Datagrams that weren't captured whole, counted by who sent them to whom.
ghost use Rattle.std.specs.Prelude.{◌≡◌, ◌+◌, ◌^◌, min, Some, if◌then◌else◌, IfErr, OnErr, OnOk};
ghost use Rattle.rasta_pcap.specs.Fault.{no_memory};
ghost use Rattle.seatmelon_survey.specs.Cuts.{TakesCut, capped, count_in, direction_of, goes, host_of, one_more};

use byteorder::{BigEndian, ByteOrder};
use indexmap::IndexMap;
use rasta_pcap::Fault;
use rasta_udp::{Channel, Endpoint};
use seatmelon_packets::Cut;
use std::alloc::Global;
use std::marker::Model;

/// How many directions are told apart: two of each of 1,024 pairs of ends.
pub const MOST_DIRECTIONS: usize = 2048;

/// An IPv4 address, its first byte the highest, and a UDP port.
#[derive(Clone, Copy, PartialEq, Eq, Hash)]
pub struct Host {
    address: u32,
    port: u16,
}

impl Host {
    #[tactic(auto, unfolding(rasta_udp::specs::Frame::big_at))]
    fn of(endpoint: &Endpoint) -> Host
        ensures { result ≡ host_of endpoint.now }
    {
        Host {
            address: BigEndian::read_u32(&endpoint.address),
            port: endpoint.port,
        }
    }

    fn endpoint(&self) -> Endpoint {
        Endpoint {
            address: self.address.to_be_bytes(),
            port: self.port,
        }
    }
}

/// Who sends to whom.
#[derive(Clone, Copy, PartialEq, Eq, Hash)]
pub struct Direction {
    source: Host,
    destination: Host,
}

impl Direction {
    /// From the client of a route to its server.
    pub fn of(route: &Channel) -> Direction
        ensures { result ≡ direction_of route.now }
    {
        Direction {
            source: Host::of(&route.client),
            destination: Host::of(&route.server),
        }
    }

    /// The other way round.
    pub fn reverse(&self) -> Direction {
        Direction {
            source: self.destination,
            destination: self.source,
        }
    }

    /// Its source, as the client, and its destination.
    pub fn route(&self) -> Channel {
        Channel {
            client: self.source.endpoint(),
            server: self.destination.endpoint(),
        }
    }
}

/// How many datagrams of a direction were captured cut, and how many of these have the form of RaSTA as far as they were
/// captured.
#[derive(Clone, Copy)]
pub struct CutCount {
    pub datagrams: u64,
    pub formed: u64,
}

impl CutCount {
    // One datagram more.
    fn with(self, cut: &Cut) -> CutCount
        ensures { result ≡ one_more cut.now self }
    {
        CutCount {
            datagrams: self.datagrams.saturating_add(1),
            formed: self.formed.saturating_add(u64::from(cut.has_form)),
        }
    }

    /// Of both.
    pub fn and(self, other: CutCount) -> CutCount {
        CutCount {
            datagrams: self.datagrams.saturating_add(other.datagrams),
            formed: self.formed.saturating_add(other.formed),
        }
    }
}

// Of no datagram.
const NONE: CutCount = CutCount {
    datagrams: 0,
    formed: 0,
};

/// The datagrams that weren't captured whole, by direction, in the order of their first ones.
#[derive(Drop)]
pub struct Cuts {
    directions: IndexMap<Direction, CutCount>,
    datagrams: u64,

    // Of further directions, which aren't told apart.
    further: u64,
}

impl Model for Cuts {
    ghost use Rattle.seatmelon_survey.specs.CutNotes.{CutNotes};

    ghost Value = { CutNotes };

    ghost view = { λ c. record { entries = c.directions.entries; datagrams = c.datagrams; further = c.further } };
}

impl Cuts {
    ghost use Rattle.seatmelon_survey.specs.Cuts.{TakesCut, count_in};
    ghost use Rattle.seatmelon_survey.specs.CutNotes.{no_cuts};

    /// None yet.
    pub fn new(alloc: Global) -> Cuts
        ensures { result ≡ no_cuts }
    {
        Cuts {
            directions: IndexMap::new(alloc),
            datagrams: 0,
            further: 0,
        }
    }

    /// How many there are.
    pub fn datagrams(&self) -> u64
        ensures { result ≡ self.now.datagrams }
    {
        self.datagrams
    }

    /// How many are of further directions, which aren't told apart.
    pub fn further(&self) -> u64
        ensures { result ≡ self.now.further }
    {
        self.further
    }

    /// How many there are of a direction that is told apart.
    pub fn count(&self, direction: Direction) -> CutCount
        ensures { result ≡ count_in self.now direction }
    {
        match self.directions.get(&direction) {
            Some(count) => *count,
            None => NONE,
        }
    }

    /// The direction at this place, in the order of their first datagrams.
    pub fn direction(&self, place: usize) -> Option<Direction> {
        let (direction, _) = self.directions.get_index(place)?;
        Some(*direction)
    }

    /// The place of a direction, if it is told apart.
    pub fn place_of(&self, direction: Direction) -> Option<usize> {
        self.directions.get_index_of(&direction)
    }

    /// How many directions are told apart.
    pub fn directions(&self) -> usize {
        self.directions.len()
    }

    // Whether a direction can be told apart.
    fn has_room_for(&self, direction: Direction) -> bool {
        self.directions.len() < MOST_DIRECTIONS || self.directions.contains_key(&direction)
    }

    /// Counts a datagram. If memory is refused, nothing has changed.
    ///
    /// Refused by [`Fault::NO_MEMORY`] alone.
    pub fn add(&mut self, cut: &Cut) -> Result<(), Fault>
        ensures counted { OnOk result (TakesCut cut.now self.old self.new) }
        ensures unchanged { OnErr result (self.new ≡ self.old) }
        ensures err { IfErr result (λ f. f ≡ no_memory) }
    {
        let direction = Direction::of(&cut.route);
        if self.has_room_for(direction) {
            let count = self.count(direction).with(cut);
            let Ok(_) = self.directions.insert(direction, count) else {
                return Err(Fault::no_memory());
            };
        } else {
            self.further = self.further.saturating_add(1);
        }
        self.datagrams = self.datagrams.saturating_add(1);
        Ok(())
    }
}
