//! One of the two ends of a connection.
ghost use Rattle.std.specs.Prelude.{◌≡◌, IfErr, IfOk};
ghost use Rattle.rasta_pcap.specs.Fault.{no_memory};
ghost use Rattle.seatmelon_connections.specs.Sightings.{goes_on, sighting_in};

use crate::numbers::{Numbers, Sighting};
use rasta_pcap::Fault;
use seatmelon_packets::{KindCounts, Offer, Packet};
use std::alloc::Global;

/// A disconnection request: its record and its reason.
#[derive(Clone, Copy)]
pub struct Ending {
    pub record: u32,
    pub reason: u16,
}

/// What one end of a connection sent.
#[derive(Drop)]
pub struct Party {
    pub id: u32,

    /// Of its packets, without copies.
    pub kinds: KindCounts,
    pub numbers: Numbers,

    /// Of its connection request or response.
    pub offer: Option<Offer>,
    pub ending: Option<Ending>,
}

impl Party {
    /// An end that sent nothing yet.
    ///
    /// Refused by [`Fault::NO_MEMORY`].
    pub(crate) fn new(alloc: Global, id: u32) -> Result<Party, Fault>
        ensures id { IfOk result (λ p. p.id ≡ id) }
        ensures err { IfErr result (λ f. f ≡ no_memory) }
    {
        Ok(Party {
            id,
            kinds: KindCounts::new(),
            numbers: Numbers::new(alloc)?,
            offer: None,
            ending: None,
        })
    }

    /// Whether a packet that it sent has the next number, or repeats one byte for byte.
    pub(crate) fn goes_on_with(&self, packet: &Packet) -> bool
        ensures { result ≡ goes_on self.now.numbers packet.now }
    {
        self.numbers.is_expected(packet) || self.numbers.sighting_of(packet).is_copy()
    }

    /// Takes a packet in that it sent, and says what it is among the others.
    pub(crate) fn add(&mut self, packet: &Packet) -> Sighting
        ensures sighting { result ≡ sighting_in self.old.numbers packet.now }
        ensures id { self.new.id ≡ self.old.id }
    {
        let sighting = self.numbers.add(packet);
        if matches!(sighting, Sighting::First | Sighting::Late) {
            self.kinds.add(packet.kind);
            self.note(packet);
        }
        sighting
    }

    // Keeps what the first opening and the first ending say.
    fn note(&mut self, packet: &Packet)
        ensures { self.new.id ≡ self.old.id }
    {
        if self.offer.is_none() {
            self.offer = packet.offer;
        }
        if let Some(reason) = packet.reason
            && self.ending.is_none()
        {
            self.ending = Some(Ending {
                record: packet.record,
                reason,
            });
        }
    }
}
