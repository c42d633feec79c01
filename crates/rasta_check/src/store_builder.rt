//! What crosses by the records of a capture, one after the other.
ghost use Rattle.std.specs.Prelude.{◌≡◌, ◌⊎◌, Ok, Err, MatchResult, OnErr};
ghost use Rattle.rasta_pcap.specs.Fault.{no_memory};
ghost use Rattle.rasta_udp.specs.Frame.{packet_of};
ghost use Rattle.rasta_check.specs.Capture.SentLists.{IsRecorded};
ghost use Rattle.rasta_check.specs.Capture.Reading.{after_packet, after_record, packet_at};
ghost use Rattle.rasta_check.specs.Capture.Crossing.{nothing_crossed};

use crate::packet_store::Store;
use crate::passage::Passage;
use rasta_pcap::{Fault, Record};
use rasta_pdu::Params;
use rasta_udp::Datagram;
use std::alloc::Global;

/// Takes the records of a capture in one by one, and keeps what crosses by them, as [`store`](crate::store) reads it
/// from a whole capture. The caller ends at the last record of the window.
#[derive(Drop)]
pub struct StoreBuilder {
    store: Store,
}

impl StoreBuilder {
    ghost use Rattle.rasta_check.specs.Capture.Building.{crossed_in};
    ghost use Rattle.rasta_check.specs.Capture.Passages.{passage_in};

    /// Nothing has crossed.
    pub fn new(alloc: Global, params: Params) -> StoreBuilder
        ensures { crossed_in result ≡ nothing_crossed params }
    {
        StoreBuilder {
            store: Store::new(alloc, params),
        }
    }

    /// Takes in the next record, and answers where its packet crossed, if it holds one of the connection. A record
    /// before the window is passed over.
    ///
    /// Refused by the faults of a record's packet, as [`store`](crate::store) is, and by [`Fault::NO_MEMORY`]; what
    /// crossed before stays as it is then.
    pub fn add(&mut self, record: &Record<'_>) -> Result<Option<Passage>, Fault>
        ensures value { MatchResult result
            (λ o. (after_record (crossed_in self.old) («record».now.number, «record».now.bytes.now) ≡ Ok (crossed_in self.new))
            × (o ≡ passage_in (packet_at (crossed_in self.old).params («record».now.number, «record».now.bytes.now))))
            (λ f. (f ≡ no_memory)
            ⊎ (after_record (crossed_in self.old) («record».now.number, «record».now.bytes.now) ≡ Err f)) }
        ensures kept { OnErr result (crossed_in self.new ≡ crossed_in self.old) }
    {
        self.store.add_record(record)
    }

    /// Takes in a packet on a channel of the connection, as if the record of this number held it in the window.
    ///
    /// Refused as a record's packet is by [`StoreBuilder::add`]; what crossed before stays as it is then.
    pub fn add_packet(&mut self, number: u32, packet: &Datagram<'_>) -> Result<(), Fault>
        requires { IsRecorded (crossed_in self.old).params packet.now.channel }
        ensures value { MatchResult result
            (λ _. after_packet (crossed_in self.old) number (packet_of packet.now) ≡ Ok (crossed_in self.new))
            (λ f. (f ≡ no_memory) ⊎ (after_packet (crossed_in self.old) number (packet_of packet.now) ≡ Err f)) }
        ensures kept { OnErr result (crossed_in self.new ≡ crossed_in self.old) }
    {
        self.store.add_packet(number, packet)
    }

    /// What has crossed so far.
    pub fn store(&self) -> &Store
        ensures { result.now ≡ crossed_in self.now }
    {
        &self.store
    }

    /// What crossed.
    pub fn finish(self) -> Store
        ensures { result ≡ crossed_in self }
    {
        let StoreBuilder { store } = self;
        store
    }
}
