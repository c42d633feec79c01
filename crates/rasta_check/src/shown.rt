//! What packets of a connection show, taken in one by one.
ghost use Rattle.std.specs.Prelude.{◌≡◌, ◌⊎◌, ◌+◌, ◌-◌, ◌<◌, ◌^◌, List, [], ◌∷◌, ◌++◌, IfOk, IfErr, OnOk, OnErr, MatchOption};
ghost use Rattle.rasta_pcap.specs.Fault.{fault_at, no_memory, too_many};
ghost use Rattle.rasta_udp.specs.Frame.{Packet, packet_of};
ghost use Rattle.rasta_pdu.specs.Params.{Parameters};
ghost use Rattle.rasta_pdu.specs.Pdu.{value_of};
ghost use Rattle.rasta_pcap.specs.declared.fault.Side.{Side};
ghost use Rattle.rasta_check.specs.Middle.Kept.{HoldTogether};
ghost use Rattle.rasta_check.specs.Middle.Seen.{IsContradiction, IsSeen};
ghost use Rattle.rasta_check.specs.Middle.ShownLists.{AreListsOf};
ghost use Rattle.rasta_check.specs.Internals.Showing.{AfterPacket, SpellsOnly, TakesIn, counted};

use crate::packet_store::Store;
use crate::resent::ResentUnit;
use crate::seen::Seen;
use crate::sights::ShownUnit;
use rasta_pcap::{Fault, Side};
use rasta_pdu::{Datagram, Params, Pdu, decode};
use std::alloc::{AllocError, Global};

/// What packets show of both sides.
#[derive(Drop)]
pub struct ShownLists {
    /// How many packets they rest on: all that were taken in, or those before the first that can't be held together with
    /// those before it.
    pub packets: u32,
    /// The captured data of the client, in the order of their SNs.
    pub client: Vec<ShownUnit>,
    /// Those of the server.
    pub server: Vec<ShownUnit>,
    /// The data that the client sent again, less than 4,096 SNs ahead of each of its captured PDUs,
    /// and first sent before the captured packets begin, in the order of the SNs.
    pub client_resent: Vec<ResentUnit>,
    /// Those of the server.
    pub server_resent: Vec<ResentUnit>,
}

/// Takes packets of a connection in one by one, wherever in it they begin and whatever is missing
/// between them. Places are counted from 0.
#[derive(Drop)]
pub struct Shown {
    params: Params,
    client: Seen,
    server: Seen,
    packets: u32,
    // The place of the first packet that can't be held together with those before.
    contradiction: Option<u32>,
}

impl Shown {
    /// Nothing was captured yet.
    pub fn new(alloc: Global, params: Params) -> Shown
        ensures { IsSeen params [] result }
    {
        Shown {
            params,
            client: Seen::new(alloc),
            server: Seen::new(alloc),
            packets: 0,
            contradiction: None,
        }
    }

    // Takes in the PDU of a side, as the next packet spells it, and answers whether it can be held
    // together with those before; where it can't, all stays as it was.
    #[tactic(auto, using(crate::proofs::Middle::SeenSteps::few_seen, crate::proofs::Middle::SeenSteps::client_seen, crate::proofs::Middle::SeenSteps::server_seen))]
    fn see_pdu(&mut self, side: Side, pdu: &Pdu<'_>) -> Result<bool, AllocError>
        requires spelled { (k : Packet) × SpellsOnly self.old.params side (value_of pdu.now) k }
        ensures ok { IfOk result (λ held. (k : Packet)
            → SpellsOnly self.old.params side (value_of pdu.now) k
            → AfterPacket self.old k held self.new) }
        ensures err { OnErr result (self.new ≡ self.old) }
    {
        match side {
            Side::Client => self.client.add(self.packets, pdu),
            Side::Server => self.server.add(self.packets, pdu),
        }
    }

    // Takes in what a packet spells, and answers whether it can be held together with the PDUs
    // before; where it can't, all stays as it was.
    fn see(&mut self, packet: &Datagram<'_>) -> Result<bool, AllocError>
        ensures ok { IfOk result
            (λ held. AfterPacket self.old (packet_of packet.now) held self.new) }
        ensures err { OnErr result (self.new ≡ self.old) }
    {
        let Ok(pdu) = decode(&self.params, packet.side, packet.payload) else {
            return Ok(true);
        };
        self.see_pdu(packet.side, &pdu)
    }

    // Counts a packet, and keeps its place where it is the first that can't be held together with
    // those before.
    fn count(&mut self, held: bool)
        requires room { self.old.packets + 1 < 2 ^ 32 }
        ensures { self.new ≡ counted self.old held }
    {
        if !held {
            self.contradiction = Some(self.packets);
        }
        self.packets += 1;
    }

    // Takes in the next packet, which spells this PDU of a side.
    fn add_pdu(&mut self, side: Side, pdu: &Pdu<'_>) -> Result<(), AllocError>
        requires room { self.old.packets + 1 < 2 ^ 32 }
        requires spelled { (k : Packet) × SpellsOnly self.old.params side (value_of pdu.now) k }
        ensures ok { OnOk result ((k : Packet)
            → SpellsOnly self.old.params side (value_of pdu.now) k
            → TakesIn self.old k self.new) }
        ensures err { OnErr result (self.new ≡ self.old) }
    {
        let held = self.contradiction.is_some() || self.see_pdu(side, pdu)?;
        self.count(held);
        Ok(())
    }

    /// The packets of a store, taken in as by `add` one by one.
    #[tactic(auto, using(crate::proofs::Middle::SeenSteps::stored_all))]
    pub fn of_store(alloc: Global, store: &Store) -> Result<Shown, AllocError>
        ensures { IfOk result (IsSeen store.now.params store.now.packets) }
    {
        let mut shown = Shown::new(alloc, store.params());
        for place in 0..store.len() {
            if let Some((side, pdu)) = store.pdu_at(place) {
                shown.add_pdu(side, &pdu)?;
            }
        }
        Ok(shown)
    }

    /// The place of the first packet that can't be held together with those before: two PDUs of a
    /// side have one SN and different types or counts of messages, those of a side spread over half
    /// the range of SNs or lie unequally far ahead of the redundancy numbers, one lies 4,096 or more
    /// SNs behind one that was captured before it, or one opens a connection later, by its TS, than
    /// the one that was captured first.
    pub fn contradiction(&self) -> Option<u32>
        ensures { (p : Parameters) (packets : List Packet) → IsSeen p packets self.now
            → MatchOption result ((side : Side) → HoldTogether p packets side)
            (IsContradiction p packets) }
    {
        self.contradiction
    }

    /// What the packets that were taken in show, up to the first that can't be held together with those before. The
    /// only error is out of memory.
    pub fn lists(&self, alloc: Global) -> Result<ShownLists, AllocError>
        ensures { IfOk result (λ lists. (p : Parameters) (packets : List Packet)
            → IsSeen p packets self.now → AreListsOf p packets lists) }
    {
        Ok(ShownLists {
            packets: self.contradiction.unwrap_or(self.packets),
            client: self.client.data(alloc, &self.server)?,
            server: self.server.data(alloc, &self.client)?,
            client_resent: self.client.resent(alloc, &self.server)?,
            server_resent: self.server.resent(alloc, &self.client)?,
        })
    }

    /// Takes in the next packet. One that spells no PDU of its side counts as a packet, and shows
    /// nothing. From the first on that can't be held together with those before, packets are only
    /// counted.
    ///
    /// Refused by [`Fault::NO_MEMORY`], and by [`Fault::TOO_MANY`], at the number of packets, where
    /// 4,294,967,295 were taken in; all stays as it was then.
    pub fn add(&mut self, packet: &Datagram<'_>) -> Result<(), Fault>
        ensures ok { OnOk result ((p : Parameters) (packets : List Packet)
            → IsSeen p packets self.old
            → IsSeen p (packets ++ packet_of packet.now ∷ []) self.new) }
        ensures err { OnErr result (self.new ≡ self.old) }
        ensures fault { IfErr result (λ f. (f ≡ no_memory)
            ⊎ ((f ≡ fault_at too_many self.old.packets) × (self.old.packets ≡ 2 ^ 32 - 1))) }
    {
        if self.packets == u32::MAX {
            return Err(Fault::at(Fault::TOO_MANY, self.packets));
        }
        let held = self.contradiction.is_some() || self.see(packet)?;
        self.count(held);
        Ok(())
    }
}
