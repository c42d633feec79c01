//! What crossed together with supposed PDUs.
ghost use Rattle.std.specs.Prelude.{◌≡◌, ◌∷◌, [], None, Some, length, map, slice_get, IfOk, OnOk, IfErr};
ghost use Rattle.rasta_pcap.specs.Fault.{no_memory};
ghost use Rattle.rasta_udp.specs.Frame.{packet_of};
ghost use Rattle.rasta_check.specs.Capture.Building.{crossed_in};
ghost use Rattle.rasta_check.specs.Capture.Crossing.{nothing_crossed};
ghost use Rattle.seatmelon_reading.specs.Tapes.{numbered_with, taped_as};
ghost use Rattle.seatmelon_suppose.specs.Mending.{IsMended, Takes, mended_at, no_place, origins_at, supposed_at};
ghost use Rattle.seatmelon_suppose.specs.Spelling.{packet_supposed};

use crate::supposed::{Supposed, datagram_of};
use rasta_check::{Store, StoreBuilder};
use rasta_pcap::Fault;
use rasta_pdu::Params;
use rasta_udp::Datagram;
use seatmelon_reading::Taped;
use std::alloc::{AllocError, Global};

/// Where packets stop to cross: the place of the captured packet there, and its fault.
#[derive(Clone, Copy)]
pub struct Stop {
    pub place: usize,
    pub fault: Fault,
}

/// What crossed, up to the first fault.
#[derive(Drop)]
pub struct Mended {
    pub store: Store,

    /// Where each packet that crossed was captured; none of a supposed PDU.
    pub origins: Vec<Option<usize>>,

    pub stop: Option<Stop>,
}

// A capture on its way to be mended.
#[derive(Drop)]
struct Mending {
    builder: StoreBuilder,
    origins: Vec<Option<usize>>,
}

impl Mending {
    // Before the first packet.
    fn new(alloc: Global, params: &Params) -> Mending
        ensures crossed { crossed_in result.builder ≡ nothing_crossed params.now }
        ensures origins { result.origins.items ≡ [] }
    {
        Mending {
            builder: StoreBuilder::new(alloc, *params),
            origins: Vec::new(alloc),
        }
    }

    // Takes in a packet, which is told of the record of this number, and comes from there.
    fn add(
        &mut self,
        number: u32,
        packet: &Datagram<'_>,
        origin: Option<usize>,
    ) -> Result<(), Fault>
        ensures { OnOk result (Takes self.old self.new (numbered_with number (packet_of packet.now) ∷ []) (origin ∷ [])) }
    {
        let params = self.builder.store().params();
        let channel = usize::from(packet.channel);
        if channel == 0 || channel > params.channel().len() {
            return Err(Fault::at(Fault::PAYLOAD, number));
        }
        self.builder.add_packet(number, packet)?;
        match self.origins.push(origin) {
            Ok(()) => Ok(()),
            Err(error) => Err(AllocError::from(error).into()),
        }
    }

    // Takes in a supposed PDU, which is told of the record of this number.
    fn add_supposed(
        &mut self,
        alloc: Global,
        params: &Params,
        packets: &[Taped],
        number: u32,
        supposed: Supposed,
    ) -> Result<(), Fault>
        ensures { OnOk result (Takes self.old self.new (packet_supposed params.now (map taped_as packets.now) number supposed ∷ []) (None ∷ [])) }
    {
        let datagram = datagram_of(alloc, params, packets, supposed)?;
        let packet = Datagram {
            channel: 1,
            side: supposed.sender,
            payload: &datagram,
        };
        self.add(number, &packet, None)
    }

    // Takes in a supposed PDU if it is supposed just before a place, of which the packet stands in the record of this number.
    fn add_if_before(
        &mut self,
        alloc: Global,
        params: &Params,
        packets: &[Taped],
        number: u32,
        supposed: Supposed,
        place: usize,
    ) -> Result<(), Fault>
        ensures { OnOk result (Takes self.old self.new
            (map (packet_supposed params.now (map taped_as packets.now) number) (supposed_at (supposed ∷ []) place)) (map no_place (supposed_at (supposed ∷ []) place))) }
    {
        if supposed.before == place {
            self.add_supposed(alloc, params, packets, number, supposed)
        } else {
            Ok(())
        }
    }

    // Takes in what is supposed just before a place, of which the packet stands in the record of this number.
    fn add_all_supposed(
        &mut self,
        alloc: Global,
        params: &Params,
        packets: &[Taped],
        number: u32,
        supposed: &[Supposed],
        place: usize,
    ) -> Result<(), Fault>
        ensures { OnOk result (Takes self.old self.new
            (map (packet_supposed params.now (map taped_as packets.now) number) (supposed_at supposed.now place)) (map no_place (supposed_at supposed.now place))) }
    {
        for one in supposed {
            self.add_if_before(alloc, params, packets, number, *one, place)?;
        }
        Ok(())
    }

    // Takes in the packet at a place, and before it what is supposed there.
    fn add_at(
        &mut self,
        alloc: Global,
        params: &Params,
        packets: &[Taped],
        supposed: &[Supposed],
        place: usize,
        taped: &Taped,
    ) -> Result<(), Fault>
        ensures { OnOk result (Takes self.old self.new
            (mended_at params.now (map taped_as packets.now) supposed.now place (taped_as taped.now)) (origins_at supposed.now place)) }
    {
        let number = taped.record;
        self.add_all_supposed(alloc, params, packets, number, supposed, place)?;
        let packet = Datagram {
            channel: taped.channel,
            side: taped.sender,
            payload: &taped.datagram,
        };
        self.add(number, &packet, Some(place))
    }

    // What has crossed.
    fn finish(self, stop: Option<Stop>) -> Mended
        ensures store { result.store ≡ crossed_in self.builder }
        ensures origins { result.origins ≡ self.origins }
        ensures stop { result.stop ≡ stop }
    {
        let Mending { builder, origins } = self;
        Mended {
            store: builder.finish(),
            origins,
            stop,
        }
    }
}

/// What crossed by the first ones of all captured packets, together with supposed PDUs, up to the first fault. Refused by
/// [`Fault::NO_MEMORY`] alone.
pub fn mend(
    alloc: Global,
    params: &Params,
    packets: &[Taped],
    first: &[Taped],
    supposed: &[Supposed],
) -> Result<Mended, Fault>
    ensures { IfOk result (λ m. m.stop ≡ None
        → IsMended params.now (map taped_as packets.now) supposed.now (map taped_as first.now) m.store m.origins.items) }
{
    let mut mending = Mending::new(alloc, params);
    for (place, taped) in first.iter().enumerate() {
        match mending.add_at(alloc, params, packets, supposed, place, taped) {
            Ok(()) => {}
            Err(fault) if fault.number == Fault::NO_MEMORY => return Err(fault),
            Err(fault) => return Ok(mending.finish(Some(Stop { place, fault }))),
        }
    }
    Ok(mending.finish(None))
}
