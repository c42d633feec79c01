//! The packets of the connection with their datagrams, which are kept on demand, or behind what crossed.
ghost use Rattle.std.specs.Prelude.{◌≡◌, ◌∷◌, ◌++◌, [], true, OnOk};
ghost use Rattle.rasta_udp.specs.Frame.{packet_of};
ghost use Rattle.seatmelon_reading.specs.Tapes.{numbered_with, taped_in};

use rasta_pcap::Side;
use rasta_udp::Datagram;
use std::alloc::{AllocError, Global};

/// A packet of the connection.
#[derive(Drop)]
pub struct Taped {
    /// The number of its record, from 1.
    pub record: u32,

    /// The number of its channel, from 1.
    pub channel: u8,

    pub sender: Side,
    pub datagram: Vec<u8>,
}

/// Packets of the connection in the window, in order: all of them, by place, or those behind what crossed; none where
/// they aren't kept.
#[derive(Drop)]
pub struct Tape {
    pub is_kept: bool,
    pub packets: Vec<Taped>,
}

impl Tape {
    /// Of no packet.
    pub fn new(alloc: Global, is_kept: bool) -> Tape
        ensures kept { result.is_kept ≡ is_kept }
        ensures none { taped_in result ≡ [] }
    {
        Tape {
            is_kept,
            packets: Vec::new(alloc),
        }
    }

    /// Takes in the packet of the record of this number, if packets are kept.
    pub(crate) fn add(
        &mut self,
        alloc: Global,
        number: u32,
        found: &Datagram<'_>,
    ) -> Result<(), AllocError>
        ensures kept { self.new.is_kept ≡ self.old.is_kept }
        ensures added { OnOk result (self.new.is_kept ≡ true → taped_in self.new ≡ taped_in self.old ++ numbered_with number (packet_of found.now) ∷ []) }
    {
        if !self.is_kept {
            return Ok(());
        }
        let mut datagram = Vec::new(alloc);
        datagram.extend_from_slice(found.payload)?;
        let taped = Taped {
            record: number,
            channel: found.channel,
            sender: found.side,
            datagram,
        };
        match self.packets.push(taped) {
            Ok(()) => Ok(()),
            Err(error) => Err(AllocError::from(error)),
        }
    }
}
