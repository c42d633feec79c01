//! Where a packet crossed.
ghost use Rattle.std.specs.Prelude.{◌≡◌};
ghost use Rattle.rasta_udp.specs.Frame.{packet_of};
ghost use Rattle.rasta_check.specs.Capture.Passages.{passage_of};

use rasta_pcap::Side;
use rasta_udp::Datagram;

/// The sender of a packet, and the number of the channel on which it crossed, from 1.
#[derive(Clone, Copy)]
pub struct Passage {
    pub side: Side,
    pub channel: u8,
}

impl Passage {
    /// Of this packet.
    #[inline]
    pub fn of(packet: &Datagram<'_>) -> Passage
        ensures { result ≡ passage_of (packet_of packet.now) }
    {
        Passage {
            side: packet.side,
            channel: packet.channel,
        }
    }
}
