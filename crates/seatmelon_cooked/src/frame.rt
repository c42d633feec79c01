//! Frames of Ethernet, of packets with cooked headers.
ghost use Rattle.std.specs.Prelude.{◌≡◌, ◌≤◌, length, IfErr, OnOk};
ghost use Rattle.std.specs.Io.KnownBytes.{Appends};
ghost use Rattle.rasta_pcap.specs.Fault.{write_failed};
ghost use Rattle.seatmelon_cooked.specs.Frames.{address_in, address_length_in, ethernet_frame, frame_header, header_length, protocol_in, sender_in};

use crate::form::Kind;
use byteorder::{BigEndian, ByteOrder};
use rasta_pcap::{Fault, Sink, write_all};

// How long an address of Ethernet is.
const ADDRESS_LENGTH: u16 = 6;

impl Kind {
    // How long the sender's link-layer address is.
    fn address_length_in(self, packet: &[u8]) -> u16
        requires { header_length self ≤ length packet.now }
        ensures { result ≡ address_length_in self packet.now }
    {
        match self {
            Kind::Sll => BigEndian::read_u16(&packet[4..]),
            Kind::Sll2 => u16::from(packet[11]),
        }
    }

    /// Whether the sender's address is one of Ethernet.
    pub fn has_sender(self, packet: &[u8]) -> bool
        requires { header_length self ≤ length packet.now }
    {
        self.address_length_in(packet) == ADDRESS_LENGTH
    }

    // The first six bytes of the field of the sender's address.
    fn address_in(self, packet: &[u8]) -> &[u8]
        requires { header_length self ≤ length packet.now }
        ensures { result.now ≡ address_in self packet.now }
    {
        match self {
            Kind::Sll => &packet[6..12],
            Kind::Sll2 => &packet[12..18],
        }
    }

    // The sender's address, or zeros where it isn't one of Ethernet.
    fn sender_in(self, packet: &[u8]) -> [u8; 6]
        requires { header_length self ≤ length packet.now }
        ensures { result ≡ sender_in self packet.now }
    {
        let mut sender = [0; 6];
        if self.address_length_in(packet) == ADDRESS_LENGTH {
            sender.copy_from_slice(self.address_in(packet));
        }
        sender
    }

    fn protocol_in(self, packet: &[u8]) -> &[u8]
        requires { header_length self ≤ length packet.now }
        ensures { result.now ≡ protocol_in self packet.now }
    {
        match self {
            Kind::Sll => &packet[14..16],
            Kind::Sll2 => &packet[0..2],
        }
    }

    /// The header of the frame of Ethernet of a packet whose header is whole. The receiver's address isn't known.
    pub fn ethernet_header(self, packet: &[u8]) -> [u8; 14]
        requires { header_length self ≤ length packet.now }
        ensures { result ≡ frame_header self packet.now }
    {
        let mut header = [0; 14];
        header[6..12].copy_from_slice(&self.sender_in(packet));
        header[12..].copy_from_slice(self.protocol_in(packet));
        header
    }
}

/// Writes the frame of Ethernet of a packet whose header is whole.
pub fn write_frame<W: Sink>(kind: Kind, packet: &[u8], writer: &mut W) -> Result<(), Fault>
    requires { header_length kind ≤ length packet.now }
    ensures written { OnOk result (Appends (W.contents writer.old) (W.contents writer.new) (ethernet_frame kind packet.now)) }
    ensures err { IfErr result (λ f. f ≡ write_failed) }
{
    write_all(writer, &kind.ethernet_header(packet))?;
    write_all(writer, &packet[kind.header_len()..])
}
