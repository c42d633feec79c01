//! The records of a capture, one by one.
ghost use Rattle.std.specs.Prelude.{◌≡◌, ◌≤◌, ◌⊎◌, ◌++◌, length, Some, IfErr, IfOk, IfSome, OnOk};
ghost use Rattle.std.specs.Io.KnownBytes.{Appends};
ghost use Rattle.rasta_pcap.specs.Capture.{max_captured};
ghost use Rattle.rasta_pcap.specs.Fault.{read_failed, write_failed};
ghost use Rattle.seatmelon_cooked.specs.Ethernet.{captured_by};
ghost use Rattle.seatmelon_cooked.specs.Frames.{ethernet_front, ethernet_record, frame_length, frame_of};
ghost use Rattle.seatmelon_cooked.specs.Steps.{Goes};

use crate::filling::{fill, write_rest};
use crate::form::{Form, Kind};
use crate::frame::write_frame;
use rasta_pcap::{Fault, Sink, Source, write_all};

// How many bytes the header of a record has.
const RECORD_HEADER: usize = 16;

/// The most bytes that are captured of a packet.
pub const MAX_CAPTURED: usize = 262_144;

/// What became of a packet.
#[derive(Clone, Copy, PartialEq, Eq)]
pub enum Sent {
    /// It is a frame with its sender's address.
    Named,

    /// It is a frame without any address.
    Nameless,

    /// It was captured cut inside its header: its record has no bytes.
    LeftOut,
}

// How many bytes its frame of Ethernet has.
fn frame_length(kind: Kind, packet: &[u8]) -> u32
    requires { length packet.now ≤ max_captured }
    ensures { result ≡ frame_length kind packet.now }
{
    if packet.len() < kind.header_len() {
        return 0;
    }
    packet.len() as u32 - kind.excess()
}

// Writes the header of a record.
fn write_header<W: Sink>(form: Form, header: &[u8], size: u32, writer: &mut W) -> Result<(), Fault>
    requires { length header.now ≡ 16 }
    ensures written { OnOk result (Appends (W.contents writer.old) (W.contents writer.new) (ethernet_front form header.now size)) }
    ensures err { IfErr result (λ f. f ≡ write_failed) }
{
    let original = form
        .order
        .u32_at(header, 12)
        .saturating_sub(form.kind.excess());
    write_all(writer, &header[..8])?;
    write_all(writer, &form.order.spell(size))?;
    write_all(writer, &form.order.spell(original))
}

// Writes the frame of a packet, if its header is whole.
fn write_packet<W: Sink>(kind: Kind, packet: &[u8], writer: &mut W) -> Result<Sent, Fault>
    ensures written { OnOk result (Appends (W.contents writer.old) (W.contents writer.new) (frame_of kind packet.now)) }
    ensures err { IfErr result (λ f. f ≡ write_failed) }
{
    if packet.len() < kind.header_len() {
        return Ok(Sent::LeftOut);
    }
    write_frame(kind, packet, writer)?;
    if kind.has_sender(packet) {
        Ok(Sent::Named)
    } else {
        Ok(Sent::Nameless)
    }
}

// Writes the record of Ethernet of a packet.
fn write_record<W: Sink>(
    form: Form,
    header: &[u8],
    packet: &[u8],
    writer: &mut W,
) -> Result<Sent, Fault>
    requires size { length header.now ≡ 16 }
    requires most { length packet.now ≤ max_captured }
    ensures written { OnOk result (Appends (W.contents writer.old) (W.contents writer.new) (ethernet_record form header.now packet.now)) }
    ensures err { IfErr result (λ f. f ≡ write_failed) }
{
    write_header(form, header, frame_length(form.kind, packet), writer)?;
    write_packet(form.kind, packet, writer)
}

// How many bytes of a packet were captured, by the header of its record, where that is whole and they aren't too many.
fn captured_in(form: Form, header: &[u8]) -> Option<usize>
    ensures told { result ≡ captured_by form header.now }
    ensures size { IfSome result (λ _. 16 ≤ length header.now) }
    ensures most { IfSome result (λ n. n ≤ max_captured) }
{
    if header.len() < RECORD_HEADER {
        return None;
    }
    let captured = form.order.u32_at(header, 8) as usize;
    if captured > MAX_CAPTURED {
        return None;
    }
    Some(captured)
}

// Writes what there is of a record that was cut.
fn write_cut<W: Sink>(header: &[u8], packet: &[u8], writer: &mut W) -> Result<(), Fault>
    ensures written { OnOk result (Appends (W.contents writer.old) (W.contents writer.new) (header.now ++ packet.now)) }
    ensures err { IfErr result (λ f. f ≡ write_failed) }
{
    write_all(writer, header)?;
    write_all(writer, packet)
}

// Reads the packet of the record with this header, of which so many bytes were captured, and writes the record.
fn write_captured<S: Source, W: Sink>(
    form: Form,
    header: &[u8],
    captured: usize,
    source: &mut S,
    buffer: &mut [u8],
    writer: &mut W,
) -> Result<Option<Sent>, Fault>
    requires size { length header.now ≡ 16 }
    requires told { captured_by form header.now ≡ Some captured }
    requires most { captured ≤ max_captured }
    requires room { length buffer.old ≡ max_captured }
    ensures kept { length buffer.new ≡ max_captured }
    ensures next { IfSome (S.remaining source.old) (λ rest. IfOk result
        (Goes form (header.now ++ rest) (S.remaining source.new) (W.contents writer.old) (W.contents writer.new))) }
    ensures err { IfErr result (λ f. (f ≡ read_failed) ⊎ (f ≡ write_failed)) }
{
    let read = fill(source, buffer, captured)?;
    let packet = &buffer[..read];
    if read < captured {
        write_cut(header, packet, writer)?;
        return Ok(None);
    }
    Ok(Some(write_record(form, header, packet, writer)?))
}

/// Reads the next record, and writes it as one of Ethernet. Where no whole record is left, none is answered, and what is
/// left is written as it is.
pub fn write_next<S: Source, W: Sink>(
    form: Form,
    source: &mut S,
    buffer: &mut [u8],
    writer: &mut W,
) -> Result<Option<Sent>, Fault>
    requires { length buffer.old ≡ max_captured }
    ensures kept { length buffer.new ≡ max_captured }
    ensures next { IfSome (S.remaining source.old) (λ bytes. IfOk result
        (Goes form bytes (S.remaining source.new) (W.contents writer.old) (W.contents writer.new))) }
    ensures err { IfErr result (λ f. (f ≡ read_failed) ⊎ (f ≡ write_failed)) }
{
    let mut header = [0; RECORD_HEADER];
    let filled = fill(source, &mut header, RECORD_HEADER)?;
    let front = &header[..filled];
    match captured_in(form, front) {
        Some(captured) => write_captured(form, front, captured, source, buffer, writer),
        None => {
            write_rest(front, source, buffer, writer)?;
            Ok(None)
        }
    }
}
