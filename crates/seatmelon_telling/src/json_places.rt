//! Values of JSON that may be missing, and places of packets.
ghost use Rattle.std.specs.Prelude.{◌≡◌, IfErr};
ghost use Rattle.rasta_pcap.specs.Fault.{write_failed};

use rasta_pcap::{CaptureTime, Fault, Sink};
use seatmelon_reading::Sighting;
use seatmelon_text::json::write_long;
use seatmelon_text::{Part, Room, parts, put_parts, tell, write_words};

/// Writes a number, or null.
pub fn write_number_if<W: Sink>(writer: &mut W, number: Option<u32>) -> Result<(), Fault>
    ensures err { IfErr result (λ f. f ≡ write_failed) }
{
    match number {
        Some(number) => tell!(writer, number),
        None => write_words(writer, "null"),
    }
}

/// Writes a number of 64 bits, or null.
pub fn write_long_if<W: Sink>(writer: &mut W, number: Option<u64>) -> Result<(), Fault>
    ensures err { IfErr result (λ f. f ≡ write_failed) }
{
    match number {
        Some(number) => write_long(writer, number),
        None => write_words(writer, "null"),
    }
}

/// Writes bytes as a string of hexadecimal digits, or null.
pub fn write_hex_if<W: Sink>(writer: &mut W, bytes: Option<&[u8]>) -> Result<(), Fault>
    ensures err { IfErr result (λ f. f ≡ write_failed) }
{
    match bytes {
        Some(bytes) => tell!(writer, "\"", Part::Hex(bytes), "\""),
        None => write_words(writer, "null"),
    }
}

/// Writes a time, or null.
pub fn write_time_if<W: Sink>(writer: &mut W, time: Option<CaptureTime>) -> Result<(), Fault>
    ensures err { IfErr result (λ f. f ≡ write_failed) }
{
    match time {
        Some(time) => tell!(writer, "\"", time, " UTC\""),
        None => write_words(writer, "null"),
    }
}

// Puts record, time and channel of a packet.
fn put_sighting<W: Sink>(writer: &mut W, room: &mut Room, sighting: &Sighting) -> Result<(), Fault>
    ensures err { IfErr result (λ f. f ≡ write_failed) }
{
    match sighting.time {
        Some(time) => put_parts(
            writer,
            room,
            &parts![
                "{\"record\":",
                sighting.record,
                ",\"time\":\"",
                time,
                " UTC\",\"channel\":",
                sighting.channel,
                "}"
            ],
        ),
        None => put_parts(
            writer,
            room,
            &parts![
                "{\"record\":",
                sighting.record,
                ",\"time\":null,\"channel\":",
                sighting.channel,
                "}"
            ],
        ),
    }
}

/// Puts record, time and channel of the packet at a place, or null.
pub fn put_place<W: Sink>(
    writer: &mut W,
    room: &mut Room,
    packets: &[Sighting],
    place: u32,
) -> Result<(), Fault>
    ensures err { IfErr result (λ f. f ≡ write_failed) }
{
    match packets.get(place as usize) {
        Some(sighting) => put_sighting(writer, room, sighting),
        None => room.put(writer, b"null"),
    }
}

/// Writes record, time and channel of a packet, or null.
pub fn write_sighting_if<W: Sink>(writer: &mut W, sighting: Option<&Sighting>) -> Result<(), Fault>
    ensures err { IfErr result (λ f. f ≡ write_failed) }
{
    let Some(sighting) = sighting else {
        return write_words(writer, "null");
    };
    let mut room = Room::new();
    put_sighting(writer, &mut room, sighting)?;
    room.write(writer)
}

/// Writes record, time and channel of the packet at a place, or null.
pub fn write_place<W: Sink>(writer: &mut W, packets: &[Sighting], place: u32) -> Result<(), Fault>
    ensures err { IfErr result (λ f. f ≡ write_failed) }
{
    write_sighting_if(writer, packets.get(place as usize))
}
