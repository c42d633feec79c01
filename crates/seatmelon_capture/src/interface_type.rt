//! Link types of the interfaces of a pcapng file, in words and as JSON.
ghost use Rattle.rasta_pcap.specs.Devices.{AsWritten};

use crate::link_type::link_type_name;
use rasta_pcap::{Fault, Sink};
use seatmelon_pcapng::Format;
use seatmelon_text::tell;

/// What becomes of packets with cooked headers.
pub const AS_ETHERNET: &str = "read as Ethernet frames, with zeros for addresses that they lack";

// Writes the name of a link type in brackets, if it has one.
fn write_name<W: Sink>(writer: &mut W, link_type: u16) -> Result<(), Fault>
    ensures written { AsWritten W.failure_count result writer.old writer.new }
{
    match link_type_name(link_type) {
        Some(name) => tell!(writer, " (", name, ")"),
        None => Ok(()),
    }
}

// Writes which link type an interface of a file has, and what becomes of its packets, as a line, if one is told.
fn write_interface<W: Sink>(writer: &mut W, link_type: Option<u16>, fate: &str) -> Result<(), Fault>
    ensures written { AsWritten W.failure_count result writer.old writer.new }
{
    let Some(link_type) = link_type else {
        return Ok(());
    };
    tell!(
        writer,
        "an interface of this file has link type ",
        link_type
    )?;
    write_name(writer, link_type)?;
    tell!(writer, ": its packets are ", fate, "\n")
}

/// Writes which link types interfaces of a file in this format have, a line for each that the format tells beside that of
/// Ethernet, and what becomes of their packets.
///
/// Refused by [`Fault::WRITE_FAILED`] alone.
pub fn write_link_types<W: Sink>(writer: &mut W, format: Format) -> Result<(), Fault>
    ensures written { AsWritten W.failure_count result writer.old writer.new }
{
    write_interface(writer, format.other_link_type(), "of no connection")?;
    write_interface(writer, format.cooked_link_type(), AS_ETHERNET)
}

/// Writes them as members of a JSON object that has others before: `other_link_type` and `cooked_link_type`, each where the
/// format tells it.
///
/// Refused by [`Fault::WRITE_FAILED`] alone.
pub fn write_link_types_json<W: Sink>(writer: &mut W, format: Format) -> Result<(), Fault>
    ensures written { AsWritten W.failure_count result writer.old writer.new }
{
    if let Some(link_type) = format.other_link_type() {
        tell!(writer, ",\"other_link_type\":", link_type)?;
    }
    match format.cooked_link_type() {
        Some(link_type) => tell!(writer, ",\"cooked_link_type\":", link_type),
        None => Ok(()),
    }
}
