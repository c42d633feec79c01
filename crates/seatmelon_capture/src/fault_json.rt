//! The fault of a capture, as JSON.
ghost use Rattle.rasta_pcap.specs.Devices.{AsWritten};

use crate::fault_words::FileRefusal;
use rasta_pcap::{Fault, Sink};
use seatmelon_pcapng::Format;
use seatmelon_text::json::{write_long, write_string};
use seatmelon_text::{tell, write_words};

// Writes the number of the record that a fault names, or null; a fault of the file's header names none.
fn write_record<W: Sink>(writer: &mut W, place: u32) -> Result<(), Fault>
    ensures written { AsWritten W.failure_count result writer.old writer.new }
{
    if place == 0 {
        return write_words(writer, ",\"record\":null");
    }
    tell!(writer, ",\"record\":", place)
}

// Writes at which block a file is refused, and why, if it is.
fn write_block_if<W: Sink>(writer: &mut W, refused: Option<FileRefusal>) -> Result<(), Fault>
    ensures written { AsWritten W.failure_count result writer.old writer.new }
{
    let Some(refused) = refused else {
        return Ok(());
    };
    let refusal = refused.refusal;
    write_words(writer, ",\"block\":{\"offset\":")?;
    write_long(writer, refusal.at)?;
    write_words(writer, ",\"reason\":")?;
    write_string(writer, refusal.reason.words())?;
    write_words(writer, "}")
}

/// Writes the fault of a file in this format as a JSON object, or null if there is none.
pub fn write_fault_json<W: Sink>(
    writer: &mut W,
    fault: Option<Fault>,
    format: Format,
) -> Result<(), Fault>
    ensures written { AsWritten W.failure_count result writer.old writer.new }
{
    let Some(fault) = fault else {
        return write_words(writer, "null");
    };
    tell!(
        writer,
        "{\"number\":",
        fault.number,
        ",\"name\":\"",
        fault.name(),
        "\""
    )?;
    write_record(writer, fault.place)?;
    write_block_if(writer, FileRefusal::told_by(fault, format))?;
    write_words(writer, "}")
}
