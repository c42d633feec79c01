//! The messages of a PDU.
ghost use Rattle.rasta_pcap.specs.Devices.{Writes, AsWritten};
ghost use Rattle.rasta_pdu.specs.Pdu.{messages_left};
ghost use Rattle.rasta_show.specs.Lines.{further_text, messages_text};

use rasta_line::write_message;
use rasta_pcap::write_all;
use rasta_pdu::{Fault, Messages, Sink};

// Writes messages, each after a comma.
fn write_further<W: Sink>(messages: Messages<'_>, writer: &mut W) -> Result<(), Fault>
    ensures out { Writes result (W.contents writer.old) (W.contents writer.new) (further_text (messages_left messages.entry)) }
    ensures written { AsWritten W.failure_count result writer.old writer.new }
{
    for message in messages {
        write_all(writer, b",")?;
        write_message(message, writer)?;
    }
    Ok(())
}

/// Writes messages with one comma between them.
pub fn write_messages<W: Sink>(mut messages: Messages<'_>, writer: &mut W) -> Result<(), Fault>
    ensures out { Writes result (W.contents writer.old) (W.contents writer.new) (messages_text (messages_left messages.entry)) }
    ensures written { AsWritten W.failure_count result writer.old writer.new }
{
    match messages.next() {
        Some(first) => {
            write_message(first, writer)?;
            write_further(messages, writer)
        }
        None => Ok(()),
    }
}
