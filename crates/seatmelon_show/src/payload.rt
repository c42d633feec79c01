//! What a payload holds, in a few words.
ghost use Rattle.rasta_pcap.specs.Devices.{AsWritten};

use rasta_pcap::{Fault, Sink};
use rasta_pdu::fields::{ending_in, opening_in};
use rasta_pdu::{Kind, Messages};
use seatmelon_text::{tell, write_words};

// How many messages there are, and how many bytes these have together.
#[derive(Clone, Copy)]
struct MessageCounts {
    messages: u64,
    bytes: u64,
}

// Counts the messages of a payload.
fn count_messages(payload: &[u8]) -> MessageCounts {
    let mut counts = MessageCounts {
        messages: 0,
        bytes: 0,
    };
    for message in Messages::of(payload) {
        counts.messages = counts.messages.saturating_add(1);
        counts.bytes = counts.bytes.saturating_add(message.len() as u64);
    }
    counts
}

// Writes how many of these there are.
fn write_count<W: Sink>(
    writer: &mut W,
    n: u64,
    one: &'static str,
    many: &'static str,
) -> Result<(), Fault>
    ensures written { AsWritten W.failure_count result writer.old writer.new }
{
    let name = if n == 1 { one } else { many };
    tell!(writer, n, name)
}

fn write_messages<W: Sink>(writer: &mut W, payload: &[u8]) -> Result<(), Fault>
    ensures written { AsWritten W.failure_count result writer.old writer.new }
{
    let counts = count_messages(payload);
    write_count(writer, counts.messages, " message, ", " messages, ")?;
    write_count(writer, counts.bytes, " byte", " bytes")
}

// Writes the version and N_sendmax of an opening.
fn write_opening<W: Sink>(writer: &mut W, payload: &[u8]) -> Result<(), Fault>
    ensures written { AsWritten W.failure_count result writer.old writer.new }
{
    let Some(opening) = opening_in(payload) else {
        return write_words(writer, "-");
    };
    let (version, sendmax) = opening;
    tell!(writer, "version ", version, ", N_sendmax ", sendmax)
}

// Writes detail and reason of a disconnection request.
fn write_ending<W: Sink>(writer: &mut W, payload: &[u8]) -> Result<(), Fault>
    ensures written { AsWritten W.failure_count result writer.old writer.new }
{
    match ending_in(payload) {
        Some((detail, reason)) => { tell!(writer, "detail ", detail, ", reason ", reason) }
        None => write_words(writer, "-"),
    }
}

/// Writes what a payload of this type holds; a dash where there is nothing in it.
pub fn write_payload<W: Sink>(writer: &mut W, kind: Kind, payload: &[u8]) -> Result<(), Fault>
    ensures written { AsWritten W.failure_count result writer.old writer.new }
{
    match kind {
        Kind::ConnectionRequest | Kind::ConnectionResponse => write_opening(writer, payload),
        Kind::DisconnectionRequest => write_ending(writer, payload),
        Kind::Data | Kind::RetransmittedData => write_messages(writer, payload),
        Kind::RetransmissionRequest | Kind::RetransmissionResponse | Kind::Heartbeat => {
            write_words(writer, "-")
        }
    }
}
