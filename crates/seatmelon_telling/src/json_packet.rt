//! Packets and what is wrong with them, as JSON.
ghost use Rattle.std.specs.Prelude.{◌≡◌, IfErr};
ghost use Rattle.rasta_pcap.specs.Fault.{write_failed};

use crate::code_lengths::write_code_lengths;
use crate::gap::{Reason, reason_of};
use crate::json_places::{write_hex_if, write_number_if, write_place, write_sighting_if};
use crate::layout::layout_of;
use crate::packet_text::{payload_and_codes, shown_length, type_name};
use rasta_pcap::{Fault, Sink};
use rasta_pdu::{Fields, Pdu};
use seatmelon_account::{
    Codes, Crossed, CutMessage, Differences, FirstCopy, Gap, Layout, Numbers, RefusedPacket,
    Trouble,
};
use seatmelon_packets::Fits;
use seatmelon_reading::Sighting;
use seatmelon_text::json::{write_bytes, write_long};
use seatmelon_text::{Part, tell, write_words};

// Writes a number under a key, or null.
fn write_field<W: Sink>(writer: &mut W, key: &'static str, number: Option<u32>) -> Result<(), Fault>
    ensures err { IfErr result (λ f. f ≡ write_failed) }
{
    tell!(writer, ",\"", key, "\":")?;
    write_number_if(writer, number)
}

// Writes the name of a type, or null.
fn write_type_name<W: Sink>(writer: &mut W, number: Option<u16>) -> Result<(), Fault>
    ensures err { IfErr result (λ f. f ≡ write_failed) }
{
    match number {
        Some(number) => tell!(writer, ",\"type_name\":\"", type_name(number), "\""),
        None => write_words(writer, ",\"type_name\":null"),
    }
}

// Writes the fields of a datagram.
fn write_fields<W: Sink>(writer: &mut W, fields: &Fields) -> Result<(), Fault>
    ensures err { IfErr result (λ f. f ≡ write_failed) }
{
    write_words(writer, "{\"type\":")?;
    write_number_if(writer, fields.type_number.map(u32::from))?;
    write_type_name(writer, fields.type_number)?;
    let numbers = [
        ("length_field", fields.length.map(u32::from)),
        ("redundancy_number", fields.number),
        ("safety_length_field", fields.safety_length.map(u32::from)),
        ("receiver", fields.receiver),
        ("sender", fields.sender),
        ("sn", fields.sn),
        ("cs", fields.cs),
        ("ts", fields.ts),
        ("cts", fields.cts),
    ];
    for (key, number) in numbers {
        write_field(writer, key, number)?;
    }
    write_words(writer, "}")
}

/// Writes the packet of a refused record, or null.
pub fn write_packet_if<W: Sink>(
    writer: &mut W,
    packet: Option<&RefusedPacket<'_>>,
) -> Result<(), Fault>
    ensures err { IfErr result (λ f. f ≡ write_failed) }
{
    let Some(packet) = packet else {
        return write_words(writer, "null");
    };
    tell!(
        writer,
        "{\"end\":\"",
        packet.sender,
        "\",\"channel\":",
        packet.channel,
        ",\"bytes\":",
        shown_length(packet.datagram),
        ",\"fields\":"
    )?;
    write_fields(writer, &Fields::of(packet.datagram))?;
    let rest = payload_and_codes(packet.datagram);
    tell!(writer, ",\"payload_and_codes\":\"", Part::Hex(rest), "\"}")
}

// Writes a number of 64 bits that is due, as the one member of an object.
fn write_due<W: Sink>(writer: &mut W, key: &'static str, due: u64) -> Result<(), Fault>
    ensures err { IfErr result (λ f. f ≡ write_failed) }
{
    tell!(writer, "{\"", key, "\":")?;
    write_long(writer, due)?;
    write_words(writer, "}")
}

// Writes in which bytes a packet differs from its first copy.
fn write_differences<W: Sink>(writer: &mut W, differences: &Differences) -> Result<(), Fault>
    ensures err { IfErr result (λ f. f ≡ write_failed) }
{
    let mut before = "{\"at\":";
    for difference in differences.as_slice() {
        write_words(writer, before)?;
        write_long(writer, difference.at as u64)?;
        tell!(
            writer,
            ",\"found\":\"",
            Part::Byte(difference.byte),
            "\",\"first_copy\":\"",
            Part::Byte(difference.first),
            "\"}"
        )?;
        before = ",{\"at\":";
    }
    Ok(())
}

// Writes the safety code that was found and the one that was due, or null.
fn write_codes<W: Sink>(writer: &mut W, codes: Option<&Codes<'_>>) -> Result<(), Fault>
    ensures err { IfErr result (λ f. f ≡ write_failed) }
{
    write_words(writer, "{\"code_found\":")?;
    write_hex_if(writer, codes.map(|codes| codes.found))?;
    write_words(writer, ",\"code_due\":")?;
    write_hex_if(writer, codes.map(Codes::due))
}

// Writes that no other packet has the number.
fn write_no_copy<W: Sink>(writer: &mut W) -> Result<(), Fault>
    ensures err { IfErr result (λ f. f ≡ write_failed) }
{
    write_words(
        writer,
        ",\"first_copy\":null,\"first_copy_bytes\":null,\"differences\":[],\"may_differ_further\":false}",
    )
}

// Writes where the first copy of a packet stands, and how the packet differs from it.
fn write_first_copy<W: Sink>(
    writer: &mut W,
    datagram: &[u8],
    first: Option<&FirstCopy<'_>>,
) -> Result<(), Fault>
    ensures err { IfErr result (λ f. f ≡ write_failed) }
{
    let Some(first) = first else {
        return write_no_copy(writer);
    };
    let is_longer = datagram.len() != first.bytes.len();
    write_words(writer, ",\"first_copy\":")?;
    write_sighting_if(writer, Some(&first.sighting))?;
    write_words(writer, ",\"first_copy_bytes\":")?;
    write_number_if(writer, is_longer.then_some(shown_length(first.bytes)))?;
    write_words(writer, ",\"differences\":[")?;
    write_differences(writer, &first.differences)?;
    let ends = if first.differences.is_full() {
        "],\"may_differ_further\":true}"
    } else {
        "],\"may_differ_further\":false}"
    };
    write_words(writer, ends)
}

// Writes the two numbers of a PDU.
fn write_numbers<W: Sink>(writer: &mut W, numbers: Numbers) -> Result<(), Fault>
    ensures err { IfErr result (λ f. f ≡ write_failed) }
{
    tell!(
        writer,
        ",\"redundancy_number\":",
        numbers.redundancy,
        ",\"sn\":",
        numbers.sn,
        "}"
    )
}

// How far the number found lies back from the one that was due, if it does.
fn back_of(gap: &Gap) -> Option<u32> {
    match reason_of(gap) {
        Reason::Late => Some(gap.skipped().wrapping_neg()),
        _ => None,
    }
}

// Writes a gap: which numbers were due and found, where it begins, and where the number that was due crosses later.
fn write_gap<W: Sink>(writer: &mut W, packets: &[Sighting], gap: &Gap) -> Result<(), Fault>
    ensures err { IfErr result (λ f. f ≡ write_failed) }
{
    let due = gap.due();
    tell!(
        writer,
        "{\"number_due\":",
        due.redundancy,
        ",\"number_found\":",
        gap.found
    )?;
    write_field(writer, "sn_due", Some(due.sn))?;
    write_field(writer, "sn_found", gap.sn_found)?;
    write_field(writer, "numbers_skipped", Some(gap.skipped()))?;
    write_field(writer, "numbers_back", back_of(gap))?;
    write_field(writer, "sns_skipped", gap.sn_skipped())?;
    write_words(writer, ",\"last_before\":{\"packet\":")?;
    write_place(writer, packets, gap.last.place)?;
    write_numbers(writer, gap.last.numbers)?;
    write_words(writer, ",\"crosses_later\":")?;
    write_sighting_if(writer, gap.later.as_ref())?;
    let ends = if gap.has_opening {
        ",\"has_opening\":true}"
    } else {
        ",\"has_opening\":false}"
    };
    write_words(writer, ends)
}

// Writes bytes, in hexadecimal digits and as text.
fn write_contents<W: Sink>(writer: &mut W, bytes: &[u8]) -> Result<(), Fault>
    ensures err { IfErr result (λ f. f ≡ write_failed) }
{
    tell!(writer, "{\"hex\":\"", Part::Hex(bytes), "\",\"text\":")?;
    write_bytes(writer, bytes)?;
    write_words(writer, "}")
}

// Writes the message for which a payload ends too soon, or null.
fn write_cut_message<W: Sink>(writer: &mut W, cut: Option<CutMessage>) -> Result<(), Fault>
    ensures err { IfErr result (λ f. f ≡ write_failed) }
{
    let Some(cut) = cut else {
        return write_words(writer, "null");
    };
    write_words(writer, "{\"at\":")?;
    write_long(writer, cut.at as u64)?;
    write_words(writer, ",\"length\":")?;
    write_number_if(writer, cut.len.map(u32::from))?;
    write_words(writer, ",\"left\":")?;
    write_long(writer, cut.left as u64)?;
    write_words(writer, "}")
}

// Writes which payload is due, and what was found.
fn write_payload<W: Sink>(writer: &mut W, layout: &Layout<'_>) -> Result<(), Fault>
    ensures err { IfErr result (λ f. f ≡ write_failed) }
{
    tell!(
        writer,
        "{\"payload_due\":\"",
        layout_of(layout.kind),
        "\",\"payload_bytes\":"
    )?;
    write_long(writer, layout.len as u64)?;
    write_words(writer, ",\"version\":")?;
    match layout.version {
        Some(version) => write_contents(writer, version)?,
        None => write_words(writer, "null")?,
    }
    write_words(writer, ",\"cut_message\":")?;
    write_cut_message(writer, layout.cut)?;
    write_words(writer, "}")
}

// Writes the ids that are due.
fn write_ids<W: Sink>(writer: &mut W, receiver: u32, sender: u32) -> Result<(), Fault>
    ensures err { IfErr result (λ f. f ≡ write_failed) }
{
    tell!(
        writer,
        "{\"receiver_due\":",
        receiver,
        ",\"sender_due\":",
        sender,
        "}"
    )
}

// Writes what is wrong with a packet, or null.
fn write_trouble<W: Sink>(
    writer: &mut W,
    packets: &[Sighting],
    packet: &RefusedPacket<'_>,
) -> Result<(), Fault>
    ensures err { IfErr result (λ f. f ≡ write_failed) }
{
    match &packet.trouble {
        Trouble::Code(codes, first) => {
            write_codes(writer, codes.as_ref())?;
            write_first_copy(writer, packet.datagram, first.as_ref())
        }
        Trouble::Copy(first) => {
            write_codes(writer, None)?;
            write_first_copy(writer, packet.datagram, first.as_ref())
        }
        Trouble::Gap(Some(gap)) => write_gap(writer, packets, gap),
        Trouble::Ids { receiver, sender } => write_ids(writer, *receiver, *sender),
        Trouble::Length(due) => write_due(writer, "length_field_due", *due),
        Trouble::TooShort(least) => write_due(writer, "least_bytes_due", *least),
        Trouble::SafetyLength(due) => write_due(writer, "safety_length_field_due", *due),
        Trouble::Type(found) => write_due(writer, "type_found", u64::from(*found)),
        Trouble::Payload(layout) => write_payload(writer, layout),
        Trouble::Gap(None) | Trouble::Other => write_words(writer, "null"),
    }
}

/// Writes what is wrong with the packet of a refused record, or null.
pub fn write_trouble_if<W: Sink>(
    writer: &mut W,
    packets: &[Sighting],
    packet: Option<&RefusedPacket<'_>>,
) -> Result<(), Fault>
    ensures err { IfErr result (λ f. f ≡ write_failed) }
{
    match packet {
        Some(packet) => write_trouble(writer, packets, packet),
        None => write_words(writer, "null"),
    }
}

/// Writes which lengths of the codes a refused packet fits, or null.
pub fn write_lengths_if<W: Sink>(writer: &mut W, lengths: Option<Fits>) -> Result<(), Fault>
    ensures err { IfErr result (λ f. f ≡ write_failed) }
{
    let Some(fits) = lengths else {
        return write_words(writer, "null");
    };
    tell!(
        writer,
        "{\"check_length\":",
        fits.check_length,
        ",\"code_lengths\":["
    )?;
    write_code_lengths(writer, &fits, "", ",")?;
    write_words(writer, "]}")
}

// Writes the messages of a PDU.
fn write_messages<W: Sink>(writer: &mut W, pdu: &Pdu<'_>) -> Result<(), Fault>
    ensures err { IfErr result (λ f. f ≡ write_failed) }
{
    write_words(writer, ",\"messages\":[")?;
    let mut before = "";
    for message in pdu.messages() {
        write_words(writer, before)?;
        write_contents(writer, message)?;
        before = ",";
    }
    write_words(writer, "]}")
}

// Writes the fields of a PDU.
fn write_pdu<W: Sink>(writer: &mut W, pdu: &Pdu<'_>) -> Result<(), Fault>
    ensures err { IfErr result (λ f. f ≡ write_failed) }
{
    let kind = pdu.kind().number();
    tell!(
        writer,
        "{\"type\":",
        kind,
        ",\"type_name\":\"",
        type_name(kind),
        "\",\"redundancy_number\":",
        pdu.number(),
        ",\"sn\":",
        pdu.sn(),
        ",\"cs\":",
        pdu.cs(),
        ",\"ts\":",
        pdu.ts(),
        ",\"cts\":",
        pdu.cts()
    )?;
    write_messages(writer, pdu)
}

/// Writes a packet that crossed, or null.
pub fn write_crossed_if<W: Sink>(
    writer: &mut W,
    packets: &[Sighting],
    crossed: Option<&Crossed<'_>>,
) -> Result<(), Fault>
    ensures err { IfErr result (λ f. f ≡ write_failed) }
{
    let Some(crossed) = crossed else {
        return write_words(writer, "null");
    };
    tell!(writer, "{\"end\":\"", crossed.side, "\",\"packet\":")?;
    write_place(writer, packets, crossed.place)?;
    write_words(writer, ",\"fields\":")?;
    match &crossed.pdu {
        Some(pdu) => write_pdu(writer, pdu)?,
        None => write_words(writer, "null")?,
    }
    write_words(writer, "}")
}
