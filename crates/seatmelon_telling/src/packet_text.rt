//! The text on one packet, decoded as far as it goes.
ghost use Rattle.std.specs.Prelude.{◌≡◌, IfErr};
ghost use Rattle.rasta_pcap.specs.Fault.{write_failed};

use rasta_pcap::{Fault, Sink};
use rasta_pdu::layout::PAYLOAD_AT;
use rasta_pdu::{Fields, Kind, Pdu};
use seatmelon_account::{Codes, Difference, FirstCopy};
use seatmelon_text::{Part, tell, write_words};

// Writes a field as a line.
fn write_field<W: Sink>(writer: &mut W, name: &str, n: u32) -> Result<(), Fault>
    ensures err { IfErr result (λ f. f ≡ write_failed) }
{
    tell!(writer, "  ", name, ": ", n, "\n")
}

/// The name of the type with this number.
pub fn type_name(number: u16) -> &'static str {
    match Kind::of(number) {
        Some(kind) => kind.name(),
        None => "none of the eight types",
    }
}

// Writes the number of a type as a line.
fn write_type<W: Sink>(writer: &mut W, number: u16) -> Result<(), Fault>
    ensures err { IfErr result (λ f. f ≡ write_failed) }
{
    tell!(writer, "  type: ", number, ", ", type_name(number), "\n")
}

/// The payload of a datagram and the codes after it.
pub fn payload_and_codes(datagram: &[u8]) -> &[u8] {
    &datagram[datagram.len().min(PAYLOAD_AT)..]
}

/// How many bytes are shown that a datagram has.
pub fn shown_length(datagram: &[u8]) -> u32 {
    datagram.len().min(65_535) as u32
}

// Writes fields, those that are there.
fn write_fields<W: Sink>(writer: &mut W, fields: &Fields) -> Result<(), Fault>
    ensures err { IfErr result (λ f. f ≡ write_failed) }
{
    let lines = [
        ("length field", fields.length.map(u32::from)),
        ("redundancy number", fields.number),
        (
            "length field of the safety layer",
            fields.safety_length.map(u32::from),
        ),
        ("receiver", fields.receiver),
        ("sender", fields.sender),
        ("SN", fields.sn),
        ("CS", fields.cs),
        ("TS", fields.ts),
        ("CTS", fields.cts),
    ];
    for (name, number) in lines {
        if let Some(n) = number {
            write_field(writer, name, n)?;
        }
    }
    Ok(())
}

/// Writes the fields of a datagram, as far as it goes.
pub fn write_datagram<W: Sink>(writer: &mut W, datagram: &[u8]) -> Result<(), Fault>
    ensures err { IfErr result (λ f. f ≡ write_failed) }
{
    let fields = Fields::of(datagram);
    write_field(writer, "bytes of the datagram", shown_length(datagram))?;
    if let Some(number) = fields.type_number {
        write_type(writer, number)?;
    }
    write_fields(writer, &fields)?;
    let rest = payload_and_codes(datagram);
    if rest.is_empty() {
        return Ok(());
    }
    tell!(writer, "  payload and codes: ", Part::Hex(rest), "\n")
}

// Writes a message as a line.
fn write_message<W: Sink>(writer: &mut W, message: &[u8]) -> Result<(), Fault>
    ensures err { IfErr result (λ f. f ≡ write_failed) }
{
    if message.is_empty() {
        return write_words(writer, "  message: empty\n");
    }
    tell!(
        writer,
        "  message: hex ",
        Part::Hex(message),
        ", text ",
        Part::Text(message),
        "\n"
    )
}

// Writes the messages of a PDU.
fn write_messages<W: Sink>(writer: &mut W, pdu: &Pdu<'_>) -> Result<(), Fault>
    ensures err { IfErr result (λ f. f ≡ write_failed) }
{
    for message in pdu.messages() {
        write_message(writer, message)?;
    }
    Ok(())
}

/// Writes the fields of a PDU.
pub fn write_pdu<W: Sink>(writer: &mut W, pdu: &Pdu<'_>) -> Result<(), Fault>
    ensures err { IfErr result (λ f. f ≡ write_failed) }
{
    write_type(writer, pdu.kind().number())?;
    write_field(writer, "redundancy number", pdu.number())?;
    write_field(writer, "SN", pdu.sn())?;
    write_field(writer, "CS", pdu.cs())?;
    write_field(writer, "TS", pdu.ts())?;
    write_field(writer, "CTS", pdu.cts())?;
    write_messages(writer, pdu)
}

/// Writes the safety code that a datagram has, and the one that is due.
pub fn write_codes<W: Sink>(writer: &mut W, codes: &Codes<'_>) -> Result<(), Fault>
    ensures err { IfErr result (λ f. f ≡ write_failed) }
{
    tell!(
        writer,
        "  safety code found: ",
        Part::Hex(codes.found),
        "\n  safety code due: ",
        Part::Hex(codes.due()),
        "\n"
    )
}

// Writes a byte in which copies differ.
fn write_difference<W: Sink>(writer: &mut W, difference: &Difference) -> Result<(), Fault>
    ensures err { IfErr result (λ f. f ≡ write_failed) }
{
    tell!(
        writer,
        "  byte ",
        difference.at as u64,
        " of the datagram: ",
        Part::Byte(difference.byte),
        ", in the first copy ",
        Part::Byte(difference.first),
        "\n"
    )
}

/// Writes in which bytes a datagram differs from its first copy.
pub fn write_differences<W: Sink>(
    writer: &mut W,
    datagram: &[u8],
    first: &FirstCopy<'_>,
) -> Result<(), Fault>
    ensures err { IfErr result (λ f. f ≡ write_failed) }
{
    for difference in first.differences.as_slice() {
        write_difference(writer, difference)?;
    }
    if first.differences.is_full() {
        write_words(writer, "  and perhaps more bytes after these\n")?;
    }
    if datagram.len() != first.bytes.len() {
        write_field(writer, "bytes of the first copy", shown_length(first.bytes))?;
    }
    Ok(())
}
