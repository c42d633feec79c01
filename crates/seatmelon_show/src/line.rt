//! The lines of a listing.
ghost use Rattle.rasta_pcap.specs.Devices.{AsWritten};

use crate::cells::{Cell, write_cell};
use crate::counts::Counts;
use crate::decoding::Decoding;
use crate::payload::write_payload;
use crate::sight::{Found, Sight};
use rasta_line::end_name;
use rasta_pcap::{CaptureTime, Fault, Sink};
use rasta_pdu::{Fields, Params, payload_in};
use rasta_udp::Datagram;
use seatmelon_pcapng::{Format, Refusal};
use seatmelon_text::{tell, write_words};

// How many characters the columns have.
const RECORD: usize = 8;

const TIME: usize = 26;

const CHANNEL: usize = 7;

const SENDER: usize = 6;

const NUMBER: usize = 10;

const TYPE: usize = 23;

// What a listing begins with: what it is, and the names of the columns.
const HEAD: &str = "\
packets of the recorded channels; nothing here is a verdict
  record  time (UTC)                  channel  sender      number  type                             \
SN          CS          TS         CTS  payload
";

/// Writes what a listing begins with.
pub fn write_head<W: Sink>(writer: &mut W) -> Result<(), Fault>
    ensures written { AsWritten W.failure_count result writer.old writer.new }
{
    write_words(writer, HEAD)
}

// Writes a field, or a dash where there is none.
fn write_field<W: Sink>(writer: &mut W, field: Option<u32>) -> Result<(), Fault>
    ensures written { AsWritten W.failure_count result writer.old writer.new }
{
    write_cell(writer, Cell::Number(field), NUMBER)
}

// Writes the type of a datagram: its name, or the number that stands in its place.
fn write_type<W: Sink>(writer: &mut W, fields: &Fields) -> Result<(), Fault>
    ensures written { AsWritten W.failure_count result writer.old writer.new }
{
    match fields.kind() {
        Some(kind) => write_cell(writer, Cell::Words(kind.name()), TYPE),
        None => write_cell(
            writer,
            Cell::Number(fields.type_number.map(u32::from)),
            TYPE,
        ),
    }
}

// Writes the fields of a datagram, as far as it is long enough to have them.
fn write_fields<W: Sink>(writer: &mut W, fields: &Fields) -> Result<(), Fault>
    ensures written { AsWritten W.failure_count result writer.old writer.new }
{
    write_field(writer, fields.number)?;
    write_type(writer, fields)?;
    write_field(writer, fields.sn)?;
    write_field(writer, fields.cs)?;
    write_field(writer, fields.ts)?;
    write_field(writer, fields.cts)
}

// Writes what the payload of a datagram holds, whose layout is that of its type.
fn write_content<W: Sink>(writer: &mut W, params: &Params, bytes: &[u8]) -> Result<(), Fault>
    ensures written { AsWritten W.failure_count result writer.old writer.new }
{
    match (Fields::of(bytes).kind(), payload_in(params, bytes)) {
        (Some(kind), Some(payload)) => write_payload(writer, kind, payload),
        _ => write_words(writer, "-"),
    }
}

// Writes the number and the name of a fault.
fn write_fault<W: Sink>(writer: &mut W, fault: Fault) -> Result<(), Fault>
    ensures written { AsWritten W.failure_count result writer.old writer.new }
{
    let number = fault.number;
    tell!(writer, "can't be decoded: ", number, " ", fault.name())
}

// Writes the ids of a datagram, where they aren't the recorded ones.
fn write_ids<W: Sink>(writer: &mut W, bytes: &[u8]) -> Result<(), Fault>
    ensures written { AsWritten W.failure_count result writer.old writer.new }
{
    let Fields {
        sender,
        receiver,
        ..
    } = Fields::of(bytes);
    match (sender, receiver) {
        (Some(sender), Some(receiver)) => {
            tell!(writer, ", sender ", sender, ", receiver ", receiver)
        }
        _ => Ok(()),
    }
}

// Writes what the payload of a datagram holds, and what is the matter with it.
fn write_rest<W: Sink>(
    writer: &mut W,
    params: &Params,
    bytes: &[u8],
    decoding: Decoding,
) -> Result<(), Fault>
    ensures written { AsWritten W.failure_count result writer.old writer.new }
{
    match decoding {
        Decoding::Whole => write_content(writer, params, bytes),
        Decoding::OtherCode => {
            write_content(writer, params, bytes)?;
            write_words(writer, "; code doesn't fit")
        }
        Decoding::Faulty(fault) if fault.number == Fault::IDS => {
            write_fault(writer, fault)?;
            write_ids(writer, bytes)
        }
        Decoding::Faulty(fault) => write_fault(writer, fault),
    }
}

// Writes record and time.
fn write_record<W: Sink>(
    writer: &mut W,
    number: u32,
    time: Option<CaptureTime>,
) -> Result<(), Fault>
    ensures written { AsWritten W.failure_count result writer.old writer.new }
{
    write_cell(writer, Cell::Number(Some(number)), RECORD)?;
    match time {
        Some(time) => tell!(writer, time, "  "),
        None => write_cell(writer, Cell::Words("-"), TIME),
    }
}

// Writes channel, sender, fields and payload of a datagram.
fn write_datagram<W: Sink>(
    writer: &mut W,
    params: &Params,
    found: &Datagram<'_>,
    decoding: Decoding,
) -> Result<(), Fault>
    ensures written { AsWritten W.failure_count result writer.old writer.new }
{
    write_cell(
        writer,
        Cell::Number(Some(u32::from(found.channel))),
        CHANNEL,
    )?;
    write_cell(writer, Cell::Words(end_name(Some(found.side))), SENDER)?;
    write_fields(writer, &Fields::of(found.payload))?;
    write_rest(writer, params, found.payload, decoding)
}

// Writes the same of a frame whose datagram can't be read.
fn write_unreadable<W: Sink>(writer: &mut W, fault: Fault) -> Result<(), Fault>
    ensures written { AsWritten W.failure_count result writer.old writer.new }
{
    write_cell(writer, Cell::Number(None), CHANNEL)?;
    write_cell(writer, Cell::Words("-"), SENDER)?;
    write_fields(writer, &Fields::of(&[]))?;
    write_fault(writer, fault)
}

/// Writes the line of a packet, which was captured at this time and is read so.
pub fn write_line<W: Sink>(
    writer: &mut W,
    params: &Params,
    sight: &Sight<'_>,
    time: Option<CaptureTime>,
    decoding: Decoding,
) -> Result<(), Fault>
    ensures written { AsWritten W.failure_count result writer.old writer.new }
{
    write_record(writer, sight.number, time)?;
    match &sight.found {
        Found::Datagram(found) => write_datagram(writer, params, found, decoding)?,
        Found::Unreadable(fault) => write_unreadable(writer, *fault)?,
    }
    write_words(writer, "\n")
}

// What a fault that ends a capture says, before the number of its record and behind it.
fn words_on(fault: Fault) -> (&'static str, &'static str) {
    match fault.number {
        Fault::CUT_RECORD => ("the file ends inside record ", ""),
        Fault::TOO_MANY => ("record ", " is one too many"),
        Fault::RECORD_TOO_LONG => ("record ", " has more than 262144 bytes"),
        _ => ("record ", " can't be read"),
    }
}

// Writes what a fault that ends a capture says, with the number of its record.
fn write_record_fault<W: Sink>(writer: &mut W, fault: Fault) -> Result<(), Fault>
    ensures written { AsWritten W.failure_count result writer.old writer.new }
{
    let (before, behind) = words_on(fault);
    tell!(writer, before, fault.place, behind)
}

// Writes why a pcapng file is refused, whose capture therefore ends inside this record.
fn write_refusal<W: Sink>(writer: &mut W, record: u32, refusal: Refusal) -> Result<(), Fault>
    ensures written { AsWritten W.failure_count result writer.old writer.new }
{
    let records = record.saturating_sub(1);
    let name = if records == 1 { " record" } else { " records" };
    let Refusal { reason, at } = refusal;
    tell!(
        writer,
        "after ",
        records,
        name,
        ", at byte ",
        at,
        ": ",
        reason.words()
    )
}

/// Writes why no further record is listed of a file in this format.
pub fn write_end<W: Sink>(writer: &mut W, fault: Fault, format: Format) -> Result<(), Fault>
    ensures written { AsWritten W.failure_count result writer.old writer.new }
{
    let (number, name) = (fault.number, fault.name());
    match format.refusal() {
        Some(refusal) if number == Fault::CUT_RECORD => {
            write_refusal(writer, fault.place, refusal)?;
        }
        _ => write_record_fault(writer, fault)?,
    }
    tell!(
        writer,
        " (",
        number,
        " ",
        name,
        "): nothing from there on is listed\n"
    )
}

/// Writes how many packets were listed.
pub fn write_counts<W: Sink>(writer: &mut W, counts: &Counts) -> Result<(), Fault>
    ensures written { AsWritten W.failure_count result writer.old writer.new }
{
    let (listed, packets) = (counts.listed, counts.packets);
    if packets == 0 {
        return write_words(
            writer,
            "no packet of the recorded channels is in the window: check addresses and ports\n",
        );
    }
    tell!(
        writer,
        "packets listed: ",
        listed,
        " of ",
        packets,
        " in the window"
    )?;
    if counts.other_codes > 0 {
        tell!(writer, "; codes that don't fit: ", counts.other_codes)?;
    }
    write_words(writer, "\n")
}
