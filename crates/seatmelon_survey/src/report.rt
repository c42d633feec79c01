//! The text of a survey.
ghost use Rattle.rasta_pcap.specs.Devices.{AsWritten};

use crate::findings::Survey;
use rasta_pcap::{Fault, Sink};
use rasta_pdu::Kind;
use seatmelon_capture::write_link_types;
use seatmelon_connections::{ChannelCounts, Connection, NumberCounts, Party};
use seatmelon_packets::{FitCount, Lengths};
use seatmelon_text::{numbered, parts, tell, write_parts, write_parts_if, write_words};

/// Writes how much was read.
pub fn write_summary<W: Sink>(writer: &mut W, survey: &Survey) -> Result<(), Fault>
    ensures written { AsWritten W.failure_count result writer.old writer.new }
{
    let records = u64::from(survey.records());
    let passed_over = records.saturating_sub(survey.packets());
    tell!(
        writer,
        "records: ",
        records,
        "\npackets of RaSTA: ",
        survey.packets(),
        "\nother records, passed over: ",
        passed_over,
        "\n"
    )?;
    let left_out = numbered(
        "packets of further connections, left out: ",
        survey.left_out(),
    );
    write_parts_if(writer, survey.left_out() > 0, &left_out)?;
    write_link_types(writer, survey.format())?;
    let none = parts!["no packet of a RaSTA connection\n"];
    write_parts_if(writer, survey.connections().is_empty(), &none)
}

/// What the ends are called: by their roles where the opening was captured.
#[derive(Clone, Copy)]
pub struct EndNames {
    pub first: &'static str,
    pub second: &'static str,
}

pub fn names_in(connection: &Connection) -> EndNames {
    if connection.has_opening() {
        EndNames {
            first: "client",
            second: "server",
        }
    } else {
        EndNames {
            first: "end 1",
            second: "end 2",
        }
    }
}

// Writes the id of an end, and what it said of itself at the opening.
fn write_id<W: Sink>(writer: &mut W, name: &'static str, party: &Party) -> Result<(), Fault>
    ensures written { AsWritten W.failure_count result writer.old writer.new }
{
    tell!(writer, "  ", name, " id ", party.id)?;
    if let Some(offer) = party.offer {
        tell!(
            writer,
            ", version ",
            offer.version,
            ", N_sendmax ",
            offer.sendmax
        )?;
    }
    write_words(writer, "\n")
}

// Writes when the first and the last record were captured.
fn write_times<W: Sink>(writer: &mut W, connection: &Connection) -> Result<(), Fault>
    ensures written { AsWritten W.failure_count result writer.old writer.new }
{
    let (Some(first), Some(last)) = (connection.first_time(), connection.last_time()) else {
        return Ok(());
    };
    tell!(writer, "  captured from ", first, " to ", last, " UTC\n")
}

// Writes where the connection stands in the capture, and whether its opening does.
fn write_extent<W: Sink>(writer: &mut W, connection: &Connection) -> Result<(), Fault>
    ensures written { AsWritten W.failure_count result writer.old writer.new }
{
    tell!(
        writer,
        "  records ",
        connection.first_record(),
        " to ",
        connection.last_record(),
        "\n"
    )?;
    write_times(writer, connection)?;
    if connection.was_opened_before() {
        return write_words(writer, "  opened before the capture began\n");
    }
    if !connection.has_opening() {
        return write_words(writer, "  no opening was captured\n");
    }
    let first = u64::from(connection.first_record());
    write_parts(
        writer,
        &numbered("  opened by the client at record ", first),
    )
}

// Writes a disconnection request of an end.
fn write_ending<W: Sink>(writer: &mut W, name: &'static str, party: &Party) -> Result<(), Fault>
    ensures written { AsWritten W.failure_count result writer.old writer.new }
{
    let Some(ending) = party.ending else {
        return Ok(());
    };
    tell!(
        writer,
        "  ended by the ",
        name,
        " at record ",
        ending.record,
        ", reason ",
        ending.reason,
        "\n"
    )
}

// Writes how many late copies there are, and in which records.
fn write_late_copies<W: Sink>(writer: &mut W, connection: &Connection) -> Result<(), Fault>
    ensures written { AsWritten W.failure_count result writer.old writer.new }
{
    let Some(copies) = connection.late_copies() else {
        return Ok(());
    };
    tell!(
        writer,
        "  late copies of its opening and of what came behind it: ",
        copies.count,
        ", the first in record ",
        copies.first_record,
        ", the last in record ",
        copies.last_record,
        "\n"
    )
}

// Writes a channel: its ends, first that of the connection's first end.
fn write_channel<W: Sink>(
    writer: &mut W,
    place: u64,
    names: EndNames,
    counts: &ChannelCounts,
) -> Result<(), Fault>
    ensures written { AsWritten W.failure_count result writer.old writer.new }
{
    tell!(
        writer,
        "  channel ",
        place.saturating_add(1),
        ": ",
        counts.channel.client,
        " - ",
        counts.channel.server,
        ", packets to the ",
        names.second,
        ": ",
        counts.to_second,
        ", to the ",
        names.first,
        ": ",
        counts.to_first,
        "\n"
    )
}

fn write_channels<W: Sink>(
    writer: &mut W,
    names: EndNames,
    channels: &[ChannelCounts],
) -> Result<(), Fault>
    ensures written { AsWritten W.failure_count result writer.old writer.new }
{
    for (place, counts) in channels.iter().enumerate() {
        write_channel(writer, place as u64, names, counts)?;
    }
    Ok(())
}

// Writes how many packets have the form that a length of a code asks for, unless none has.
fn write_fit<W: Sink>(
    writer: &mut W,
    code: &'static str,
    length: u64,
    count: u64,
    packets: u64,
) -> Result<(), Fault>
    ensures written { AsWritten W.failure_count result writer.old writer.new }
{
    write_parts_if(
        writer,
        count > 0,
        &parts![
            "  a ",
            code,
            " code of ",
            length,
            " bytes fits the length of ",
            count,
            " of ",
            packets,
            " packets\n"
        ],
    )
}

// Writes the fit of a length of the safety code, and that of MD4's own start words.
fn write_code_fit<W: Sink>(
    writer: &mut W,
    length: u64,
    count: FitCount,
    packets: u64,
) -> Result<(), Fault>
    ensures written { AsWritten W.failure_count result writer.old writer.new }
{
    write_fit(writer, "safety", length, count.forms, packets)?;
    write_parts_if(
        writer,
        count.forms > 0 && length > 0,
        &parts![
            "    MD4's own start words fit ",
            count.start_words,
            " of these\n"
        ],
    )
}

fn write_lengths<W: Sink>(writer: &mut W, lengths: &Lengths) -> Result<(), Fault>
    ensures written { AsWritten W.failure_count result writer.old writer.new }
{
    write_code_fit(writer, 0, lengths.no_code, lengths.pdus)?;
    write_code_fit(writer, 8, lengths.short_code, lengths.pdus)?;
    write_code_fit(writer, 16, lengths.long_code, lengths.pdus)?;
    write_fit(writer, "check", 0, lengths.no_check, lengths.pdus)?;
    write_fit(writer, "check", 2, lengths.short_check, lengths.pdus)?;
    write_fit(writer, "check", 4, lengths.long_check, lengths.pdus)
}

// Writes how many PDUs of each type an end sent, without copies.
fn write_kinds<W: Sink>(writer: &mut W, name: &'static str, party: &Party) -> Result<(), Fault>
    ensures written { AsWritten W.failure_count result writer.old writer.new }
{
    for kind in Kind::ALL {
        let count = party.kinds.count(kind);
        write_parts_if(
            writer,
            count > 0,
            &parts!["  ", name, " sent ", kind.name(), ": ", count, "\n"],
        )?;
    }
    Ok(())
}

fn write_gap<W: Sink>(
    writer: &mut W,
    name: &'static str,
    counts: &NumberCounts,
) -> Result<(), Fault>
    ensures written { AsWritten W.failure_count result writer.old writer.new }
{
    let Some(first) = counts.first_gap else {
        return Ok(());
    };
    tell!(
        writer,
        "  ",
        name,
        "'s gaps: ",
        counts.gaps,
        ", numbers missing: ",
        counts.missing,
        ", the first: ",
        first.missing,
        " at record ",
        first.record,
        "\n"
    )
}

// Writes how many of something there are, unless there are none.
fn write_count<W: Sink>(
    writer: &mut W,
    name: &'static str,
    what: &'static str,
    count: u64,
) -> Result<(), Fault>
    ensures written { AsWritten W.failure_count result writer.old writer.new }
{
    write_parts_if(writer, count > 0, &parts!["  ", name, what, count, "\n"])
}

// Writes how many packets came again or out of order.
fn write_repeats<W: Sink>(
    writer: &mut W,
    name: &'static str,
    counts: &NumberCounts,
) -> Result<(), Fault>
    ensures written { AsWritten W.failure_count result writer.old writer.new }
{
    write_count(writer, name, "'s numbers that came late: ", counts.late)?;
    write_count(writer, name, "'s copies: ", counts.copies)?;
    write_count(writer, name, "'s copies that differ: ", counts.differing)?;
    write_count(
        writer,
        name,
        "'s numbers too old to be compared: ",
        counts.too_old,
    )
}

// Writes what an end sent.
fn write_sent<W: Sink>(writer: &mut W, name: &'static str, party: &Party) -> Result<(), Fault>
    ensures written { AsWritten W.failure_count result writer.old writer.new }
{
    let counts = party.numbers.counts();
    write_kinds(writer, name, party)?;
    write_gap(writer, name, &counts)?;
    write_repeats(writer, name, &counts)
}

// Writes the connection's ends, how it begins and how it ends.
fn write_frame<W: Sink>(
    writer: &mut W,
    names: EndNames,
    connection: &Connection,
) -> Result<(), Fault>
    ensures written { AsWritten W.failure_count result writer.old writer.new }
{
    write_id(writer, names.first, connection.first())?;
    write_id(writer, names.second, connection.second())?;
    write_extent(writer, connection)?;
    write_ending(writer, names.first, connection.first())?;
    write_ending(writer, names.second, connection.second())?;
    let is_open = !connection.has_ending();
    let parts = parts!["  no disconnection request was captured\n"];
    write_parts_if(writer, is_open, &parts)?;
    write_late_copies(writer, connection)
}

/// Writes the block of a connection, whose place counts from 0, as plain text.
///
/// Refused by [`Fault::WRITE_FAILED`] alone.
pub fn write_connection<W: Sink>(
    writer: &mut W,
    place: u64,
    connection: &Connection,
) -> Result<(), Fault>
    ensures written { AsWritten W.failure_count result writer.old writer.new }
{
    let names = names_in(connection);
    write_parts(writer, &numbered("\nconnection ", place.saturating_add(1)))?;
    write_frame(writer, names, connection)?;
    write_channels(writer, names, connection.channels().counts())?;
    let further = numbered(
        "  packets on further channels: ",
        connection.channels().on_others,
    );
    write_parts_if(writer, connection.channels().on_others > 0, &further)?;
    write_lengths(writer, connection.lengths())?;
    write_sent(writer, names.first, connection.first())?;
    write_sent(writer, names.second, connection.second())
}
