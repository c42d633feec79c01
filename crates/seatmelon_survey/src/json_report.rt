//! A survey as JSON: what its text tells, as one object.
ghost use Rattle.rasta_pcap.specs.Devices.{AsWritten};

use crate::cut_report::{count_in, write_cut_pairs_json};
use crate::findings::Survey;
use crate::report::{EndNames, names_in};
use rasta_pcap::{CaptureTime, Fault, Sink};
use rasta_pdu::Kind;
use rasta_udp::Channel;
use seatmelon_capture::write_link_types_json;
use seatmelon_connections::{
    ChannelCounts, Connection, Ending, Gap, LateCopies, NumberCounts, Party,
};
use seatmelon_packets::{FitCount, Lengths, Offer};
use seatmelon_text::json::write_long;
use seatmelon_text::{tell, write_words};

// Writes a key, which has what stands before it in front, and its number.
fn write_count<W: Sink>(writer: &mut W, key: &'static str, count: u64) -> Result<(), Fault>
    ensures written { AsWritten W.failure_count result writer.old writer.new }
{
    write_words(writer, key)?;
    write_long(writer, count)
}

// Writes a time, or null where a record has none.
fn write_time<W: Sink>(
    writer: &mut W,
    key: &'static str,
    time: Option<CaptureTime>,
) -> Result<(), Fault>
    ensures written { AsWritten W.failure_count result writer.old writer.new }
{
    match time {
        Some(time) => tell!(writer, key, "\"", time, " UTC\""),
        None => tell!(writer, key, "null"),
    }
}

// Writes what an end said of itself at the opening, or nulls.
fn write_offer<W: Sink>(writer: &mut W, offer: Option<Offer>) -> Result<(), Fault>
    ensures written { AsWritten W.failure_count result writer.old writer.new }
{
    match offer {
        Some(offer) => tell!(
            writer,
            ",\"version\":\"",
            offer.version,
            "\",\"n_sendmax\":",
            offer.sendmax
        ),
        None => write_words(writer, ",\"version\":null,\"n_sendmax\":null"),
    }
}

// Writes the disconnection request of an end, or null.
fn write_ending<W: Sink>(writer: &mut W, ending: Option<Ending>) -> Result<(), Fault>
    ensures written { AsWritten W.failure_count result writer.old writer.new }
{
    match ending {
        Some(ending) => tell!(
            writer,
            ",\"ended\":{\"record\":",
            ending.record,
            ",\"reason\":",
            ending.reason,
            "}"
        ),
        None => write_words(writer, ",\"ended\":null"),
    }
}

// Writes how many PDUs of each type an end sent that it sent at all, without copies.
fn write_kinds<W: Sink>(writer: &mut W, party: &Party) -> Result<(), Fault>
    ensures written { AsWritten W.failure_count result writer.old writer.new }
{
    write_words(writer, ",\"sent\":[")?;
    let mut before = "";
    for kind in Kind::ALL {
        let count = party.kinds.count(kind);
        if count > 0 {
            tell!(writer, before, "{\"type\":\"", kind.name(), "\",\"count\":")?;
            write_long(writer, count)?;
            write_words(writer, "}")?;
            before = ",";
        }
    }
    write_words(writer, "]")
}

// Writes the first gap in the numbers of an end, or null.
fn write_first_gap<W: Sink>(writer: &mut W, gap: Option<Gap>) -> Result<(), Fault>
    ensures written { AsWritten W.failure_count result writer.old writer.new }
{
    match gap {
        Some(gap) => tell!(
            writer,
            ",\"first_gap\":{\"number\":",
            gap.missing,
            ",\"record\":",
            gap.record,
            "}"
        ),
        None => write_words(writer, ",\"first_gap\":null"),
    }
}

// Writes what the numbers of an end show.
fn write_numbers<W: Sink>(writer: &mut W, counts: &NumberCounts) -> Result<(), Fault>
    ensures written { AsWritten W.failure_count result writer.old writer.new }
{
    write_count(writer, ",\"gaps\":", counts.gaps)?;
    write_count(writer, ",\"missing\":", counts.missing)?;
    write_first_gap(writer, counts.first_gap)?;
    write_count(writer, ",\"late\":", counts.late)?;
    write_count(writer, ",\"copies\":", counts.copies)?;
    write_count(writer, ",\"differing_copies\":", counts.differing)?;
    write_count(writer, ",\"too_old\":", counts.too_old)
}

// Writes an end of a connection, by what it is called.
fn write_end<W: Sink>(writer: &mut W, name: &'static str, party: &Party) -> Result<(), Fault>
    ensures written { AsWritten W.failure_count result writer.old writer.new }
{
    tell!(writer, "{\"name\":\"", name, "\",\"id\":", party.id)?;
    write_offer(writer, party.offer)?;
    write_ending(writer, party.ending)?;
    write_kinds(writer, party)?;
    write_numbers(writer, &party.numbers.counts())?;
    write_words(writer, "}")
}

// Writes both ends.
fn write_ends<W: Sink>(
    writer: &mut W,
    names: EndNames,
    connection: &Connection,
) -> Result<(), Fault>
    ensures written { AsWritten W.failure_count result writer.old writer.new }
{
    write_words(writer, ",\"ends\":[")?;
    write_end(writer, names.first, connection.first())?;
    write_words(writer, ",")?;
    write_end(writer, names.second, connection.second())?;
    write_words(writer, "]")
}

// Writes where the connection was opened, or null, and whether that was before the capture began.
fn write_opening<W: Sink>(writer: &mut W, connection: &Connection) -> Result<(), Fault>
    ensures written { AsWritten W.failure_count result writer.old writer.new }
{
    if connection.has_opening() {
        tell!(writer, ",\"opened_at\":", connection.first_record())?;
    } else {
        write_words(writer, ",\"opened_at\":null")?;
    }
    let words = if connection.was_opened_before() {
        "true"
    } else {
        "false"
    };
    tell!(writer, ",\"opened_before\":", words)
}

// Writes how many late copies there are, and in which records, or null.
fn write_late_copies<W: Sink>(writer: &mut W, copies: Option<LateCopies>) -> Result<(), Fault>
    ensures written { AsWritten W.failure_count result writer.old writer.new }
{
    let Some(copies) = copies else {
        return write_words(writer, ",\"late_copies\":null");
    };
    write_count(writer, ",\"late_copies\":{\"count\":", copies.count)?;
    tell!(
        writer,
        ",\"first_record\":",
        copies.first_record,
        ",\"last_record\":",
        copies.last_record,
        "}"
    )
}

// Writes where the connection stands in the capture, and how it begins.
fn write_extent<W: Sink>(writer: &mut W, connection: &Connection) -> Result<(), Fault>
    ensures written { AsWritten W.failure_count result writer.old writer.new }
{
    tell!(
        writer,
        ",\"first_record\":",
        connection.first_record(),
        ",\"last_record\":",
        connection.last_record()
    )?;
    write_time(writer, ",\"first_time\":", connection.first_time())?;
    write_time(writer, ",\"last_time\":", connection.last_time())?;
    write_opening(writer, connection)?;
    write_late_copies(writer, connection.late_copies())
}

/// Writes two ends as an array.
pub fn write_route<W: Sink>(writer: &mut W, route: &Channel) -> Result<(), Fault>
    ensures written { AsWritten W.failure_count result writer.old writer.new }
{
    tell!(writer, "[\"", route.client, "\",\"", route.server, "\"]")
}

// Writes a channel, whose place counts from 0.
fn write_channel<W: Sink>(writer: &mut W, place: u64, counts: &ChannelCounts) -> Result<(), Fault>
    ensures written { AsWritten W.failure_count result writer.old writer.new }
{
    let before = if place == 0 { "" } else { "," };
    tell!(
        writer,
        before,
        "{\"channel\":",
        place.saturating_add(1),
        ",\"ends\":"
    )?;
    write_route(writer, &counts.channel)?;
    write_count(writer, ",\"from_first\":", counts.to_second)?;
    write_count(writer, ",\"from_second\":", counts.to_first)?;
    write_words(writer, "}")
}

fn write_channels<W: Sink>(writer: &mut W, channels: &[ChannelCounts]) -> Result<(), Fault>
    ensures written { AsWritten W.failure_count result writer.old writer.new }
{
    write_words(writer, ",\"channels\":[")?;
    for (place, counts) in channels.iter().enumerate() {
        write_channel(writer, place as u64, counts)?;
    }
    write_words(writer, "]")
}

// Writes how many packets fit a length of the safety code, and how many of these fit MD4's own start words.
fn write_code_fit<W: Sink>(
    writer: &mut W,
    front: &'static str,
    count: FitCount,
) -> Result<(), Fault>
    ensures written { AsWritten W.failure_count result writer.old writer.new }
{
    write_count(writer, front, count.forms)?;
    write_count(writer, ",\"start_words_fit\":", count.start_words)?;
    write_words(writer, "}")
}

// Writes how many packets there are, and how many fit each length of the codes.
fn write_lengths<W: Sink>(writer: &mut W, lengths: &Lengths) -> Result<(), Fault>
    ensures written { AsWritten W.failure_count result writer.old writer.new }
{
    write_count(writer, ",\"packets\":", lengths.pdus)?;
    write_count(
        writer,
        ",\"safety_code\":[{\"length\":0,\"fits\":",
        lengths.no_code.forms,
    )?;
    write_code_fit(writer, "},{\"length\":8,\"fits\":", lengths.short_code)?;
    write_code_fit(writer, ",{\"length\":16,\"fits\":", lengths.long_code)?;
    write_count(
        writer,
        "],\"check_code\":[{\"length\":0,\"fits\":",
        lengths.no_check,
    )?;
    write_count(writer, "},{\"length\":2,\"fits\":", lengths.short_check)?;
    write_count(writer, "},{\"length\":4,\"fits\":", lengths.long_check)?;
    write_words(writer, "}]")
}

// Writes a connection, whose place counts from 0.
fn write_connection<W: Sink>(
    writer: &mut W,
    survey: &Survey,
    place: u64,
    connection: &Connection,
) -> Result<(), Fault>
    ensures written { AsWritten W.failure_count result writer.old writer.new }
{
    let before = if place == 0 { "" } else { "," };
    tell!(writer, before, "{\"connection\":", place.saturating_add(1))?;
    write_ends(writer, names_in(connection), connection)?;
    write_extent(writer, connection)?;
    write_channels(writer, connection.channels().counts())?;
    let further = connection.channels().on_others;
    write_count(writer, ",\"packets_on_further_channels\":", further)?;
    write_lengths(writer, connection.lengths())?;
    let cut = count_in(survey.cuts(), connection);
    write_count(writer, ",\"captured_cut\":", cut)?;
    write_words(writer, "}")
}

fn write_connections<W: Sink>(writer: &mut W, survey: &Survey) -> Result<(), Fault>
    ensures written { AsWritten W.failure_count result writer.old writer.new }
{
    write_words(writer, ",\"connections\":[")?;
    for (place, connection) in survey.connections().iter().enumerate() {
        write_connection(writer, survey, place as u64, connection)?;
    }
    write_words(writer, "]")
}

// Writes how many bytes of each frame were captured at most, or null where that isn't known.
fn write_snapshot<W: Sink>(writer: &mut W, survey: &Survey) -> Result<(), Fault>
    ensures written { AsWritten W.failure_count result writer.old writer.new }
{
    match survey.header() {
        Some(header) => tell!(writer, ",\"snapshot_length\":", header.snapshot_length),
        None => write_words(writer, ",\"snapshot_length\":null"),
    }
}

// Writes how much was read.
fn write_summary<W: Sink>(writer: &mut W, survey: &Survey) -> Result<(), Fault>
    ensures written { AsWritten W.failure_count result writer.old writer.new }
{
    let records = u64::from(survey.records());
    write_count(writer, "{\"records\":", records)?;
    write_count(writer, ",\"packets\":", survey.packets())?;
    let passed_over = records.saturating_sub(survey.packets());
    write_count(writer, ",\"passed_over\":", passed_over)?;
    write_count(writer, ",\"left_out\":", survey.left_out())?;
    write_link_types_json(writer, survey.format())?;
    write_count(writer, ",\"captured_cut\":", survey.cuts().datagrams())?;
    write_snapshot(writer, survey)
}

/// Writes what was found up to the fault, as an object that is yet to be ended.
pub fn write_found<W: Sink>(writer: &mut W, survey: &Survey) -> Result<(), Fault>
    ensures written { AsWritten W.failure_count result writer.old writer.new }
{
    write_summary(writer, survey)?;
    write_connections(writer, survey)?;
    write_cut_pairs_json(writer, survey)
}
