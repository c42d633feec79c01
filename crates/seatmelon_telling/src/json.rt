//! An account as one JSON object.
ghost use Rattle.std.specs.Prelude.{◌≡◌, IfErr};
ghost use Rattle.rasta_pcap.specs.Fault.{write_failed};

use crate::before_fault::write_before_json;
use crate::ending::write_course;
use crate::json_explained::write_explained;
use crate::json_middle::write_middle;
use crate::json_notes::{write_passed_over, write_times};
use crate::json_params::{write_offers, write_params};
use crate::json_places::write_number_if;
use crate::json_refusal::write_refusal;
use crate::json_supposed::{verdict_with, write_supposed};
use rasta_pcap::{Fault, Sink};
use seatmelon_account::{Account, File, Verdict};
use seatmelon_capture::write_link_types_json;
use seatmelon_pcapng::Format;
use seatmelon_reading::{ChannelCount, Window};
use seatmelon_text::json::{write_long, write_string};
use seatmelon_text::{PROGRAM, Part, tell, write_words};

// Writes a file's name and its SHA-256, as an object that is yet to be ended.
fn begin_file<W: Sink>(writer: &mut W, file: &File<'_>) -> Result<(), Fault>
    ensures err { IfErr result (λ f. f ≡ write_failed) }
{
    write_words(writer, "{\"name\":")?;
    write_string(writer, file.name)?;
    tell!(writer, ",\"sha256\":\"", Part::Hex(&file.sum), "\"")
}

// Writes a file's name and its SHA-256.
fn write_file<W: Sink>(writer: &mut W, file: &File<'_>) -> Result<(), Fault>
    ensures err { IfErr result (λ f. f ≡ write_failed) }
{
    begin_file(writer, file)?;
    write_words(writer, "}")
}

// Writes in which format the capture was read, where that isn't the classic one, and which link types interfaces have, if
// the format tells any beside that of Ethernet.
fn write_format<W: Sink>(writer: &mut W, format: Format) -> Result<(), Fault>
    ensures err { IfErr result (λ f. f ≡ write_failed) }
{
    if !format.is_pcapng() {
        return Ok(());
    }
    write_words(writer, ",\"format\":\"pcapng\"")?;
    write_link_types_json(writer, format)
}

// Writes name, SHA-256 and format of the capture.
fn write_capture<W: Sink>(writer: &mut W, account: &Account<'_>) -> Result<(), Fault>
    ensures err { IfErr result (λ f. f ≡ write_failed) }
{
    begin_file(writer, &account.capture())?;
    write_format(writer, account.reading.format)?;
    write_words(writer, "}")
}

// Writes the name and the SHA-256 of the certificate, if one was given.
fn write_certificate<W: Sink>(writer: &mut W, file: Option<&File<'_>>) -> Result<(), Fault>
    ensures err { IfErr result (λ f. f ≡ write_failed) }
{
    match file {
        Some(file) => write_file(writer, file),
        None => write_words(writer, "null"),
    }
}

// Writes the files that were read.
fn write_files<W: Sink>(writer: &mut W, account: &Account<'_>) -> Result<(), Fault>
    ensures err { IfErr result (λ f. f ≡ write_failed) }
{
    write_words(writer, ",\"capture\":")?;
    write_capture(writer, account)?;
    write_words(writer, ",\"parameters\":")?;
    write_file(writer, &account.parameters)?;
    write_words(writer, ",\"certificate\":")?;
    write_certificate(writer, account.certificate.as_ref())
}

// Writes which records were left out.
fn write_without<W: Sink>(writer: &mut W, without: &[u32]) -> Result<(), Fault>
    ensures err { IfErr result (λ f. f ≡ write_failed) }
{
    write_words(writer, ",\"without\":[")?;
    let mut before = "";
    for number in without {
        tell!(writer, before, *number)?;
        before = ",";
    }
    write_words(writer, "]")
}

/// Writes a number of 64 bits under a key.
pub fn write_count<W: Sink>(writer: &mut W, key: &'static str, count: u64) -> Result<(), Fault>
    ensures err { IfErr result (λ f. f ≡ write_failed) }
{
    tell!(writer, ",\"", key, "\":")?;
    write_long(writer, count)
}

// Writes the window, if one is recorded.
fn write_window<W: Sink>(
    writer: &mut W,
    account: &Account<'_>,
    window: Option<Window>,
) -> Result<(), Fault>
    ensures err { IfErr result (λ f. f ≡ write_failed) }
{
    let Some(window) = window else {
        return write_words(writer, ",\"window\":null");
    };
    let notes = &account.reading.notes;
    tell!(
        writer,
        ",\"window\":{\"first_record\":",
        window.first_record,
        ",\"last_record\":"
    )?;
    write_number_if(writer, window.last_record)?;
    write_count(writer, "packets_before", notes.before)?;
    write_count(writer, "packets_behind", notes.behind)?;
    write_words(writer, "}")
}

// Writes how many packets a channel has.
fn write_channel<W: Sink>(
    writer: &mut W,
    before: &'static str,
    number: u64,
    count: ChannelCount,
) -> Result<(), Fault>
    ensures err { IfErr result (λ f. f ≡ write_failed) }
{
    tell!(writer, before, "{\"channel\":", number)?;
    write_count(writer, "from_client", count.client)?;
    write_count(writer, "from_server", count.server)?;
    write_words(writer, "}")
}

// Writes how many packets each recorded channel has.
fn write_channels<W: Sink>(writer: &mut W, channels: &[ChannelCount]) -> Result<(), Fault>
    ensures err { IfErr result (λ f. f ≡ write_failed) }
{
    write_words(writer, ",\"channels\":[")?;
    let mut before = "";
    for (place, count) in channels.iter().enumerate() {
        write_channel(writer, before, (place as u64).saturating_add(1), *count)?;
        before = ",";
    }
    write_words(writer, "]")
}

// Writes how many records were read, and what they are.
fn write_counts<W: Sink>(writer: &mut W, account: &Account<'_>) -> Result<(), Fault>
    ensures err { IfErr result (λ f. f ≡ write_failed) }
{
    let notes = &account.reading.notes;
    tell!(writer, ",\"records_read\":", notes.records)?;
    write_window(writer, account, account.window)?;
    write_count(writer, "packets", notes.packets.len() as u64)?;
    write_channels(writer, account.channels)?;
    write_course(writer, account)?;
    write_count(writer, "records_passed_over", notes.passed.total())?;
    write_passed_over(writer, notes.passed)?;
    write_times(writer, account)?;
    write_params(writer, account.inputs.params)?;
    write_offers(writer, &account.offers)
}

// Writes the verdict, with what is told of it.
fn write_verdict<W: Sink>(writer: &mut W, account: &Account<'_>) -> Result<(), Fault>
    ensures err { IfErr result (λ f. f ≡ write_failed) }
{
    match &account.verdict {
        Verdict::NoPackets => write_words(writer, ",\"verdict\":\"no_packets\""),
        Verdict::Refused(refusal) => {
            let verdict = verdict_with(account.hypothesis.as_ref());
            tell!(writer, ",\"verdict\":\"", verdict, "\"")?;
            write_refusal(writer, account, refusal)?;
            write_before_json(writer, account)?;
            write_middle(writer, account)?;
            write_supposed(writer, account)
        }
        Verdict::Explained(explained) => {
            write_words(writer, ",\"verdict\":\"explained\"")?;
            write_explained(writer, account.packets(), explained)
        }
    }
}

/// Writes an account as one JSON object and a line feed, as it is made.
pub fn write_json<W: Sink>(writer: &mut W, account: &Account<'_>) -> Result<(), Fault>
    ensures err { IfErr result (λ f. f ≡ write_failed) }
{
    tell!(writer, "{\"program\":\"", PROGRAM, "\"")?;
    write_files(writer, account)?;
    write_without(writer, account.inputs.without)?;
    write_counts(writer, account)?;
    write_verdict(writer, account)?;
    write_words(writer, "}\n")
}
