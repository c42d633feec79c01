//! An audit of many connections as one JSON object.
ghost use Rattle.std.specs.Prelude.{◌≡◌, IfErr};
ghost use Rattle.rasta_pcap.specs.Fault.{write_failed};

use crate::counts::{Counts, is_cut};
use crate::json_facts::{truth, write_facts};
use crate::json_inputs::{Inputs, write_inputs};
use rasta_pcap::{CaptureTime, Fault, Side, Sink};
use seatmelon_audit::{
    Answer, Audit, Before, Connection, Conveyed, Explained, Refusal, Share, ShownOf, Subject,
};
use seatmelon_capture::{write_fault_json, write_link_types_json};
use seatmelon_pcapng::Format;
use seatmelon_text::json::{write_long, write_string};
use seatmelon_text::{tell, write_words};

// Writes how many messages an end sent, and how many of them were surely taken, under its name.
fn write_conveyed<W: Sink>(writer: &mut W, sender: Side, conveyed: Conveyed) -> Result<(), Fault>
    ensures err { IfErr result (λ f. f ≡ write_failed) }
{
    tell!(writer, ",\"", sender, "\":{\"sent\":")?;
    write_long(writer, conveyed.sent)?;
    write_words(writer, ",\"surely_taken\":")?;
    write_long(writer, conveyed.taken)?;
    write_words(writer, "}")
}

// Writes what is counted of packets that are explained.
fn write_explained<W: Sink>(writer: &mut W, explained: &Explained) -> Result<(), Fault>
    ensures err { IfErr result (λ f. f ≡ write_failed) }
{
    write_words(writer, "\"explained\",\"packets\":")?;
    write_long(writer, explained.packets)?;
    write_conveyed(writer, Side::Client, explained.client)?;
    write_conveyed(writer, Side::Server, explained.server)
}

// Writes when a record was captured, or null.
fn write_time<W: Sink>(writer: &mut W, time: Option<CaptureTime>) -> Result<(), Fault>
    ensures err { IfErr result (λ f. f ≡ write_failed) }
{
    match time {
        Some(time) => tell!(writer, ",\"time\":\"", time, " UTC\""),
        None => write_words(writer, ",\"time\":null"),
    }
}

// Writes the record that a refusal names, or nulls.
fn write_subject<W: Sink>(writer: &mut W, subject: Option<Subject>) -> Result<(), Fault>
    ensures err { IfErr result (λ f. f ≡ write_failed) }
{
    match subject {
        Some(subject) => {
            tell!(writer, ",\"record\":", subject.record)?;
            write_time(writer, subject.time)
        }
        None => write_words(writer, ",\"record\":null,\"time\":null"),
    }
}

// Writes the end that a refusal speaks of, or null.
fn write_end<W: Sink>(writer: &mut W, end: Option<Side>) -> Result<(), Fault>
    ensures err { IfErr result (λ f. f ≡ write_failed) }
{
    match end {
        Some(end) => tell!(writer, ",\"end\":\"", end, "\""),
        None => write_words(writer, ",\"end\":null"),
    }
}

// Writes number and name of a fault.
fn write_fault<W: Sink>(writer: &mut W, fault: Fault) -> Result<(), Fault>
    ensures err { IfErr result (λ f. f ≡ write_failed) }
{
    tell!(
        writer,
        "{\"number\":",
        fault.number,
        ",\"name\":\"",
        fault.name(),
        "\"}"
    )
}

// Writes how many captured messages of an end there are, and how many of them were surely taken, under its name.
fn write_share<W: Sink>(
    writer: &mut W,
    before: &'static str,
    sender: Side,
    share: Share,
) -> Result<(), Fault>
    ensures err { IfErr result (λ f. f ≡ write_failed) }
{
    tell!(writer, before, "\"", sender, "\":{\"captured\":")?;
    write_long(writer, share.captured)?;
    write_words(writer, ",\"surely_taken\":")?;
    write_long(writer, share.taken)?;
    write_words(writer, "}")
}

// Writes what was surely taken by the packets alone, and on how many of them that rests, or null where it isn't told.
fn write_shown<W: Sink>(writer: &mut W, shown: &Option<ShownOf>) -> Result<(), Fault>
    ensures err { IfErr result (λ f. f ≡ write_failed) }
{
    let Some(shown) = shown else {
        return write_words(writer, ",\"from_the_middle\":null");
    };
    let counts = &shown.counts;
    tell!(
        writer,
        ",\"from_the_middle\":{\"packets\":",
        counts.packets,
        ",\"all_fit\":",
        truth(shown.unfit.is_none())
    )?;
    write_share(writer, ",", Side::Client, counts.client)?;
    write_share(writer, ",", Side::Server, counts.server)?;
    write_words(writer, "}")
}

// Writes whether what crossed before a refusal is explained, or null where nothing did.
fn write_before<W: Sink>(writer: &mut W, before: &Before) -> Result<(), Fault>
    ensures err { IfErr result (λ f. f ≡ write_failed) }
{
    match before {
        Before::Nothing => write_words(writer, ",\"before_fault\":null"),
        Before::Explained(explained) => {
            write_words(writer, ",\"before_fault\":{\"verdict\":")?;
            write_explained(writer, explained)?;
            write_words(writer, "}")
        }
        Before::Unexplained { packets, fault } => {
            write_words(
                writer,
                ",\"before_fault\":{\"verdict\":\"refused\",\"packets\":",
            )?;
            write_long(writer, *packets)?;
            write_words(writer, ",\"fault\":")?;
            write_fault(writer, *fault)?;
            write_words(writer, "}")
        }
    }
}

// Writes why a connection is refused or cut, what its packets show alone, and whether what crossed before is explained.
fn write_refusal<W: Sink>(
    writer: &mut W,
    verdict: &'static str,
    refusal: &Refusal,
    before: &Before,
    shown: &Option<ShownOf>,
) -> Result<(), Fault>
    ensures err { IfErr result (λ f. f ≡ write_failed) }
{
    tell!(writer, verdict, ",\"fault\":")?;
    write_fault(writer, refusal.fault)?;
    write_subject(writer, refusal.subject)?;
    write_end(writer, refusal.fault.end)?;
    write_shown(writer, shown)?;
    write_before(writer, before)
}

// How a refusal is called: the connection is cut, or refused.
fn verdict_of(is_cut: bool) -> &'static str {
    if is_cut { "\"cut\"" } else { "\"refused\"" }
}

// Writes a verdict, with what is told of it, in a file that ends in this fault.
fn write_verdict<W: Sink>(
    writer: &mut W,
    answer: &Answer,
    fault: Option<Fault>,
) -> Result<(), Fault>
    ensures err { IfErr result (λ f. f ≡ write_failed) }
{
    match answer {
        Answer::NoPackets => write_words(writer, "\"no_packets\""),
        Answer::Refused {
            refusal,
            before,
            shown,
        } => {
            let verdict = verdict_of(is_cut(fault, answer));
            write_refusal(writer, verdict, refusal, before, shown)
        }
        Answer::Explained(explained) => write_explained(writer, explained),
        Answer::OutOfMemory => write_words(writer, "\"out_of_memory\""),
    }
}

// Writes what becomes of the connection of this name, and what is told of its packets.
fn write_connection<W: Sink>(
    writer: &mut W,
    before: &'static str,
    name: &str,
    connection: &Connection,
    audit: &Audit,
) -> Result<(), Fault>
    ensures err { IfErr result (λ f. f ≡ write_failed) }
{
    tell!(writer, before, "{\"name\":")?;
    write_string(writer, name)?;
    write_words(writer, ",\"verdict\":")?;
    write_verdict(writer, &connection.answer, audit.fault)?;
    write_facts(writer, &connection.facts, audit.records)?;
    write_words(writer, "}")
}

// Writes what becomes of each connection.
fn write_connections<W: Sink>(writer: &mut W, names: &[String], audit: &Audit) -> Result<(), Fault>
    ensures err { IfErr result (λ f. f ≡ write_failed) }
{
    let mut before = "";
    for (name, connection) in names.iter().zip(audit.connections.iter()) {
        write_connection(writer, before, name.as_str(), connection, audit)?;
        before = ",";
    }
    Ok(())
}

/// Writes an audit of these files, the capture in this format, as one JSON object and a line feed.
pub fn write_audit_json<W: Sink>(
    writer: &mut W,
    inputs: &Inputs<'_>,
    audit: &Audit,
    format: Format,
) -> Result<(), Fault>
    ensures err { IfErr result (λ f. f ≡ write_failed) }
{
    write_inputs(writer, inputs)?;
    write_words(writer, ",\"connections\":[")?;
    write_connections(writer, inputs.names, audit)?;
    tell!(
        writer,
        "],\"records\":",
        audit.records,
        ",\"packets\":",
        Counts::of(audit).packets,
        ",\"others\":",
        audit.others,
        ",\"fault\":"
    )?;
    write_fault_json(writer, audit.fault, format)?;
    write_link_types_json(writer, format)?;
    write_words(writer, "}\n")
}
